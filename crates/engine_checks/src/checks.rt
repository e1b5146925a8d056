// The checks of set-up and registration that need no auction: over plain numbers, the arrays of 32 developers and lent lists.
// Each ensures the rule's own test (crate `rules_auction`).
ghost use Rattle.std.specs.Prelude.{◌≡◌, ◌&&◌};
ghost use Rattle.rules_auction.specs.Refusals.{settings_ok, is_kind, levels_ok};
ghost use Rattle.rules_auction.specs.Ledger.{settings_of};
ghost use Rattle.engine_held.specs.supply.ByProject.{joins};

use engine_held::{levels, supply};

// ---- set-up

// Whether the settings are within their bounds and A is above CE/2 and at most 2 CE.
#[tactic(auto, unfolding(rules_auction::specs::Refusals::settings_ok))]
pub fn settings_ok(ce: u64, d: u64, m1: u64, m2: u64, a: u64) -> bool
    ensures { result ≡ settings_ok (settings_of ce d m1 m2 a) }
{
    engine_demand::settings_in_bounds(ce, d, m1, m2) && ce / 2 < a && a <= 2 * ce
}

// ---- registration

// Whether a kind is one of the two.
fn is_kind(kind: u8) -> bool
    ensures { result ≡ is_kind kind }
{
    kind == supply::EXISTING || kind == supply::NEW
}

// Whether the kind and the levels are sound, and a developer of this kind may join the project.
pub fn declaration_ok(
    projects: [u8; 32],
    kinds: [u8; 32],
    project: u8,
    kind: u8,
    levels: &[u32],
) -> bool
    ensures { result ≡ is_kind kind && levels_ok levels.now && joins projects kinds project kind }
{
    is_kind(kind) && levels::levels_ok(levels) && supply::may_join(projects, kinds, project, kind)
}
