// The tests and the excess of a closing, over plain numbers. Each test ensures the rule's own (crate `rules_auction`).
ghost use Rattle.std.specs.Prelude.{◌≡◌, ◌<◌, ◌^◌, pos, ◌-ℤ◌};
ghost use Rattle.rules_auction.specs.Rounds.{withdraws_all, clears};

use engine_held::supply;

// Whether a developer without an offer withdraws: one of kind 2 that is above 0.
#[tactic(auto, unfolding(rules_auction::specs::Rounds::withdraws_all))]
pub fn withdraws(kind: u8, quantity: u32) -> bool
    ensures { result ≡ withdraws_all kind quantity }
{
    kind == supply::NEW && 0 < quantity
}

// A thousandth of a GWh in kWh: an excess below it reads as none (document 02, 1).
const THOUSANDTH: u64 = 1_000;

// Whether a round closes the auction: the excess is below a thousandth of a GWh, or C is the floor.
#[tactic(auto, using(rules_auction::specs::RoundLaws::below_a_thousand), unfolding(rules_auction::specs::Rounds::clears))]
pub fn clears(supply: u64, demand: u64, closing: u32, floor: u32) -> bool
    ensures { result ≡ clears supply demand closing floor }
{
    supply.saturating_sub(demand) < THOUSANDTH || closing == floor
}

// The excess: supply less demand, signed.
pub fn excess_of(supply: u64, demand: u64) -> i64
    requires { (supply < 2 ^ 62) × (demand < 2 ^ 62) }
    ensures { result ≡ pos supply -ℤ pos demand }
{
    supply as i64 - demand as i64
}
