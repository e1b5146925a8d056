// Supply over the developers' projects and quantities, and who may join a project.
ghost use Rattle.std.specs.Prelude.{◌≡◌, ◌*◌, ◌≤◌, ◌<◌, ◌^◌};
ghost use Rattle.rules_auction.specs.Refusals.{is_number};
ghost use Rattle.engine_held.specs.supply.ByProject.{greatest_by_project, place_of, counted_of, supply_of, joins};

// The kinds of plant: existing, new (document 01, Registration).
pub const EXISTING: u8 = 1;

pub const NEW: u8 = 2;

// The places of the arrays, one for each number of a project or a developer. It refuses no call: the auction's own bound does.
const PLACES: u8 = 32;

// Whether a developer of this kind may join the project: all of its developers are of kind 2, and so is this one.
pub fn may_join(projects: [u8; 32], kinds: [u8; 32], project: u8, kind: u8) -> bool
    ensures { result ≡ joins projects kinds project kind }
{
    for (other, beside) in projects.iter().zip(kinds.iter()) {
        if *other == project && !(kind == NEW && *beside == NEW) {
            return false;
        }
    }
    true
}

// The greatest quantity among the developers of each project.
pub fn greatest_by_project(projects: [u8; 32], quantities: [u32; 32]) -> [u32; 32]
    ensures { result ≡ greatest_by_project projects quantities }
{
    let mut best = [0u32; 32];
    for (k, quantity) in projects.iter().zip(quantities.iter()) {
        let at = place(*k);
        best[at] = best[at].max(counted(*k, *quantity));
    }
    best
}

// Whether project or developer k has a place.
pub fn has_place(k: u8) -> bool
    ensures { result ≡ is_number k }
{
    1 <= k && k <= PLACES
}

// The place of project or developer k; the first place for a number that is none.
#[tactic(auto, unfolding(crate::specs::supply::ByProject::place_of))]
pub fn place(k: u8) -> usize
    ensures { (result ≡ place_of k) × (result < 32) }
{
    if has_place(k) { usize::from(k - 1) } else { 0 }
}

// The quantity of a developer of project k; 0 where k is no project's number.
#[tactic(auto, unfolding(crate::specs::supply::ByProject::counted_of))]
fn counted(k: u8, q: u32) -> u32
    ensures { result ≡ counted_of k q }
{
    if has_place(k) { q } else { 0 }
}

// Supply: the sum over the projects of the greatest quantity among each one's developers.
pub fn supply(projects: [u8; 32], quantities: [u32; 32]) -> u64
    ensures { (result ≡ supply_of projects quantities) × (result ≤ 32 * 2 ^ 32) }
{
    greatest_by_project(projects, quantities)
        .iter()
        .map(|greatest| u64::from(*greatest))
        .sum()
}
