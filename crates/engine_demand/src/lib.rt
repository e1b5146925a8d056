// The demand call: Dem(p) for CE, D, M1, M2 and p, by the formulas of document 01, Demand, and its remainder (document 02, 4).
// Its contract is an equation with the definitions of the crate `rules_demand`, which holds the laws of Dem and of the remainder too.
#![tactic(auto)]

ghost use Rattle.std.specs.Prelude.{◌≡◌, Ok, ◌+◌, ◌-◌, ◌*◌, ◌≤◌, ◌<◌};
ghost use Rattle.rules_demand.specs.Demand.{InBounds, InRange, in_bounds, in_range};
ghost use Rattle.rules_demand.specs.Remainder.{exact_times_ce};
ghost use Rattle.rules_demand.specs.Answer.{demand_answer};
ghost use Rattle.engine_demand.specs.Answers.{demanded_in};

use engine_refusals::Refusal;

// Dem(p) in kWh, and its remainder in CE-ths of a kWh.
#[derive(Clone, Copy)]
pub struct Demanded {
    pub quantity: u64,
    pub remainder: u32,
}

impl Demanded {
    // The largest CE, the entrant's cost.
    pub const LARGEST_CE: u64 = 500_000;
    // The largest M2, the upper margin.
    pub const LARGEST_M2: u64 = 100_000_000_000;
}

// Whether CE, D, M1 and M2 are within their bounds.
#[tactic(auto, unfolding(rules_demand::specs::Demand::in_bounds))]
pub fn settings_in_bounds(ce: u64, d: u64, m1: u64, m2: u64) -> bool
    ensures { result ≡ in_bounds ce d m1 m2 }
{
    ce % 2 == 0
        && 2 <= ce
        && ce <= Demanded::LARGEST_CE
        && 0 < m1
        && m1 < d
        && d < m2
        && m2 <= Demanded::LARGEST_M2
}

// Whether p is from the floor to 2 CE.
#[tactic(auto, unfolding(rules_demand::specs::Demand::in_range))]
fn price_in_range(ce: u64, p: u64) -> bool
    requires { ce ≤ 500000 }
    ensures { result ≡ in_range ce p }
{
    ce / 2 <= p && p <= 2 * ce
}

// Exact demand times CE, which is whole.
#[tactic(auto, unfolding(rules_demand::specs::Remainder::exact_times_ce))]
fn exact_times_ce(ce: u64, d: u64, m1: u64, m2: u64, p: u64) -> u64
    requires in_bounds { InBounds ce d m1 m2 }
    requires in_range { InRange ce p }
    ensures { (result ≡ exact_times_ce ce d m1 m2 p) × (result ≤ 200000000000 * 500000) }
{
    if ce <= p {
        d * ce - (d - m1) * (p - ce)
    } else {
        d * ce + 2 * (m2 - d) * (ce - p)
    }
}

// Rounded demand times CE less exact demand times CE.
fn remainder_of(ce: u64, exact: u64, quantity: u64) -> u32
    requires { (ce ≤ 500000) × (exact ≤ 200000000000 * 500000) × (exact ≤ quantity * ce) × (quantity * ce < exact + ce) }
    ensures { result ≡ quantity * ce - exact }
{
    (quantity * ce - exact) as u32
}

// Dem(p), within the bounds: exact demand, rounded up; and its remainder.
#[tactic(auto, using(crate::proofs::Rounding::rounded_up), unfolding(rules_demand::specs::Answer::demand_answer, rules_demand::specs::Remainder::remainder))]
fn rounded(ce: u64, d: u64, m1: u64, m2: u64, p: u64) -> Demanded
    requires in_bounds { InBounds ce d m1 m2 }
    requires in_range { InRange ce p }
    ensures { demanded_in (Ok result) ≡ demand_answer ce d m1 m2 p }
{
    let exact = exact_times_ce(ce, d, m1, m2, p);
    let quantity = exact.div_ceil(ce);
    Demanded {
        quantity,
        remainder: remainder_of(ce, exact, quantity),
    }
}

// The demand call.
#[tactic(auto, using(rules_demand::specs::Range::in_bounds_lem, rules_demand::specs::Range::in_range_lem), unfolding(rules_demand::specs::Answer::demand_answer))]
pub fn demand(ce: u64, d: u64, m1: u64, m2: u64, p: u64) -> Result<Demanded, Refusal>
    ensures { demanded_in result ≡ demand_answer ce d m1 m2 p }
{
    if settings_in_bounds(ce, d, m1, m2) && price_in_range(ce, p) {
        Ok(rounded(ce, d, m1, m2, p))
    } else {
        Err(Refusal::BeyondBounds)
    }
}
