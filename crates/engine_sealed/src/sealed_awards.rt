// Sealed offers taken in turn (document 02, 13): each gets the lesser of its quantity and what is left, or nothing if that is below its minimum.
ghost use Rattle.std.specs.Prelude.{◌≤◌, ◌<◌, ◌≡◌, length, take};
ghost use Rattle.rules_numbers.specs.ListLaws.{Each};
ghost use Rattle.rules_numbers.specs.Tails.{laid};
ghost use Rattle.rules_sealed.specs.Sealed.{most_offers};
ghost use Rattle.engine_sealed.specs.sealed_awards.Shares.{Shares, Awards};

use crate::sealed_checks::MOST_OFFERS;

// The award of each offer in list order with 0 behind them, and what is left.
#[derive(Clone, Copy)]
pub struct Sealed {
    pub awards: [u64; MOST_OFFERS],
    pub left: u64,
}

// The offers at the first `count` places of `order`, taken in this order.
pub fn share(
    demand: u64,
    quantities: &[u64],
    minimums: &[u64],
    order: [usize; 32],
    count: usize,
) -> Sealed
    requires { (count ≤ most_offers) × (length quantities.now ≡ count) × (length minimums.now ≡ count) × Each (λ k. k < count) (take count order) }
    ensures { Shares quantities.now minimums.now demand (take count order) result.awards result.left }
{
    let mut awards = [0u64; MOST_OFFERS];
    let mut left = demand;
    for &place in &order[..count] {
        let given = award(left, quantities[place], minimums[place]);
        awards[place] = given;
        left -= given;
    }
    Sealed { awards, left }
}

// The lesser of the quantity and what is left, or nothing if that is below the minimum.
#[tactic(auto, unfolding(rules_sealed::specs::Sealed::awarded))]
fn award(left: u64, quantity: u64, minimum: u64) -> u64
    ensures { Awards left quantity minimum result }
{
    let most = quantity.min(left);
    if most < minimum {
        return 0;
    }
    most
}

// The first `count` awards, from a buffer's start; the places behind them stay.
#[tactic(auto, unfolding(rules_numbers::specs::Tails::laid))]
pub fn put_awards(awards: [u64; MOST_OFFERS], count: usize, out: &mut [u64])
    requires { (count ≤ most_offers) × (count ≤ length out.old) }
    ensures { out.new ≡ laid (take count awards) out.old }
{
    out[..count].copy_from_slice(&awards[..count]);
}
