// The figures of a closed auction that need neither the limit nor the buffer of a settling (document 01, Closing price and award).
ghost use Rattle.engine_price.specs.clearing.Clears.{Clears};

use crate::{price, second_price};
use engine_auction::Auction;
use engine_curve::highs_and_lows;
use engine_held::supply;

// What a closed auction clears at: every developer's highest level, P, Dem(P) with its remainder (document 02, 4), each developer's low and
// high at P, and the second price with its mark (document 02, 5).
#[derive(Clone, Copy)]
pub struct Cleared {
    pub highest: [u32; 32],
    pub price: u32,
    pub demand: u64,
    pub remainder: u32,
    pub lows: [u32; 32],
    pub highs: [u32; 32],
    pub second: u32,
    pub short: bool,
}

pub fn clear(auction: &Auction) -> Cleared
    ensures { Clears auction.now result }
{
    let settings = auction.clock.settings;
    let highest = highs_and_lows::highest_levels(auction.declared);
    let first = supply::supply(auction.projects, highest);
    let p = price::closing_price(auction, first);
    let lows = highs_and_lows::lows_at(auction.histories, highest, p);
    let highs = highs_and_lows::lows_at(auction.histories, highest, highs_and_lows::above(p));
    let second = second_price::second_price(auction, highest, p);
    Cleared {
        highest,
        price: p,
        demand: settings.demand_at(p),
        remainder: settings.remainder_at(p),
        lows,
        highs,
        second: second.price,
        short: second.short,
    }
}
