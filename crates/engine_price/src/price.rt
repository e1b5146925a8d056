// The closing price: the lowest covered price of those that the clock passed, found by halving. Supply at a price is looked up in the supply
// curve; where developers are taken out, it is the sum of the highs of the projects that remain.
ghost use Rattle.std.specs.Prelude.{◌≡◌};
ghost use Rattle.engine_price.specs.price.Prices.{ByCurve, ByHistories, CoveredAt, ClosingPrice, LowestCovered};

use engine_auction::Auction;
use engine_checks::clock::Clock;
use engine_curve::{highs_and_lows, kept_curve};
use engine_held::supply;

// The lowest price passed, from the last C to A, that is covered by the test `covered`; A where none is.
fn lowest_covered<F: Fn(u32) -> bool>(clock: Clock, covered: F) -> u32
    requires { F.IsAlwaysCallable covered }
    ensures { LowestCovered clock.settings clock.closing (F.post covered) result }
{
    let mut lo = clock.closing;
    let mut hi = clock.settings.a;
    // Price hi is covered or A; nothing below lo is covered.
    while lo < hi {
        let mid = lo + (hi - lo) / 2;
        if covered(mid) {
            hi = mid;
        } else {
            lo = mid + 1;
        }
    }
    lo
}

// Whether p is covered: supply at p, looked up in the supply curve (document 02, 9), is at least Dem(p). `first` is the supply of the highest
// levels.
fn covered_at(auction: &Auction, first: u64, p: u32) -> bool
    ensures { CoveredAt auction.now.clock.settings (ByCurve auction.now.curve.words auction.now.curve.count first) p result }
{
    let curve = &auction.curve;
    let demand = auction.clock.settings.demand_at(p);
    demand <= kept_curve::supplied_at(&curve.words, curve.count, first, p)
}

// P (document 01, Closing price and award).
pub fn closing_price(auction: &Auction, first: u64) -> u32
    ensures { ClosingPrice auction.now.clock.settings auction.now.clock.closing
        (ByCurve auction.now.curve.words auction.now.curve.count first) result }
{
    lowest_covered(auction.clock, |p| covered_at(auction, first, p))
}

// Whether p is covered by these projects alone: 0 stands in the place of a developer that is taken out.
pub fn covered_by(auction: &Auction, projects: [u8; 32], highest: [u32; 32], p: u32) -> bool
    ensures { CoveredAt auction.now.clock.settings (ByHistories projects auction.now.histories highest) p result }
{
    let highs = highs_and_lows::lows_at(auction.histories, highest, highs_and_lows::above(p));
    let demand = auction.clock.settings.demand_at(p);
    demand <= supply::supply(projects, highs)
}

// The closing price of these projects alone; A where no price is covered.
pub fn price_by(auction: &Auction, projects: [u8; 32], highest: [u32; 32]) -> u32
    ensures { ClosingPrice auction.now.clock.settings auction.now.clock.closing
        (ByHistories projects auction.now.histories highest) result }
{
    lowest_covered(auction.clock, |p| covered_by(auction, projects, highest, p))
}
