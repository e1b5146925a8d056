// What can be read of an auction without changing it: a preview of closing, and the supply curve. Each contract is an equation with the ledger, for
// every list of calls (specs/readings/Readings.antt).
ghost use Rattle.engine_looks.specs.readings.Readings.{preview_in, Previews, ReadsCurve};

use engine_auction::Auction;
use engine_curve::highs_and_lows;
use engine_held::supply;
use engine_refusals::Refusal;

// What an accepted closing would answer, and whether the auction would then be closed. It holds no auction.
#[derive(Clone, Copy)]
pub struct Preview {
    pub excess: i64,
    pub remainder: u32,
    pub closed: bool,
}

// The number of points of the supply curve, and the one at a place, zero past the end. It holds no auction.
#[derive(Clone, Copy)]
pub struct SupplyPoint {
    pub entries: usize,
    pub price: u32,
    pub before: u64,
    pub after: u64,
}

// Looking before closing (document 02, 6): closes a copy. Checks: 2.
pub fn preview_closing(auction: Auction) -> Result<Preview, Refusal>
    ensures { Previews auction (preview_in result) }
{
    let closing = auction.close()?;
    Ok(Preview {
        excess: closing.excess,
        remainder: closing.remainder,
        closed: closing.auction.clock.phase.is_closed(),
    })
}

// The supply curve, point by point (document 02, 9). Before its first point supply is that of the highest levels.
pub fn supply_point(auction: Auction, place: usize) -> SupplyPoint
    ensures { ReadsCurve auction place result }
{
    let highest = highs_and_lows::highest_levels(auction.declared);
    let first = supply::supply(auction.projects, highest);
    let point = auction.curve.point(first, place);
    SupplyPoint {
        entries: auction.curve.count,
        price: point.price,
        before: point.before,
        after: point.after,
    }
}
