// The figures of an auction, written into the numbers that a host lends: its state, the supply curve, the settlement, and what a seat reads. Each leaves
// all that was lent where it refuses, and tests last whether the figures fit (11). The contracts are equations with the ledger, for every list of calls
// (specs/Writes.antt).
#![tactic(auto)]

ghost use Rattle.seats.specs.Rights.{seat_in};
ghost use Rattle.engine_refusals.specs.Numbers.{number_in};
ghost use Rattle.figure_writing.specs.lent_numbers.Lent.{counted_in};
ghost use Rattle.figure_writing.specs.Writes.{WritesState, WritesCurve, WritesSettlement, WritesReading};

use engine_auction::Auction;
use engine_curve::highs_and_lows;
use engine_held::supply;
use engine_refusals::Refusal;
use hall::seat_readings;
use reply_writing::reply_sizes::AWARD_ROOM;
use seats::Seat;

pub mod curve_points;
pub mod lent_numbers;
pub mod reading_figures;
pub mod settlement_figures;

// Phase, opening and closing price of the open or else the latest round, excess of the latest accepted closing, number of accepted closings. Checks: 11.
pub fn state(
    auction: Auction,
    excess: i64,
    closings: u64,
    figures: &mut [u64],
) -> Result<(), Refusal>
    ensures { WritesState auction excess closings figures.old figures.new (number_in result) }
{
    let own = [
        u64::from(u8::from(auction.clock.phase)),
        u64::from(auction.clock.opening),
        u64::from(auction.clock.closing),
        reply_values::bits_of(excess),
        closings,
    ];
    lent_numbers::lend(&own, figures)
}

// The supply curve (document 02, 9): of each point, falling, the price, supply before it and supply after it. Counts the points. Checks: 11.
pub fn curve(auction: Auction, points: &mut [u64]) -> Result<u64, Refusal>
    ensures { WritesCurve auction points.old points.new (counted_in result) }
{
    let count = auction.curve.count;
    if points.len() / 3 < count {
        return Err(Refusal::BufferTooShort);
    }
    let highest = highs_and_lows::highest_levels(auction.declared);
    let first = supply::supply(auction.projects, highest);
    curve_points::put_points(auction.curve.words, count, first, points);
    Ok(count as u64)
}

// The settlement: twelve numbers, and the award records, 6 bytes each. The limit is any 64 bits. Checks: 2, 10, 11, the last for either buffer.
pub fn settlement(
    auction: Auction,
    limit: u64,
    figures: &mut [u64],
    awards: &mut [u8],
) -> Result<(), Refusal>
    ensures { WritesSettlement auction limit figures.old figures.new awards.old awards.new (number_in result) }
{
    let mut own = [0u8; AWARD_ROOM];
    let settled = engine_settling::settle(auction, settlement_figures::capped(limit), &mut own)?;
    let filled = reply_values::award_bytes(settled.records);
    if awards.len() < filled {
        return Err(Refusal::BufferTooShort);
    }
    if figures.len() < settlement_figures::COUNT {
        return Err(Refusal::BufferTooShort);
    }
    let numbers = settlement_figures::numbers_of(settled);
    awards[..filled].copy_from_slice(&own[..filled]);
    figures[..settlement_figures::COUNT].copy_from_slice(&numbers);
    Ok(())
}

// What the seat reads, where this is the excess of the latest accepted closing. Counts the numbers. Checks: 11.
pub fn reading(
    auction: Auction,
    excess: i64,
    seat: Seat,
    figures: &mut [u64],
) -> Result<u64, Refusal>
    ensures { WritesReading auction excess (seat_in seat) figures.old figures.new (counted_in result) }
{
    let shown = seat_readings::read_from(auction, excess, seat);
    match seat {
        Seat::Auctioneer => reading_figures::published_alone(shown, figures),
        Seat::Auditor => reading_figures::published_alone(shown, figures),
        Seat::Developer(_) => reading_figures::of_developer(shown, figures),
    }
}
