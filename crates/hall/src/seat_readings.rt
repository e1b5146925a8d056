// What a seat of the auction hall reads of an auction (document 02, 14). The contract is an equation with the ledger, for every list of calls
// (specs/seat_readings/Shown.antt).
ghost use Rattle.std.specs.Prelude.{◌≡◌, []};
ghost use Rattle.rules_auction.specs.Ledger.{none};
ghost use Rattle.rules_seats.specs.Seats.{At};
ghost use Rattle.seats.specs.Rights.{seat_in};
ghost use Rattle.engine_held.specs.levels.Held.{held_levels};
ghost use Rattle.hall.specs.seat_readings.Shown.{shown_offer, StandsIn, reading_with, ReadsFrom};

use engine_auction::Auction;
use engine_checks::clock::Phase;
use engine_held::history::History;
use engine_held::levels::Levels;
use seats::Seat;

// The steps of an offer that stands, zeros behind them. One of no steps is an offer too.
#[derive(Clone, Copy)]
pub struct StandingOffer {
    pub count: usize,
    pub prices: [u32; History::MOST],
    pub levels: [u32; History::MOST],
}

// Both prices of the open or else the latest round, the excess of the latest closing and the phase, and of a developer its declared levels and
// standing offer; the other seats read none there.
#[derive(Clone, Copy)]
pub struct Reading {
    pub opening: u32,
    pub closing: u32,
    pub excess: i64,
    pub phase: Phase,
    pub levels: Levels,
    pub offer: Option<StandingOffer>,
}

// The offer that stands in a history: its steps stand behind the withdrawals.
fn standing_offer(history: History) -> Option<StandingOffer>
    ensures { StandsIn history result }
{
    let n = history.count;
    let k = history.offered;
    if k == 0 {
        return None;
    }
    let count = k - 1;
    if History::MOST < count || History::MOST - count < n {
        return None;
    }
    let mut prices = [0; History::MOST];
    let mut levels = [0; History::MOST];
    prices[..count].copy_from_slice(&history.prices[n..n + count]);
    levels[..count].copy_from_slice(&history.levels[n..n + count]);
    Some(StandingOffer {
        count,
        prices,
        levels,
    })
}

// The published values, with these levels and this offer.
fn published(auction: Auction, excess: i64, levels: Levels, offer: Option<StandingOffer>) -> Reading
    ensures { result ≡ reading_with auction excess levels offer }
{
    Reading {
        opening: auction.clock.opening,
        closing: auction.clock.closing,
        excess,
        phase: auction.clock.phase,
        levels,
        offer,
    }
}

// The published values alone.
fn published_alone(auction: Auction, excess: i64) -> Reading
    ensures { result ≡ reading_with auction excess (held_levels []) (shown_offer none) }
{
    published(auction, excess, Levels::none(), None)
}

// What the developer of this number reads.
fn of_developer(auction: Auction, excess: i64, developer: u8) -> Reading
    ensures { ReadsFrom auction excess (At developer) result }
{
    if developer == 0 {
        return published_alone(auction, excess);
    }
    if Auction::MOST_DEVELOPERS < developer {
        return published_alone(auction, excess);
    }
    let i = (developer - 1) as usize;
    let declared = auction.declared;
    let histories = auction.histories;
    published(auction, excess, declared[i], standing_offer(histories[i]))
}

// What the seat reads, where this is the excess of the latest closing.
pub fn read_from(auction: Auction, excess: i64, seat: Seat) -> Reading
    ensures { ReadsFrom auction excess (seat_in seat) result }
{
    match seat {
        Seat::Auctioneer => published_alone(auction, excess),
        Seat::Auditor => published_alone(auction, excess),
        Seat::Developer(n) => of_developer(auction, excess, n),
    }
}
