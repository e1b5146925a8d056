// Settling a closed auction: closing price, award, counts, and the award records in the lent buffer (document 01, Closing price and award).
#![tactic(auto)]

ghost use Rattle.engine_settling.specs.Settles.{accepted_in, settled_in, Settles};
ghost use Rattle.engine_settling.specs.Kept.{refusal_again};
ghost use Rattle.engine_refusals.specs.Numbers.{number_in};
ghost use Rattle.std.specs.Prelude.{◌≡◌, min};

use engine_auction::Auction;
use engine_award::{award_records, awarding, participation};
use engine_price::clearing;
use engine_refusals::Refusal;
use engine_search::selection;
use engine_table::open_levels;

// What an accepted settling answers: P, Dem(P) with its remainder (document 02, 4), the award's total, the numbers of admissible choices, of
// covering ones and of those that the search keeps (document 02, 3), the second price and whether it is short (document 02, 5), whether
// participation is insufficient and the price paid to existing plants (document 02, 10), and the number of award records.
#[derive(Clone, Copy)]
pub struct Settlement {
    pub price: u32,
    pub demand: u64,
    pub remainder: u32,
    pub total: u64,
    pub choices: u64,
    pub covering: u64,
    pub kept: u64,
    pub second: u32,
    pub short: bool,
    pub insufficient: bool,
    pub paid: u32,
    pub records: usize,
}

// The limit of a settling: above 65,536 it means 65,536 (document 01, Closing price and award).
fn capped_limit(limit: u32) -> u64
    ensures { result ≡ min limit 65536 }
{
    u64::from(limit.min(Auction::CHOICE_LIMIT))
}

// Checks: 2, 10, 11.
pub fn settle(auction: Auction, limit: u32, awards: &mut [u8]) -> Result<Settlement, Refusal>
    ensures { Settles auction limit awards.old awards.new (settled_in result) }
{
    if !auction.clock.phase.is_closed() {
        return Err(Refusal::NotInThisPhase);
    }
    let cleared = clearing::clear(&auction);
    let lows = cleared.lows;
    let highs = cleared.highs;
    let table = open_levels::table_of(auction.projects, auction.declared, lows, highs);
    let selected = selection::select(table, cleared.demand, capped_limit(limit))?;
    let award = selected.award;
    let records = award_records::count_awards(award);
    if awards.len() < award_records::RECORD * records {
        return Err(Refusal::BufferTooShort);
    }
    let winners = awarding::winners(&auction, lows, highs, award);
    let insufficient = participation::insufficient(&auction, cleared.highest, award, winners);
    let paid = participation::price_paid(insufficient, auction.clock.settings.ce, cleared.price);
    award_records::write_awards(awards, award, winners);
    Ok(Settlement {
        price: cleared.price,
        demand: cleared.demand,
        remainder: cleared.remainder,
        total: selected.total,
        choices: selected.choices,
        covering: selected.covering,
        kept: selected.kept,
        second: cleared.second,
        short: cleared.short,
        insufficient,
        paid,
        records,
    })
}

// Whether another settling of the same auction into as many bytes is accepted, by the answer to one that was: a closed auction never changes again,
// so that only the limit is left to test.
pub fn check_again(settlement: Settlement, limit: u32) -> Result<(), Refusal>
    ensures { number_in result ≡ refusal_again (accepted_in settlement) limit }
{
    if capped_limit(limit) < settlement.choices {
        return Err(Refusal::AboveTheLimit);
    }
    Ok(())
}
