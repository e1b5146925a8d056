// Who can force the price in the auction that a record or a session leaves behind (document 02, 11). The best first move goes into a lent buffer.
ghost use Rattle.record_replay.specs.record_auction.Leaves.{ledger_of};
ghost use Rattle.record_replay.specs.record_forcing.Chosen.{told_in, Tells};

use crate::record_auction;
use engine_looks::forcing;
use engine_refusals::Refusal;

// Makes the calls that a record or, where `seated` says so, a session asks, from a fresh auction, and tells who can force the price there: the outcome.
pub fn who_can_force(
    src: &[u8],
    seated: bool,
    first: u64,
    second: u64,
    prices: &[u64],
    chosen: &mut [u8],
) -> Result<u32, Refusal>
    ensures { Tells (ledger_of seated src.now) first second prices.now chosen.old chosen.new (told_in result) }
{
    let left = record_auction::after(src, seated);
    let auction = left.auction;
    let forced = forcing::who_can_force(auction, first, second, prices)?;
    if chosen.is_empty() {
        return Err(Refusal::BufferTooShort);
    }
    // 1 withdraws, 0 keeps.
    chosen[0] = u8::from(forced.withdraws);
    Ok(forced.outcome)
}
