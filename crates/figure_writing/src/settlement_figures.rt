// An accepted settling as numbers, and its limit of 64 bits.
ghost use Rattle.std.specs.Prelude.{◌≡◌, min};
ghost use Rattle.engine_settling.specs.Settles.{accepted_in};
ghost use Rattle.figure_writing.specs.settlement_figures.Settled.{settled_figures};

use engine_auction::Auction;
use engine_settling::Settlement;

// How many numbers a settlement has.
pub const COUNT: usize = 12;

// A limit above 65,536 means 65,536 (document 01, Closing price and award).
pub fn capped(limit: u64) -> u32
    ensures { result ≡ min limit 65536 }
{
    limit.min(u64::from(Auction::CHOICE_LIMIT)) as u32
}

pub fn numbers_of(settled: Settlement) -> [u64; COUNT]
    ensures { result ≡ settled_figures (accepted_in settled) }
{
    [
        settled.price as u64,
        settled.demand,
        settled.remainder as u64,
        settled.total,
        settled.choices,
        settled.covering,
        settled.kept,
        settled.second as u64,
        reply_values::mark(settled.short),
        reply_values::mark(settled.insufficient),
        settled.paid as u64,
        settled.records as u64,
    ]
}
