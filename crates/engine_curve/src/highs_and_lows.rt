// What each developer stands at, developer n at place n - 1: its highest level, and its low at a price.
ghost use Rattle.std.specs.Prelude.{◌≡◌};
ghost use Rattle.engine_curve.specs.highs_and_lows.Lows.{Highests, Lows, next_price};

use engine_held::history::History;
use engine_held::levels::Levels;
use engine_held::withdrawals;
use std::array;

// The highest level of each developer.
pub fn highest_levels(declared: [Levels; 32]) -> [u32; 32]
    ensures { Highests declared result }
{
    array::from_fn(|i| declared[i].highest())
}

// The low of each developer at p, from its highest level.
pub fn lows_at(histories: [History; 32], highest: [u32; 32], p: u32) -> [u32; 32]
    ensures { Lows histories highest p result }
{
    let mut out = [0u32; 32];
    for i in 0..32 {
        out[i] = withdrawals::level_at(histories[i], highest[i], p);
    }
    out
}

// The next price. High at p is low there. The last number of 32 bits is above every price.
#[tactic(auto, unfolding(crate::specs::highs_and_lows::Lows::next_price))]
pub fn above(p: u32) -> u32
    ensures { result ≡ next_price p }
{
    p.saturating_add(1)
}
