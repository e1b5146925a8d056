// What a history's withdrawals leave: the lodged steps that a closing makes withdrawals, the last level, the level at a price.
ghost use Rattle.engine_held.specs.history.Held.{ReachedCount, Reached, LastLevel, LevelAt};

use crate::history::History;

// How many of the lodged steps a closing at c reaches: the first ones, as prices fall.
fn reached_count(history: History, c: u32) -> usize
    ensures { ReachedCount history c result }
{
    let start = history.count.min(History::MOST);
    let steps = history.lodged.min(History::MOST - start);
    for (i, price) in history.prices[start..start + steps].iter().enumerate() {
        if *price < c {
            return i;
        }
    }
    steps
}

// The history once the lodged steps that a closing at c reaches are withdrawals (document 02, 5).
pub fn reach(history: History, c: u32) -> History
    ensures { Reached history c result }
{
    let k = reached_count(history, c);
    History {
        count: history.count.saturating_add(k),
        lodged: history.lodged.saturating_sub(k),
        ..history
    }
}

// The level of the last withdrawal, or the quantity before where there is none.
pub fn last_level(history: History, before: u32) -> u32
    ensures { LastLevel history before result }
{
    if history.count == 0 {
        before
    } else {
        history.levels[history.count.min(History::MOST) - 1]
    }
}

// The quantity after all withdrawals at p or above, from `first` on.
pub fn level_at(history: History, first: u32, p: u32) -> u32
    ensures { LevelAt history first p result }
{
    let n = history.count.min(History::MOST);
    let mut quantity = first;
    for (price, level) in history.prices[..n].iter().zip(history.levels[..n].iter()) {
        if p <= *price {
            quantity = *level;
        }
    }
    quantity
}
