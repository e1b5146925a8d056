// The levels that a developer declares, as the engine holds them, and the tests over levels that calls bring.
ghost use Rattle.std.specs.Prelude.{◌≡◌, [], take};
ghost use Rattle.rules_numbers.specs.Lists.{last_or, member};
ghost use Rattle.rules_auction.specs.Refusals.{levels_ok, lowering};
ghost use Rattle.engine_held.specs.levels.Held.{held_levels, levels_in};

// The levels that a developer declares, rising, with zeros behind them.
#[derive(Clone, Copy)]
pub struct Levels {
    pub values: [u32; 8],
    pub count: usize,
}

// Whether a registration may declare these levels: 1 to 8, strictly rising, above 0, at most 10^9.
pub fn levels_ok(levels: &[u32]) -> bool
    ensures { result ≡ levels_ok levels.now }
{
    if levels.is_empty() || Levels::MOST < levels.len() {
        return false;
    }
    let mut last = 0;
    for level in levels {
        if *level <= last || Levels::LARGEST < *level {
            return false;
        }
        last = *level;
    }
    true
}

impl Levels {
    // The most levels that a developer declares, and the largest (document 01, Registration).
    pub const MOST: usize = 8;

    pub const LARGEST: u32 = 1_000_000_000;

    pub fn none() -> Levels
        ensures { result ≡ held_levels [] }
    {
        Levels {
            values: [0; 8],
            count: 0,
        }
    }

    // The first eight of the levels.
    pub fn copied(levels: &[u32]) -> Levels
        ensures { result ≡ held_levels (take 8 levels.now) }
    {
        let count = levels.len().min(Levels::MOST);
        let mut values = [0; 8];
        values[..count].copy_from_slice(&levels[..count]);
        Levels { values, count }
    }

    // The levels without the zeros behind them.
    fn declared(&self) -> &[u32]
        ensures { result.now ≡ levels_in self.now }
    {
        &self.values[..self.count.min(Levels::MOST)]
    }

    pub fn highest(self) -> u32
        ensures { result ≡ last_or 0 (levels_in self) }
    {
        self.declared().last().copied().unwrap_or(0)
    }

    // Whether level v is among these.
    pub fn declares(self, v: u32) -> bool
        ensures { result ≡ member v (levels_in self) }
    {
        self.declared().contains(&v)
    }

    // Whether each of the levels is declared or 0, and strictly below the one before, the first below the quantity.
    pub fn lowers(self, quantity: u32, levels: &[u32]) -> bool
        ensures { result ≡ lowering (levels_in self) quantity levels.now }
    {
        let mut last = quantity;
        for level in levels {
            if *level != 0 && !self.declares(*level) {
                return false;
            }
            if last <= *level {
                return false;
            }
            last = *level;
        }
        true
    }
}
