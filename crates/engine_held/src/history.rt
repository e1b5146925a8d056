// The history of a developer's withdrawals, with its standing offer or lodged steps, as the engine holds it.
ghost use Rattle.std.specs.Prelude.{◌≡◌, []};
ghost use Rattle.rules_auction.specs.Ledger.{none};
ghost use Rattle.engine_held.specs.history.Held.{held_history, Offered, Cancelled, Lodged, Applied};

// A developer's withdrawals, behind them the steps of its standing offer, then its lodged steps that no closing has reached, with zeros behind
// them. `offered` is 0 for no offer, else 1 more than its steps.
#[derive(Clone, Copy)]
pub struct History {
    pub prices: [u32; 8],
    pub levels: [u32; 8],
    pub count: usize,
    pub offered: usize,
    pub lodged: usize,
}

impl History {
    // The most withdrawals of a developer (document 01, Rounds).
    pub const MOST: usize = 8;

    pub fn new() -> History
        ensures { result ≡ held_history [] none [] }
    {
        History {
            prices: [0; 8],
            levels: [0; 8],
            count: 0,
            offered: 0,
            lodged: 0,
        }
    }

    // The history with an offer of these steps standing, where there is room for them.
    pub fn offer(self, prices: &[u32], levels: &[u32]) -> History
        ensures { Offered self prices.now levels.now result }
    {
        let mut h = self;
        let start = self.count.min(History::MOST);
        let steps = prices.len();
        if levels.len() == steps && steps <= History::MOST - start {
            h.prices[start..start + steps].copy_from_slice(prices);
            h.levels[start..start + steps].copy_from_slice(levels);
            h.offered = steps + 1;
        }
        h
    }

    // The history without its standing offer: the withdrawals alone, zeros behind them (document 02, 7).
    pub fn cancel(self) -> History
        ensures { Cancelled self result }
    {
        let mut h = self;
        let n = self.count.min(History::MOST);
        h.prices[n..].fill(0);
        h.levels[n..].fill(0);
        h.offered = 0;
        h
    }

    // A history of a lodged list alone, as far as there is room (document 02, 5).
    pub fn lodge(prices: &[u32], levels: &[u32]) -> History
        ensures { Lodged prices.now levels.now result }
    {
        History {
            offered: 0,
            lodged: prices.len(),
            ..History::new().offer(prices, levels)
        }
    }

    // The history once its offer is applied; where an offer is missing, all is withdrawn at the opening price.
    pub fn close(self, missing: bool, opening: u32) -> History
        ensures { Applied self missing opening result }
    {
        let mut h = self;
        if 0 < self.offered {
            h.count = self.count.saturating_add(self.offered - 1);
            h.offered = 0;
        } else if missing && self.count < History::MOST {
            h.prices[self.count] = opening;
            h.levels[self.count] = 0;
            h.count = self.count + 1;
        }
        h
    }
}
