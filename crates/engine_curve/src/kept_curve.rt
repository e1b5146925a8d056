// The supply curve as the engine keeps it (document 02, 9): a word for each point, by falling price. The supply before a point is that after
// the point before it.
ghost use Rattle.std.specs.Prelude.{◌≡◌, [], ◌<◌};
ghost use Rattle.engine_curve.specs.kept_curve.Held.{lent_curve, held_curve, Trimmed, WithPoint, supply_before, PointAt, SuppliedAt};

// The first `count` words are points: the price times 2^40, and the supply after it. Zeros stand behind them.
#[derive(Clone, Copy)]
pub struct SupplyCurve {
    pub words: [u64; 256],
    pub count: usize,
}

// A point as it is read: a withdrawal price, and total supply before it and after it.
#[derive(Clone, Copy)]
pub struct CurvePoint {
    pub price: u32,
    pub before: u64,
    pub after: u64,
}

impl SupplyCurve {
    // The most distinct withdrawal prices: eight withdrawals for each of 32 developers (document 02, 9).
    pub const MOST: usize = 256;

    // 2^40, above every supply: 32 projects of 10^9 at most.
    pub const PRICE: u64 = 1099511627776;

    // The highest price of which a word is kept: nothing is withdrawn above an auction's top price. It refuses no call.
    pub const HIGHEST: u32 = 1_000_000;

    pub fn new() -> SupplyCurve
        ensures { result ≡ held_curve [] }
    {
        SupplyCurve {
            words: [0; 256],
            count: 0,
        }
    }

    // The points without the last one, where that stands at p, in lent words: how many are left.
    pub fn trim(words: &mut [u64; 256], count: usize, p: u32) -> usize
        ensures { Trimmed (lent_curve words.old count) p (lent_curve words.new result) }
    {
        if count == 0
            || SupplyCurve::MOST < count
            || words[count - 1] / SupplyCurve::PRICE != u64::from(p)
        {
            return count;
        }
        words[count - 1] = 0;
        count - 1
    }

    // The points and one more behind them, as far as there is room, in lent words: how many there are.
    pub fn put_point(words: &mut [u64; 256], count: usize, price: u32, after: u64) -> usize
        ensures { WithPoint (lent_curve words.old count) price after (lent_curve words.new result) }
    {
        if SupplyCurve::MOST <= count
            || SupplyCurve::HIGHEST < price
            || SupplyCurve::PRICE <= after
        {
            return count;
        }
        words[count] = u64::from(price) * SupplyCurve::PRICE + after;
        count + 1
    }

    // The supply before the point at a place: `first` before the first one.
    fn supply_before(self, first: u64, place: usize) -> u64
        requires { place < 256 }
        ensures { result ≡ supply_before self.words first place }
    {
        if place == 0 {
            first
        } else {
            self.words[place - 1] % SupplyCurve::PRICE
        }
    }

    // The point at a place, zero past the end; `first` is the supply before the first one.
    pub fn point(self, first: u64, place: usize) -> CurvePoint
        ensures { PointAt self first place result }
    {
        if self.count <= place || SupplyCurve::MOST <= place {
            return CurvePoint {
                price: 0,
                before: 0,
                after: 0,
            };
        }
        let word = self.words[place];
        CurvePoint {
            price: (word / SupplyCurve::PRICE) as u32,
            before: self.supply_before(first, place),
            after: word % SupplyCurve::PRICE,
        }
    }
}

// The supply at p, looked up in the words of a curve: what is left after the lowest point above p; `first` is the supply before the first one.
pub fn supplied_at(words: &[u64; 256], count: usize, first: u64, p: u32) -> u64
    ensures { SuppliedAt words.now count first p result }
{
    let mut left = first;
    for word in &words[..count.min(SupplyCurve::MOST)] {
        if word / SupplyCurve::PRICE <= u64::from(p) {
            return left;
        }
        left = word % SupplyCurve::PRICE;
    }
    left
}
