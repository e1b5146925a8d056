// The checks of offers and lodged lists that need no auction: whose they are, and their prices.
// Each ensures the rule's own test (crate `rules_auction`).
ghost use Rattle.std.specs.Prelude.{ℕ, ◌≡◌, ◌&&◌, eqb, map};
ghost use Rattle.rules_auction.specs.Refusals.{falling, prices_ok};

use engine_held::history::History;

// Whether a developer, `numbered` if its number is one of 1 to 32, is of the kind wanted: kind 2 makes offers, kind 1 lodges lists.
pub fn is_of(numbered: bool, kind: u8, wanted: u8) -> bool
    ensures { result ≡ numbered && eqb kind wanted }
{
    numbered && kind == wanted
}

// Whether there are as many prices as levels, at most 8, and the prices fall from below `opening` and are at least `closing`.
#[tactic(auto, unfolding(rules_auction::specs::Refusals::prices_ok))]
pub fn prices_ok(closing: u32, opening: u32, prices: &[u32], levels: &[u32]) -> bool
    ensures { result ≡ prices_ok closing opening prices.now levels.now }
{
    prices.len() == levels.len()
        && prices.len() <= History::MOST
        && prices_fall(u64::from(closing), u64::from(opening), prices)
}

// Whether the prices fall strictly from below the opening price and are at least the closing price; n is what a price of this type is as a number.
pub fn prices_fall<P: Copy + Into<u64>>(closing: u64, opening: u64, prices: &[P]) -> bool
    ensures { (n : P → ℕ) → ((p : P) (m : ℕ) → P.converts p m → m ≡ n p) → result ≡ falling closing opening (map n prices.now) }
{
    let mut last = opening;
    for &price in prices {
        let p: u64 = price.into();
        if p < closing || last <= p {
            return false;
        }
        last = p;
    }
    true
}
