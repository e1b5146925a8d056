// The refusals of the sealed auction (document 02, 13).
ghost use Rattle.std.specs.Prelude.{◌≡◌, ◌&&◌, leb, length};
ghost use Rattle.rules_numbers.specs.Lists.{all};
ghost use Rattle.engine_refusals.specs.Numbers.{number_in};
ghost use Rattle.rules_sealed.specs.Sealed.{offers, offer_ok, book_ok, sealed_refusal};
ghost use Rattle.engine_sealed.specs.sealed_checks.Reading.{book_in};

use engine_refusals::Refusal;

// Bounds, all of document 02, 13. The most offers in a list.
pub const MOST_OFFERS: usize = 16;

// The highest price, also of the ceiling.
pub const TOP_PRICE: u64 = 1_000_000;

// The largest quantity of an offer.
pub const MOST_QUANTITY: u64 = 1_000_000_000;

// The greatest age of a group, in years.
pub const OLDEST: u64 = 20;

// The largest demand of the year.
pub const MOST_DEMAND: u64 = 100_000_000_000;

// A list of offers: what stands at one place of the four slices is one offer's.
#[derive(Clone, Copy)]
pub struct Book<'a> {
    pub prices: &'a [u64],
    pub quantities: &'a [u64],
    pub minimums: &'a [u64],
    pub ages: &'a [u64],
}

// Whether a number is 1 to `most`.
fn is_up_to(most: u64, number: u64) -> bool
    ensures { result ≡ leb 1 number && leb number most }
{
    1 <= number && number <= most
}

// Whether the fields of an offer are within their bounds.
#[tactic(auto, unfolding(rules_sealed::specs::Sealed::offer_ok))]
fn offer_ok(price: u64, quantity: u64, minimum: u64, age: u64) -> bool
    ensures { result ≡ offer_ok (record { price = price; quantity = quantity; minimum = minimum; age = age }) }
{
    is_up_to(TOP_PRICE, price)
        && is_up_to(MOST_QUANTITY, quantity)
        && is_up_to(quantity, minimum)
        && age <= OLDEST
}

// Whether the fields of every offer are within their bounds.
fn offers_ok(book: Book) -> bool
    requires { (length book.quantities.now ≡ length book.prices.now) × (length book.minimums.now ≡ length book.prices.now) × (length book.ages.now ≡ length book.prices.now) }
    ensures { result ≡ all offer_ok (offers (book_in book.entry)) }
{
    (0..book.prices.len()).all(|i| {
        offer_ok(
            book.prices[i],
            book.quantities[i],
            book.minimums[i],
            book.ages[i],
        )
    })
}

// Whether the lists are equally long, with at most 16 offers, and every field is within its bounds.
#[tactic(auto, unfolding(rules_sealed::specs::Sealed::book_ok, rules_sealed::specs::Sealed::long_ok))]
fn book_ok(book: Book) -> bool
    ensures { result ≡ book_ok (book_in book.entry) }
{
    book.prices.len() <= MOST_OFFERS
        && book.quantities.len() == book.prices.len()
        && book.minimums.len() == book.prices.len()
        && book.ages.len() == book.prices.len()
        && offers_ok(book)
}

// Whether no price is above the ceiling.
fn within_ceiling(ceiling: u64, prices: &[u64]) -> bool
    ensures { result ≡ all (λ p. leb p ceiling) prices.now }
{
    prices.iter().all(|&price| price <= ceiling)
}

// Whether the book is accepted. Checks: 18 for more than 16 offers, lists of unequal lengths or a field out of bounds, then 19 for an offered price
// above the ceiling.
pub fn check_sealed(ceiling: u64, demand: u64, book: Book) -> Result<(), Refusal>
    ensures { number_in result ≡ sealed_refusal ceiling demand (book_in book.entry) }
{
    if !is_up_to(TOP_PRICE, ceiling) {
        return Err(Refusal::SealedOutOfBounds);
    }
    if MOST_DEMAND < demand {
        return Err(Refusal::SealedOutOfBounds);
    }
    if !book_ok(book) {
        return Err(Refusal::SealedOutOfBounds);
    }
    if !within_ceiling(ceiling, book.prices) {
        return Err(Refusal::AboveTheCeiling);
    }
    Ok(())
}
