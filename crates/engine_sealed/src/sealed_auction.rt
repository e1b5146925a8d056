// The sealed auction for long builds (document 02, 13): the year's demand given to the offers in turn. No state.
ghost use Rattle.std.specs.Prelude.{◌≡◌};
ghost use Rattle.rules_sealed.specs.Sealed.{book_of, sealing};
ghost use Rattle.engine_sealed.specs.sealed_auction.Cleared.{sealed_as, sealed_in, lent_in, Lends};
ghost use Rattle.engine_sealed.specs.sealed_checks.Reading.{book_in};

use crate::sealed_awards::Sealed;
use crate::sealed_checks::Book;
use crate::{sealed_awards, sealed_checks, sealed_order};
use engine_refusals::Refusal;

// Checks: 18, 19.
pub fn clear(ceiling: u64, demand: u64, book: Book) -> Result<Sealed, Refusal>
    ensures { sealed_in result ≡ sealed_as (sealing ceiling demand (book_in book.entry)) }
{
    sealed_checks::check_sealed(ceiling, demand, book)?;
    let order = sealed_order::taking_order(book.prices, book.ages);
    let count = book.prices.len();
    Ok(sealed_awards::share(demand, book.quantities, book.minimums, order, count))
}

// The awards from the lent buffer's start; what is left is answered. Checks: 18, 19, 11.
pub fn sealed_auction(
    ceiling: u64,
    demand: u64,
    prices: &[u64],
    quantities: &[u64],
    minimums: &[u64],
    ages: &[u64],
    awards: &mut [u64],
) -> Result<u64, Refusal>
    ensures { Lends ceiling demand (book_of prices.now quantities.now minimums.now ages.now)
        awards.old awards.new (lent_in result) }
{
    let book = Book {
        prices,
        quantities,
        minimums,
        ages,
    };
    let sealed = clear(ceiling, demand, book)?;
    if awards.len() < prices.len() {
        return Err(Refusal::BufferTooShort);
    }
    sealed_awards::put_awards(sealed.awards, prices.len(), awards);
    Ok(sealed.left)
}
