// What a seat reads, written as numbers (document 02, 14): the published values and, of a developer, its declared levels and its standing offer.
ghost use Rattle.std.specs.Prelude.{◌≡◌, ◌+◌, ◌*◌, ◌≤◌, length, take};
ghost use Rattle.rules_numbers.specs.Tails.{laid};
ghost use Rattle.figure_writing.specs.lent_numbers.Lent.{laid_behind, Counts, counted_in};
ghost use Rattle.figure_writing.specs.reading_figures.Read.{published_in, level_figures, steps_in, offer_figures_in, steps_of, own_figures, own_in};

use engine_held::history::History;
use engine_held::levels::Levels;
use engine_refusals::Refusal;
use hall::seat_readings::{Reading, StandingOffer};

// Opening, closing, excess, phase.
fn put_published(figures: &mut [u64], shown: Reading)
    requires { 4 ≤ length figures.old }
    ensures { figures.new ≡ laid (published_in shown) figures.old }
{
    let own = [
        u64::from(shown.opening),
        u64::from(shown.closing),
        reply_values::bits_of(shown.excess),
        u64::from(u8::from(shown.phase)),
    ];
    figures[..4].copy_from_slice(&own);
}

fn put_values(figures: &mut [u64], at: usize, values: [u32; 8], count: usize)
    requires { (count ≤ 8) × (at + count ≤ length figures.old) }
    ensures { figures.new ≡ laid_behind at (take count values) figures.old }
{
    for (i, value) in values[..count].iter().enumerate() {
        figures[at + i] = u64::from(*value);
    }
}

// The number of levels, and the levels.
fn put_levels(figures: &mut [u64], at: usize, values: [u32; 8], count: usize)
    requires { (count ≤ 8) × (at + 1 + count ≤ length figures.old) }
    ensures { figures.new ≡ laid_behind at (level_figures values count) figures.old }
{
    figures[at] = count as u64;
    put_values(figures, at + 1, values, count);
}

// Each step's price and level.
fn put_steps(figures: &mut [u64], at: usize, prices: [u32; 8], levels: [u32; 8], count: usize)
    requires { (count ≤ 8) × (at + 2 * count ≤ length figures.old) }
    ensures { figures.new ≡ laid_behind at (steps_in (take count prices) (take count levels)) figures.old }
{
    for i in 0..count {
        figures[at + 2 * i] = prices[i] as u64;
        figures[at + 2 * i + 1] = levels[i] as u64;
    }
}

// 0 no offer or 1, the number of steps, and the steps.
fn put_offer(figures: &mut [u64], at: usize, offer: Option<StandingOffer>, count: usize)
    requires { (count ≤ 8) × (at + 2 + 2 * count ≤ length figures.old) }
    ensures { figures.new ≡ laid_behind at (offer_figures_in offer count) figures.old }
{
    match offer {
        None => {
            figures[at] = 0;
            figures[at + 1] = 0;
        }
        Some(offer) => {
            figures[at] = 1;
            figures[at + 1] = count as u64;
            put_steps(figures, at + 2, offer.prices, offer.levels, count);
        }
    }
}

// How many steps are written of an offer; its numbers are two, and two a step.
fn step_count(offer: Option<StandingOffer>) -> usize
    ensures { (result ≡ steps_of offer) × (result ≤ 8) × (length (offer_figures_in offer result) ≡ 2 + 2 * result) }
{
    match offer {
        None => 0,
        Some(offer) => offer.count.min(History::MOST),
    }
}

// All that a developer reads: so many levels and steps.
fn put_own(figures: &mut [u64], shown: Reading, levels: usize, steps: usize)
    requires { (levels ≤ 8) × (steps ≤ 8) × (7 + levels + 2 * steps ≤ length figures.old) }
    ensures { figures.new ≡ laid (own_figures shown levels steps) figures.old }
{
    put_published(figures, shown);
    put_levels(figures, 4, shown.levels.values, levels);
    put_offer(figures, 5 + levels, shown.offer, steps);
}

// What the auctioneer and the auditor read, if it fits. Counts the numbers. Checks: 11.
pub fn published_alone(shown: Reading, figures: &mut [u64]) -> Result<u64, Refusal>
    ensures { Counts 4 (published_in shown) figures.old figures.new (counted_in result) }
{
    if figures.len() < 4 {
        return Err(Refusal::BufferTooShort);
    }
    put_published(figures, shown);
    Ok(4)
}

// What a developer reads, likewise.
pub fn of_developer(shown: Reading, figures: &mut [u64]) -> Result<u64, Refusal>
    ensures { Counts (length (own_in shown)) (own_in shown) figures.old figures.new (counted_in result) }
{
    let levels = shown.levels.count.min(Levels::MOST);
    let steps = step_count(shown.offer);
    let count = 7 + levels + 2 * steps;
    if figures.len() < count {
        return Err(Refusal::BufferTooShort);
    }
    put_own(figures, shown, levels, steps);
    Ok(count as u64)
}
