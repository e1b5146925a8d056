// What the moves of developers decide, over the clock and what an auction holds of the developer: its next history, or a refusal
// (specs/moves/Entries.antt). A developer is `numbered` where its number, which the caller tests, is one of 1 to 32.
ghost use Rattle.std.specs.Prelude.{◌≡◌};
ghost use Rattle.rules_auction.specs.Ledger.{Offer, Lodge, Cancel};
ghost use Rattle.rules_auction.specs.Refusals.{prices_ok, lowering, check};
ghost use Rattle.engine_refusals.specs.Numbers.{number_in, after};
ghost use Rattle.engine_held.specs.levels.Held.{levels_in};
ghost use Rattle.engine_checks.specs.clock.Reading.{clock_in};
ghost use Rattle.engine_checks.specs.declared.clock.Clock.{Clock};
ghost use Rattle.engine_moves.specs.moves.Reading.{entry_in, MoveNumber};
ghost use Rattle.engine_moves.specs.moves.Entries as held;
ghost use Rattle.engine_moves.specs.moves.Entries.{entry_of, with_phase, with_settings, with_prices, with_history, with_declared, Held, Decides};

use engine_checks::clock::Clock;
use engine_checks::step_checks;
use engine_held::history::History;
use engine_held::levels::Levels;
use engine_held::supply;
use engine_refusals::Refusal;

// What the auction holds of a developer that its moves read.
#[derive(Clone, Copy)]
pub struct Entry<'a> {
    pub kind: u8,
    pub declared: &'a Levels,
    pub quantity: u32,
    pub history: &'a History,
}

// Of steps from below `opening` down to `closing`, and from the quantity down. Checks: 6, 7; all prices before any level.
fn check_steps(
    closing: u32,
    opening: u32,
    declared: &Levels,
    quantity: u32,
    prices: &[u32],
    levels: &[u32],
) -> Result<(), Refusal>
    ensures { number_in result ≡ check (prices_ok closing opening prices.now levels.now) 6
        (check (lowering (levels_in declared.now) quantity levels.now) 7 0) }
{
    if !step_checks::prices_ok(closing, opening, prices, levels) {
        return Err(Refusal::BadSteps);
    }
    if !declared.lowers(quantity, levels) {
        return Err(Refusal::BadLevel);
    }
    Ok(())
}

// ---- offers

// Checks: 2, 3, 8, 6, 7.
fn check_offer(
    clock: &Clock,
    numbered: bool,
    entry: Entry,
    prices: &[u32],
    levels: &[u32],
) -> Result<(), Refusal>
    ensures { (t : Clock) → MoveNumber numbered (clock_in (with_prices t clock.now)) (entry_in (entry_of entry.entry)) (Offer prices.now levels.now) (number_in result) }
{
    if !clock.phase.in_round() {
        return Err(Refusal::NotInThisPhase);
    }
    if !step_checks::is_of(numbered, entry.kind, supply::NEW) {
        return Err(Refusal::BadNumber);
    }
    if 1 <= entry.history.offered {
        return Err(Refusal::SecondOffer);
    }
    check_steps(
        clock.closing,
        clock.opening,
        entry.declared,
        entry.quantity,
        prices,
        levels,
    )
}

pub fn offered(
    clock: &Clock,
    numbered: bool,
    entry: Entry,
    prices: &[u32],
    levels: &[u32],
) -> Result<History, Refusal>
    ensures { (t : Clock) → Decides numbered (Offer prices.now levels.now) (Held (with_prices t clock.now) (entry_of entry.entry))
        (number_in result) (after entry.entry.history.now result) }
{
    check_offer(clock, numbered, entry, prices, levels)?;
    Ok(entry.history.offer(prices, levels))
}

// ---- cancellations (document 02, 7)

// Checks: 2, 3, 16.
fn check_cancellation(clock: &Clock, numbered: bool, entry: Entry) -> Result<(), Refusal>
    ensures { (t : Clock) (e : held.Entry) → MoveNumber numbered (clock_in (with_phase t clock.now)) (entry_in (with_history e (entry_of entry.entry))) Cancel (number_in result) }
{
    if !clock.phase.in_round() {
        return Err(Refusal::NotInThisPhase);
    }
    if !step_checks::is_of(numbered, entry.kind, supply::NEW) {
        return Err(Refusal::BadNumber);
    }
    if entry.history.offered < 1 {
        return Err(Refusal::NoStandingOffer);
    }
    Ok(())
}

pub fn cancelled(clock: &Clock, numbered: bool, entry: Entry) -> Result<History, Refusal>
    ensures { (t : Clock) (e : held.Entry) → Decides numbered Cancel (Held (with_phase t clock.now) (with_history e (entry_of entry.entry)))
        (number_in result) (after entry.entry.history.now result) }
{
    check_cancellation(clock, numbered, entry)?;
    Ok(entry.history.cancel())
}

// ---- lodged lists (document 02, 5)

// From the highest level that its developer declared down. Checks: 2, 15, 6, 7.
fn check_lodging(
    clock: &Clock,
    numbered: bool,
    entry: Entry,
    prices: &[u32],
    levels: &[u32],
) -> Result<(), Refusal>
    ensures { (t : Clock) (e : held.Entry) → MoveNumber numbered (clock_in (with_settings t clock.now)) (entry_in (with_declared e (entry_of entry.entry)))
        (Lodge prices.now levels.now) (number_in result) }
{
    if !clock.phase.is_ready() {
        return Err(Refusal::NotInThisPhase);
    }
    if !step_checks::is_of(numbered, entry.kind, supply::EXISTING) {
        return Err(Refusal::NoExistingPlant);
    }
    check_steps(
        clock.settings.ce / 2,
        clock.settings.a,
        entry.declared,
        entry.declared.highest(),
        prices,
        levels,
    )
}

pub fn lodged(
    clock: &Clock,
    numbered: bool,
    entry: Entry,
    prices: &[u32],
    levels: &[u32],
) -> Result<History, Refusal>
    ensures { (t : Clock) (e : held.Entry) → Decides numbered (Lodge prices.now levels.now) (Held (with_settings t clock.now) (with_declared e (entry_of entry.entry)))
        (number_in result) (after entry.entry.history.now result) }
{
    check_lodging(clock, numbered, entry, prices, levels)?;
    Ok(History::lodge(prices, levels))
}
