// The checks of the question who can force the price (document 02, 11), over what an auction holds and any 64-bit numbers: the pair, the listed prices,
// and whether the question is accepted. Each ensures the rule's test of the ledger that is held (specs/forcing_checks/Asking.antt).
ghost use Rattle.std.specs.Prelude.{◌≡◌};
ghost use Rattle.engine_refusals.specs.Numbers.{number_in};
ghost use Rattle.rules_numbers.specs.Numbered.{at_number};
ghost use Rattle.rules_auction.specs.Refusals.{is_of_kind};
ghost use Rattle.rules_forcing.specs.Forcing.{pair_ok, list_ok, forcing_refusal};
ghost use Rattle.engine_checks.specs.clock.Reading.{clock_in};
ghost use Rattle.engine_looks.specs.forcing_checks.Asking.{asked_in};

use engine_auction::Auction;
use engine_checks::clock::Clock;
use engine_checks::step_checks;
use engine_refusals::Refusal;

// The most prices that are listed.
pub const MOST_PRICES: usize = 10;

// Whether a number is that of a developer of kind 2.
#[tactic(auto, using(rules_numbers::specs::Numbered::number_place), unfolding(rules_auction::specs::Refusals::is_of_kind))]
fn is_new_plant(kinds: [u8; 32], developer: u64) -> bool
    ensures { result ≡ is_of_kind 2 developer (at_number kinds developer) }
{
    1 <= developer
        && developer <= Auction::MOST_DEVELOPERS as u64
        && kinds[developer as usize - 1] == Auction::NEW_PLANT
}

// Whether these are two different developers of kind 2 in different projects.
#[tactic(auto, using(rules_numbers::specs::Numbered::number_place, rules_auction::specs::CheckLaws::of_kind_facts), unfolding(rules_forcing::specs::Forcing::pair_ok))]
fn pair_ok(auction: &Auction, first: u64, second: u64) -> bool
    ensures { result ≡ pair_ok (asked_in auction.now) first second }
{
    is_new_plant(auction.kinds, first)
        && is_new_plant(auction.kinds, second)
        && first != second
        && auction.projects[first as usize - 1] != auction.projects[second as usize - 1]
}

// Whether there are 1 to 10 prices that fall strictly from below the standing price and are at least the floor.
#[tactic(auto, unfolding(rules_forcing::specs::Forcing::list_ok))]
fn prices_ok(clock: Clock, prices: &[u64]) -> bool
    ensures { result ≡ list_ok (clock_in clock) prices.now }
{
    !prices.is_empty()
        && prices.len() <= MOST_PRICES
        && step_checks::prices_fall(
            u64::from(clock.settings.ce / 2),
            u64::from(clock.closing),
            prices,
        )
}

// Whether the question is accepted. Checks: 2, 17.
pub fn check_forcing(
    auction: &Auction,
    first: u64,
    second: u64,
    prices: &[u64],
) -> Result<(), Refusal>
    ensures { number_in result ≡ forcing_refusal (asked_in auction.now) first second prices.now }
{
    if !auction.clock.phase.is_between() {
        return Err(Refusal::NotInThisPhase);
    }
    if !pair_ok(auction, first, second) {
        return Err(Refusal::NoSuchGame);
    }
    if !prices_ok(auction.clock, prices) {
        return Err(Refusal::NoSuchGame);
    }
    Ok(())
}
