// Who can force the price (document 02, 11): the game of two developers from an auction between rounds, which stays as it is. The contract is an equation
// with the ledger, for every list of calls (specs/forcing/Forces.antt).
ghost use Rattle.std.specs.Prelude.{◌≡◌, ◌<◌};
ghost use Rattle.engine_looks.specs.forcing.Forces.{ForcesPrice, forced_in};
ghost use Rattle.engine_looks.specs.forcing.Playing.{Fitting, supplies_of, game_of, keeping};

use crate::rivals::{Game, Rival, Supplies};
use crate::{forcing_checks, rivals};
use engine_auction::Auction;
use engine_checks::clock::Settings;
use engine_held::supply;
use engine_refusals::Refusal;

// The outcome that the first can force and the second can hold it to, and whether the first's best move is to withdraw.
#[derive(Clone, Copy)]
pub struct Forcing {
    pub outcome: u32,
    pub withdraws: bool,
}

// Supply by these quantities; of a rival that has withdrawn, 0 stands at its place.
fn supplies_of(projects: [u8; 32], quantities: [u32; 32], first: usize, second: usize) -> Supplies
    requires { (first < 32) × (second < 32) }
    ensures { result ≡ supplies_of projects quantities first second }
{
    let mut without_first = quantities;
    without_first[first] = 0;
    let mut without_second = quantities;
    without_second[second] = 0;
    let mut without_both = without_first;
    without_both[second] = 0;
    Supplies {
        both: supply::supply(projects, quantities),
        first: supply::supply(projects, without_second),
        second: supply::supply(projects, without_first),
        neither: supply::supply(projects, without_both),
    }
}

// The game over the listed prices, with Dem at each.
fn game_of(settings: Settings, standing: u32, supplies: Supplies, prices: &[u64]) -> Game
    requires { Fitting prices.now }
    ensures { result ≡ game_of settings standing supplies prices.now }
{
    let mut game = Game {
        count: prices.len(),
        prices: [0; 10],
        demands: [0; 10],
        standing,
        supplies,
    };
    for (i, &price) in prices.iter().enumerate() {
        let p = price as u32;
        game.prices[i] = p;
        game.demands[i] = settings.demand_at(p);
    }
    game
}

// A rival before its first move: one at 0 can only keep.
fn rival(quantity: u32) -> Rival
    ensures { result ≡ keeping quantity }
{
    Rival {
        left: 0,
        able: 0 < quantity,
    }
}

// Checks: 2, 17.
pub fn who_can_force(
    auction: Auction,
    first: u64,
    second: u64,
    prices: &[u64],
) -> Result<Forcing, Refusal>
    ensures { ForcesPrice auction first second prices.now (forced_in result) }
{
    forcing_checks::check_forcing(&auction, first, second, prices)?;
    let settings = auction.clock.settings;
    let standing = auction.clock.closing;
    let quantities = auction.quantities;
    let i = (first - 1) as usize;
    let j = (second - 1) as usize;
    let supplies = supplies_of(auction.projects, quantities, i, j);
    let game = game_of(settings, standing, supplies, prices);
    let one = rival(quantities[i]);
    let other = rival(quantities[j]);
    Ok(Forcing {
        outcome: rivals::first_moves(game, 0, one, other),
        withdraws: rivals::first_withdraws(game, one, other),
    })
}
