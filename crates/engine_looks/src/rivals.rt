// The game of two rivals over plain numbers (document 02, 11): what the first can force, and whether it withdraws first. Each contract is an equation
// with the game's value (crate `rules_forcing`, Game.antt) at what specs/rivals/Plain.antt says of these numbers.
ghost use Rattle.std.specs.Prelude.{◌≡◌, cond, min, ◌≤◌};
ghost use Rattle.engine_looks.specs.rivals.Plain.{Held, supply_at, outcome_in, high_in, low_in, withdraws_in};

// A rival: the price at which it left, 0 while it has not, and whether it may withdraw.
#[derive(Clone, Copy)]
pub struct Rival {
    pub left: u32,
    pub able: bool,
}

// Supply with the quantities of both rivals, of one alone, of neither; 0 stands for the other's.
#[derive(Clone, Copy)]
pub struct Supplies {
    pub both: u64,
    pub first: u64,
    pub second: u64,
    pub neither: u64,
}

// At most 10 listed prices (document 02, 11) with Dem at each, zeros behind them, and the standing price.
#[derive(Clone, Copy)]
pub struct Game {
    pub count: usize,
    pub prices: [u32; 10],
    pub demands: [u64; 10],
    pub standing: u32,
    pub supplies: Supplies,
}

// Supply at p: a withdrawal counts below its price only.
fn supply_at(supplies: Supplies, p: u32, first: Rival, second: Rival) -> u64
    ensures { result ≡ supply_at supplies p first second }
{
    if p < first.left {
        if p < second.left {
            return supplies.neither;
        }
        return supplies.second;
    }
    if p < second.left {
        return supplies.first;
    }
    supplies.both
}

// The lower of the two prices if the first is covered.
fn lower(covered: bool, p: u32, low: u32) -> u32
    ensures { result ≡ cond covered (min p low) low }
{
    if !covered {
        return low;
    }
    if p < low {
        return p;
    }
    low
}

// The lowest covered listed price, or the standing one.
fn outcome(game: Game, first: Rival, second: Rival) -> u32
    requires { Held game }
    ensures { result ≡ outcome_in game first second }
{
    let supplies = game.supplies;
    let mut low = game.standing;
    let mut i = game.count;
    while 0 < i {
        i -= 1;
        let p = game.prices[i];
        let demand = game.demands[i];
        let supply = supply_at(supplies, p, first, second);
        low = lower(demand <= supply, p, low);
    }
    low
}

// The first moves at the price of this place, and wants the outcome high.
#[cycle(first_moves_second_moves)]
pub fn first_moves(game: Game, at: usize, first: Rival, second: Rival) -> u32
    requires held { Held game }
    requires at_le_count { at ≤ game.count }
    ensures { result ≡ high_in game at first second }
{
    let count = game.count;
    if at == count {
        return outcome(game, first, second);
    }
    let kept = second_moves(game, at + 1, first, second);
    if !first.able {
        return kept;
    }
    let p = game.prices[at];
    let gone = Rival {
        left: p,
        able: false,
    };
    let withdrawn = second_moves(game, at + 1, gone, second);
    if kept < withdrawn {
        return withdrawn;
    }
    kept
}

// The second moves at the price of this place, and wants the outcome low.
#[cycle(first_moves_second_moves)]
pub fn second_moves(game: Game, at: usize, first: Rival, second: Rival) -> u32
    requires held { Held game }
    requires at_le_count { at ≤ game.count }
    ensures { result ≡ low_in game at first second }
{
    let count = game.count;
    if at == count {
        return outcome(game, first, second);
    }
    let kept = first_moves(game, at + 1, first, second);
    if !second.able {
        return kept;
    }
    let p = game.prices[at];
    let gone = Rival {
        left: p,
        able: false,
    };
    let withdrawn = first_moves(game, at + 1, first, gone);
    if withdrawn < kept {
        return withdrawn;
    }
    kept
}

// Whether the first withdraws at the first price: only where that is better for it, keeping is preferred when equal.
pub fn first_withdraws(game: Game, first: Rival, second: Rival) -> bool
    requires { Held game }
    ensures { result ≡ withdraws_in game first second }
{
    let count = game.count;
    if count < 1 {
        return false;
    }
    if !first.able {
        return false;
    }
    let p = game.prices[0];
    let gone = Rival {
        left: p,
        able: false,
    };
    let kept = second_moves(game, 1, first, second);
    let withdrawn = second_moves(game, 1, gone, second);
    kept < withdrawn
}
