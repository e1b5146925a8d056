// Insufficient participation (document 02, 10; document 002, article 8): whether too little of the new award goes to small agents, and the price
// that existing plants are paid. Arrays are by number: developer or project n at place n - 1.
ghost use Rattle.std.specs.Prelude.{◌≡◌, cond, not, ◌&&◌, ◌*◌, ◌≤◌, ◌^◌, eqb};
ghost use Rattle.rules_auction.specs.Ledger.{start};
ghost use Rattle.rules_auction.specs.Participation.{is_small, is_new, is_to_small, sufficient};
ghost use Rattle.engine_held.specs.supply.Reading.{with_kinds};
ghost use Rattle.engine_award.specs.participation.Judged.{plants_in, judged_in, existing_levels, grant_of, grants_in, Pays};

use crate::by_number::of_number;
use engine_auction::Auction;

// Whether twice the new award given to small agents is below the whole new award. Where nothing new is awarded no agent is judged.
pub fn insufficient(
    auction: &Auction,
    highest: [u32; 32],
    award: [u32; 32],
    winners: [u8; 32],
) -> bool
    ensures { result ≡ not (sufficient
        (judged_in auction.now.clock.settings.d auction.now.agents auction.now.kinds highest) (grants_in award winners)) }
{
    let mut new_award: u64 = 0;
    let mut to_small: u64 = 0;
    for i in 0..32 {
        let winner = winners[i];
        let level = new_level(auction, winner, award[i]);
        if 0 < level {
            let small = small_level(auction, highest, winner, level);
            new_award += u64::from(level);
            to_small += u64::from(small);
        }
    }
    2 * to_small < new_award
}

// What a level counts for in the new award.
#[tactic(auto, unfolding(rules_numbers::specs::Numbered::at_number))]
fn new_level(auction: &Auction, winner: u8, level: u32) -> u32
    ensures { result ≡ cond (is_new (with_kinds start auction.now.kinds) (grant_of winner level)) level 0 }
{
    if of_number(&auction.kinds, winner, 0) == Auction::NEW_PLANT {
        level
    } else {
        0
    }
}

// What a level counts for in the award given to small agents.
#[tactic(auto, unfolding(rules_numbers::specs::Numbered::at_number))]
fn small_level(auction: &Auction, highest: [u32; 32], winner: u8, level: u32) -> u32
    ensures { result ≡ cond (is_to_small
        (judged_in auction.now.clock.settings.d auction.now.agents auction.now.kinds highest) (grant_of winner level)) level 0 }
{
    let agent = of_number(&auction.agents, winner, 0);
    if is_small(auction, highest, agent) {
        level
    } else {
        0
    }
}

// Whether 100 times the sum of the highest levels of the agent's existing plants is below 15 times D: by a quotient, as 15 times an absurd D would
// not fit.
fn is_small(auction: &Auction, highest: [u32; 32], agent: u8) -> bool
    ensures { result ≡ is_small (judged_in auction.now.clock.settings.d auction.now.agents auction.now.kinds highest) agent }
{
    100 * existing_levels(auction, highest, agent) / 15 < auction.clock.settings.d
}

// The sum of the highest levels of the agent's existing plants.
fn existing_levels(auction: &Auction, highest: [u32; 32], agent: u8) -> u64
    ensures { (result ≡ existing_levels (plants_in auction.now.agents auction.now.kinds highest) agent) × (result ≤ 32 * 2 ^ 32) }
{
    let mut sum: u64 = 0;
    for i in 0..32 {
        sum += u64::from(existing_level(auction.agents[i], auction.kinds[i], highest[i], agent));
    }
    sum
}

// What the highest level of a developer that names its agent counts for among the existing plants of `agent`.
fn existing_level(named: u8, kind: u8, highest: u32, agent: u8) -> u32
    ensures { result ≡ cond (eqb named agent && eqb kind 1) highest 0 }
{
    if named == agent && kind == Auction::EXISTING_PLANT {
        highest
    } else {
        0
    }
}

// The price paid to existing plants, whose closing price is p: if participation is insufficient, the lower of it and CE x 11 / 10 rounded down.
#[tactic(auto, using(crate::proofs::participation::Tests::pays))]
pub fn price_paid(insufficient: bool, ce: u32, p: u32) -> u32
    ensures { Pays insufficient ce p result }
{
    if insufficient {
        let most = u64::from(ce) * 11 / 10;
        most.min(u64::from(p)) as u32
    } else {
        p
    }
}
