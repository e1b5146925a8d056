// The price for new plants (document 02, 5): the closing price when the projects with an applied lodged step are taken out.
ghost use Rattle.std.specs.Prelude.{◌≡◌, cond};
ghost use Rattle.rules_auction.specs.Second.{lodged_applied};
ghost use Rattle.engine_price.specs.second_price.Taken.{plant_in, NoneTaken, Remain, SecondPrice};

use crate::price;
use engine_auction::Auction;

// The second price, and whether it is short: A is then not covered.
#[derive(Clone, Copy)]
pub struct Second {
    pub price: u32,
    pub short: bool,
}

// Whether a developer is taken out: an existing plant makes no offers, so its withdrawals are applied lodged steps.
#[tactic(auto, using(crate::proofs::second_price::Taking::taken_where), unfolding(rules_auction::specs::Second::lodged_applied))]
fn is_taken_out(kind: u8, withdrawals: usize) -> bool
    ensures { result ≡ lodged_applied (plant_in kind withdrawals) }
{
    kind == Auction::EXISTING_PLANT && withdrawals != 0
}

fn none_taken_out(auction: &Auction) -> bool
    ensures { NoneTaken auction.now.kinds auction.now.histories result }
{
    auction
        .kinds
        .iter()
        .zip(&auction.histories)
        .all(|(kind, history)| !is_taken_out(*kind, history.count))
}

// A developer's project, 0 where it is taken out.
fn left_of(project: u8, kind: u8, withdrawals: usize) -> u8
    ensures { result ≡ cond (lodged_applied (plant_in kind withdrawals)) 0 project }
{
    if is_taken_out(kind, withdrawals) {
        0
    } else {
        project
    }
}

// The developers' projects, 0 in the place of a developer that is taken out. An existing project has one developer.
fn remaining_projects(auction: &Auction) -> [u8; 32]
    ensures { Remain auction.now.projects auction.now.kinds auction.now.histories result }
{
    let mut out = auction.projects;
    for i in 0..32 {
        out[i] = left_of(
            auction.projects[i],
            auction.kinds[i],
            auction.histories[i].count,
        );
    }
    out
}

// The lowest covered price passed with these projects taken out; A, and short, where A is then not covered. It is the first price p where
// nobody is taken out.
pub fn second_price(auction: &Auction, highest: [u32; 32], p: u32) -> Second
    ensures { SecondPrice auction.now.clock.settings auction.now.clock.closing auction.now.projects auction.now.kinds
        auction.now.histories highest p result }
{
    if none_taken_out(auction) {
        return Second {
            price: p,
            short: false,
        };
    }
    let remaining = remaining_projects(auction);
    let covered = price::covered_by(auction, remaining, highest, auction.clock.settings.a);
    Second {
        price: price::price_by(auction, remaining, highest),
        short: !covered,
    }
}
