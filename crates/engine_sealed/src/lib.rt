// The sealed auction: checks, order, awards, answer.
#![tactic(auto)]

pub mod sealed_auction;
pub mod sealed_awards;
pub mod sealed_checks;
pub mod sealed_order;
