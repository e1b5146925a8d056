// The table of the levels open at a price, and its number of choices.
#![tactic(auto)]

pub mod counting;
pub mod open_levels;
pub mod reached_levels;
pub mod table;
