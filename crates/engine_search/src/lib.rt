// The search through the choices: counts against a limit, and the best one.
#![tactic(auto)]

pub mod ordering;
pub mod rows_behind;
pub mod searching;
pub mod selection;
pub mod tally;
