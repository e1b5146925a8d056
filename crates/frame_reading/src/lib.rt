// A line's call, and its arguments.
#![tactic(auto)]

pub mod arguments;
pub mod frames;
