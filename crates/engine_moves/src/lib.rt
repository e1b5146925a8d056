// Developers' own moves, each decided over one entry, and entries through a closing.
#![tactic(auto)]

pub mod closing_entries;
pub mod moves;
