// Developers of the awarded levels, award records, participation and the price paid.
#![tactic(auto)]

pub mod award_records;
pub mod awarding;
mod by_number;
pub mod participation;
