// The closing price by halving, the price for new plants, and what a closed auction clears at.
#![tactic(auto)]

pub mod clearing;
pub mod price;
pub mod second_price;
