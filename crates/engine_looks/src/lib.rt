// Looks that change nothing: a preview, the supply curve read, who can force the price.
#![tactic(auto)]

pub mod forcing;
pub mod forcing_checks;
pub mod readings;
pub mod rivals;
