// The supply curve as the engine keeps it, and what each developer stands at.
#![tactic(auto)]

pub mod curve_closing;
pub mod highs_and_lows;
pub mod kept_curve;
