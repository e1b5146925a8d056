// The clock with its phases, the tests of the calls, and the figures of a closing.
#![tactic(auto)]

pub mod checks;
pub mod clock;
pub mod closing_checks;
pub mod closing_figures;
pub mod registrations;
pub mod step_checks;
