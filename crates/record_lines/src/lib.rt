// A line's frame and its seat, what its call decides, and a record's first line.
#![tactic(auto)]

pub mod line_calls;
pub mod line_seats;
pub mod record_start;
