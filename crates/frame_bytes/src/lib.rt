// The table of field widths, digits and fields read and written, lines.
#![tactic(auto)]

pub mod field_reading;
pub mod field_table;
pub mod field_writing;
pub mod lines;
