// Document 01, Frames: digits, lines, and the table of field widths by which a line is read; and the lines of a session; with their laws.
// Specifications only: see specs/.
#![tactic(auto)]
