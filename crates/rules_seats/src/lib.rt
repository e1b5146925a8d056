// Seats in the auction hall, sessions, and the figures of a record and of a session. Specifications only: see specs/.
#![tactic(auto)]
