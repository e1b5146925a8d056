// What each line asks, the replies to a record, and the calls that a record asks. Specifications only: see specs/.
#![tactic(auto)]
