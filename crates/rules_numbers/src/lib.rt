// Tests, the least number that passes one, lists and how their order changes: definitions and laws. Specifications only: see specs/.
#![tactic(auto)]
