// Choices of one level from each row, the best one, and numbers put into an order: definitions and laws. Specifications only: see specs/.
#![tactic(auto)]
