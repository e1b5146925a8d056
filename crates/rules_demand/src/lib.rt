// Numeral 3.8: the demand curve, Dem and its remainder, with their laws. Specifications only: see specs/.
#![tactic(auto)]
