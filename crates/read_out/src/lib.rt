// What a customer may conclude from the statement about every list of calls: laws alone, in specs/.
#![tactic(auto)]
