// What a customer is promised of the definitions beyond the statement about every list of calls: laws alone, which no proof needs, in specs/.
#![tactic(auto)]
