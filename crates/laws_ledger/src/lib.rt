// What holds of the ledger of every list of calls, of its clearing and of its award. Specifications only: see specs/.
#![tactic(auto)]
