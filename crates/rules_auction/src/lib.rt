// The rules of document 01: calls, ledger, clearing and award. Specifications only: see specs/.
#![tactic(auto)]
