// The supply curve of a ledger: definitions and laws, in specs/; no code.
#![tactic(auto)]
