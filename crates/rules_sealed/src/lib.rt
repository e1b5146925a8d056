// The sealed auction for long builds. Specifications only: see specs/.
#![tactic(auto)]
