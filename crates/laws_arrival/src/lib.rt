// A cancelled offer is as if never made; developers' own calls in whichever order they arrive. Specifications only: see specs/.
#![tactic(auto)]
