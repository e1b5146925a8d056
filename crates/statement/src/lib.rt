// What is stated of every list of calls, up to C, and that the contracts say it. Specifications only: see specs/.
#![tactic(auto)]
