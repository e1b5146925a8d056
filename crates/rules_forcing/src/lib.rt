// Who can force the price (document 02, 11): the game of two rivals, and what each can force in it. Specifications only: see specs/.
#![tactic(auto)]
