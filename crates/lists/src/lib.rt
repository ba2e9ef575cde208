// Lists as definitions and laws over any element type; there is no code here.
#![tactic(auto)]
