// How a struct behind a reference lends its fields to a call, as laws over any struct and any call; there is no code here.
#![tactic(auto)]
