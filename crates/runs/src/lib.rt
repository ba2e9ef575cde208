// The messages found in a run of bytes, as definitions and laws: no code.
#![tactic(auto)]
