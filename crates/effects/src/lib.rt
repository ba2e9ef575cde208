// What operations do to the 64 registers, as definitions and laws; there is no code here. `executing` has the code, and `registers` what is
// saved and rolled back.
#![tactic(auto)]
