// The printout of document 01 as a definition of the input's bytes, with the worked example; there is no code here.
#![tactic(auto)]
