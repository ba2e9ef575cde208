// From the calls' contracts to the claims about every list of calls, all due steps at once among them: demand 3 of the panel, two panels
// side by side, and the worthless panels that the contracts shut out. The crate has no code: definitions in `specs/`, theorems in
// `proofs/`.
#![tactic(auto)]
