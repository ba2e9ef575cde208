// That a panel exists which keeps its contracts (`Keeps` of `history`), inside the logic: a right panel made of `creek`'s own definitions; and
// two lists with a call that does not fit the code's types, on which no panel does. The crate has no code.
#![tactic(auto)]
