// Lists of slots kept in arrays of 512, each list by the array and a count: the loops of the replica.
//
// `settlement` has the order after a settlement, `front` a slot that goes to the front. The laws for a caller are in `proofs/`.
#![tactic(auto)]

pub use settlement::settle_moving;

pub mod front;
pub mod settlement;
