// Lists of slots in clock order, kept in arrays of 512, each list by the array and a count: comparing, inserting, what two lists share.
//
// A slot stands for the request of one number (crate `request`, `numbers`); what is kept of a request by slot is the caller's, who
// lends the arrays. The crate is internal to the replica: a function may require that its places lie in the arrays and that what
// stands there are slots, as one record of `specs/` with named fields.
//
// `order` has clock order by slots, `insertion` the place of a request and insertion there, `common` the common start of two lists,
// `later` a set of numbers without the requests at some places. The laws for a caller are in `proofs/`.
#![tactic(auto)]

pub mod common;
pub mod insertion;
pub mod later;
pub mod order;

pub use common::common_start;
pub use insertion::{insert_at, place};
pub use later::take_out;
