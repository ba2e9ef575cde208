// What a panel keeps of requests, by slot, as numbers in arrays that it lends.
//
// The crate is internal to the replica: a function may require that its slot is one of the table's and that the arrays are as long as the
// table. Each contract cites a definition of `specs/`; the laws for a caller are in `proofs/`. Sets of numbers are in `members`.
#![tactic(auto)]

pub mod requests;

pub use requests::{asked_at, context_at, put_request, request_at, same_at};
