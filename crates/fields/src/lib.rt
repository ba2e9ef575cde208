// The parts of a bus message as bytes: integers, numbers, the body of a request, contexts; which parts a message has is in `wire`.
//
// `places` has where each field stands, `reading` and `writing` the parts from bytes and into them, `integers` what they are made of. The
// crate is internal to `wire`: a function may require that what it reads or writes lies in the bytes lent.
#![tactic(auto)]

pub mod integers;
pub mod places;
pub mod reading;
pub mod writing;
