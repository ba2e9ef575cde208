// Lists of calls and their answers as bytes. The encoding is in `docs/CALLS.md`.
//
// `calls` has the places of the calls and reads their parts, `answers` puts one answer; `Encoding` of `specs/` has the encoding and what the
// entries of a list lead to.
#![tactic(auto)]

pub mod answers;
pub mod calls;

pub use answers::{put_answer, put_receipt, put_reply, put_steps, tight};
pub use calls::{Step, call_count, invocation_at, shop_in};
