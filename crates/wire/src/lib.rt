// Bus messages, document 01's kinds 1 to 3: what they are, and a reader of a lent run of bytes; the writer is the crate `writer`.
//
// Here are the types. The call is `reader::read`; `heads::head_at` judges a message before its fields are read, so that a caller reads those
// it wants by `fields`, straight from the bytes. `messages` tells a message's kind and size, `layout` has the numbers and sizes of the kinds.
// The contracts cite `read_at` and `head_of` of `specs/`, the writer's `write_answer` and `after_write`; what a good head gives is in
// `proofs/HeadLaws.antt`, that messages read back as written and write back as read in `proofs/RoundTrip.antt`.
#![tactic(auto)]

use numbers::Number;
use request::Request;

pub mod heads;
pub mod layout;
pub mod messages;
pub mod reader;

pub use heads::head_at;
pub use reader::read;

// The kinds of messages with document 01's numbers, as `kind_number` of `specs/` has them.
#[derive(Clone, Copy, PartialEq, Eq)]
pub enum Kind {
    Weak = 1,
    Strong = 2,
    Settlement = 3,
}

// A message: a request, weak or strong, or the settlement of the request with that number.
#[derive(Clone, Copy)]
pub enum Message {
    Request(Request),
    Settlement(Number),
}

// A head: the kind of the message and the bytes that it takes.
#[derive(Clone, Copy)]
pub struct Head {
    pub kind: Kind,
    pub taken: usize,
}

// A message that was read, and the bytes that it takes.
#[derive(Clone, Copy)]
pub struct Reading {
    pub message: Message,
    pub taken: usize,
}
