// The protocol over lists of requests: what a caller hands to invoke and what every call answers are types here, shared by the
// definitions in `specs/` and by the code. The rest of the crate is definitions, and theorems about them in `proofs/`.
//
// Numbers in brackets there are lines of Algorithm 1, and A2 those of Algorithm 2, in T. Kobus, M. Kokociński, P. T. Wojciechowski, "Creek:
// Low-latency, Mixed-Consistency Transactional Replication Scheme", Institute of Computing Science, Poznań University of Technology.
#![tactic(auto)]

pub mod mark;

ghost use Rattle.std.specs.Prelude.{◌≡◌};
ghost use Rattle.creek.specs.Replies.{reply_answer};

pub use mark::Mark;
use numbers::{Clock, Number};
use request::{Asked, Request};

// What a caller asks for when a request is made, with the clock reading.
#[repr(C)]
#[derive(Clone, Copy)]
pub struct Invocation {
    pub asked: Asked,
    pub clock: Clock,
}

// What a step or a settlement says, and a reply that falls due, in eight bytes: its response, a request's number, the mark and the refusal,
// both as numbers, since the struct crosses to C and an enum does not.
#[repr(C)]
#[derive(Clone, Copy)]
pub struct Reply {
    pub response: u32,
    pub number: Number,
    pub mark: u8,
    pub refusal: u8,
}

// What a call answers: every field for every call, zeros where it has nothing to say. It crosses to C, as a reply does.
#[repr(C)]
#[derive(Clone, Copy)]
pub struct Answer {
    pub request: Request,
    pub response: u32,
    pub number: Number,
    pub refusal: u8,
    pub mark: u8,
}

// A reply as an answer, with no request.
impl From<Reply> for Answer {
    ghost from_gives = { λ r a. a ≡ reply_answer r };

    fn from(r: Reply) -> Answer {
        Answer {
            request: request::none(),
            response: r.response,
            number: r.number,
            refusal: r.refusal,
            mark: r.mark,
        }
    }
}
