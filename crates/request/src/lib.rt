// A request and its parts, no field of which is wider than its field in a bus message.
//
// Here are the types, and the request of zeros. What a request asks for is in
// `asks`, operations in `operations`, the refusal numbers in `refusal`; clock order is `Order` of `specs/`; numbers and sets of numbers are crates of
// their own.
// Each contract gives the result by the definition of the same name in `specs/`; their laws are in `proofs/`.
#![tactic(auto)]

pub mod asks;
pub mod operations;
pub mod refusal;

ghost use Rattle.std.specs.Prelude.{◌≡◌};
ghost use Rattle.request.specs.Request.{bare_request, no_request};

use numbers::{Clock, Number};
use sets::Context;

// An operation on register r; under a move, from register r to register q; under a claim of registers together, on r to q.
#[derive(Clone, Copy, PartialEq, Eq)]
pub struct Operation {
    pub code: u8,
    pub r: u8,
    pub q: u8,
    pub amount: u32,
}

// What a request asks for: the fields of an operation, and whether it is strong, in the order in which a bus message has them.
#[repr(C)]
#[derive(Clone, Copy, PartialEq, Eq)]
pub struct Asked {
    pub code: u8,
    pub r: u8,
    pub q: u8,
    pub strong: bool,
    pub amount: u32,
}

// A request; its fields stand so that there is no gap between them.
#[repr(C)]
#[derive(Clone, Copy, PartialEq, Eq)]
pub struct Request {
    pub context: Context,
    pub asked: Asked,
    pub clock: Clock,
    pub number: Number,
}

// The request of zeros, which stands where there is none.
pub fn none() -> Request
    ensures { result ≡ no_request }
{
    bare(numbers::none())
}

// A request of which only the number stands for something, and zeros elsewhere.
pub fn bare(n: Number) -> Request
    ensures { result ≡ bare_request n }
{
    Request {
        number: n,
        clock: Clock(0),
        asked: asks::none(),
        context: sets::empty(),
    }
}
