// What a request asks for, as one thing: its operation, zeros, and the test behind refusal 3.
ghost use Rattle.std.specs.Prelude.{◌≡◌};
ghost use Rattle.request.specs.Asked.{operation_of, nothing_asked, bad_asked};

use super::{Asked, Operation, operations};

// The operation that is asked for.
pub fn operation(a: Asked) -> Operation
    ensures { result ≡ operation_of a }
{
    Operation {
        code: a.code,
        r: a.r,
        q: a.q,
        amount: a.amount,
    }
}

// Zeros, where nothing is asked for.
pub fn none() -> Asked
    ensures { result ≡ nothing_asked }
{
    Asked {
        code: 0,
        r: 0,
        q: 0,
        strong: false,
        amount: 0,
    }
}

// The test behind refusal 3.
pub fn bad(a: Asked) -> bool
    ensures { result ≡ bad_asked a }
{
    operations::bad(operation(a))
}
