// Operations: their codes, and what makes one bad.
ghost use Rattle.std.specs.Prelude.{◌≡◌};
ghost use Rattle.request.specs.Operations.{span, bad_operation};

use super::Operation;

// The codes are numbers: C and the bus bring any byte, a request with an unknown one is held, compared and printed as it is, and `exec` is
// defined at every code.
pub const READ: u8 = 1;

pub const SET: u8 = 2;

pub const ADD: u8 = 3;

pub const CLAIM: u8 = 4;

pub const MOVE: u8 = 5;

// A claim of registers r to q together.
pub const CLAIM_ALL: u8 = 6;

// The last code of document 01's table; document 02's recipes have none behind it.
pub const LAST_TABLE_CODE: u8 = MOVE;

// The last code there is.
pub const LAST_CODE: u8 = CLAIM_ALL;

// The last register.
pub const LAST_REGISTER: u8 = 63;

// The most registers that are claimed together.
pub const MOST_CLAIMED: usize = 4;

// How many registers r to q are: none where r is above q.
fn span(o: Operation) -> usize
    ensures { result ≡ span o }
{
    if o.q < o.r {
        return 0;
    }
    (o.q - o.r) as usize + 1
}

// Whether o is bad: by its registers, and then by its code, so that few tests are met on the way.
pub fn bad(o: Operation) -> bool
    ensures { result ≡ bad_operation o }
{
    let code = o.code;
    let r = o.r;
    let q = o.q;
    let amount = o.amount;
    if (LAST_REGISTER < r) | (LAST_REGISTER < q) {
        return true;
    }
    if code <= CLAIM {
        return !(READ <= code)
            | (q != 0)
            | ((code == READ) & (amount != 0))
            | ((code == CLAIM) & (amount == 0));
    }
    if code == MOVE {
        return r == q;
    }
    let registers = span(o);
    (code != CLAIM_ALL) | (q < r) | (MOST_CLAIMED < registers) | (amount == 0)
}
