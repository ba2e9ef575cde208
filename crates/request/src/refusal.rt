// The refusals of document 01 by its words, each with its number, and the number of a call's outcome.
ghost use Rattle.std.specs.Prelude.{◌≡◌};
ghost use Rattle.request.specs.Refusal.{number_of, outcome_number};

// Why a call is refused. 5, clock back, is never met any more since document 02's request (b).
#[derive(Clone, Copy, PartialEq, Eq)]
pub enum Refusal {
    BadShop = 1,
    BadNumber = 2,
    BadOperation = 3,
    OwnEcho = 4,
    ShiftFull = 6,
    HeldAlready = 7,
    NumberClash = 8,
    NotHere = 9,
    Weak = 10,
    SettledAlready = 11,
    Waits = 12,
    NothingToUndo = 13,
    UndoFirst = 14,
    NothingToDo = 15,
    CutShort = 16,
    BadLength = 17,
    UnknownKind = 18,
    SpareSet = 19,
    NoRoom = 20,
    BadContext = 21,
}

// The number of a call that is accepted.
pub const ACCEPTED: u8 = 0;

impl From<Refusal> for u8 {
    ghost from_gives = { λ w n. n ≡ number_of w };

    fn from(w: Refusal) -> u8 {
        w as u8
    }
}

// The number of an outcome: that of its refusal, or 0 where it is accepted.
pub fn outcome_number(outcome: Result<(), Refusal>) -> u8
    ensures { result ≡ outcome_number outcome }
{
    match outcome {
        Ok(()) => ACCEPTED,
        Err(w) => u8::from(w),
    }
}
