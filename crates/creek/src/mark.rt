// The marks of a reply, each with document 01's number.
ghost use Rattle.std.specs.Prelude.{◌≡◌};
ghost use Rattle.creek.specs.Replies.{mark_number};

// Whether anybody waits for a reply, and which kind of response it then has.
#[derive(Clone, Copy, PartialEq, Eq)]
pub enum Mark {
    Nobody = 0,
    Weak = 1,
    Tentative = 2,
    Stable = 3,
}

impl From<Mark> for u8 {
    ghost from_gives = { λ m n. n ≡ mark_number m };

    fn from(mark: Mark) -> u8 {
        mark as u8
    }
}
