// The numbers of the kinds and the sizes of their messages, as `layout` of `specs/` has them.
ghost use Rattle.std.specs.Prelude.{◌≡◌};
ghost use Rattle.wire.specs.Layout.{kind_number, kind_with, layout, least_size};

use super::Kind;
use fields::places;

// The bytes of the shortest message, a settlement, and of the longest one, a strong request.
pub const LEAST_MESSAGE: usize = places::SETTLEMENT_SIZE;

pub const LONGEST_MESSAGE: usize = places::STRONG_SIZE;

// Document 01's number of a kind, for which a message has two bytes.
impl From<Kind> for u16 {
    ghost from_gives = { λ k n. n ≡ kind_number k };

    fn from(kind: Kind) -> u16 {
        kind as u16
    }
}

impl Kind {
    // The kind of that number, where there is one.
    pub fn with_number(number: u64) -> Option<Kind>
        ensures { result ≡ kind_with number }
    {
        match number {
            1 => Some(Kind::Weak),
            2 => Some(Kind::Strong),
            3 => Some(Kind::Settlement),
            _ => None,
        }
    }

    // The bytes of a message of this kind without a run.
    pub fn least_size(self) -> usize
        ensures { result ≡ least_size self }
    {
        match self {
            Kind::Weak => places::WEAK_SIZE,
            Kind::Strong => places::STRONG_SIZE,
            Kind::Settlement => places::SETTLEMENT_SIZE,
        }
    }

    // The most bytes of the run of this kind: none has one.
    pub fn most_run(self) -> usize
        ensures { result ≡ (layout self).most_run }
    {
        match self {
            Kind::Weak | Kind::Strong | Kind::Settlement => 0,
        }
    }
}
