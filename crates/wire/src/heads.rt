// The head of a message: its length, its kind and its spare byte are judged, and no other field is read.
ghost use Rattle.std.specs.Prelude.{◌≡◌, ◌+◌, ◌≤◌, length as len};
ghost use Rattle.request.specs.Refusal.{outcome_number};
ghost use Rattle.wire.specs.Layout.{least_size};
ghost use Rattle.fields.specs.Widths.{head_size};
ghost use Rattle.wire.specs.Reader.{by_number, length_at, fields_at, spare_set, refusal_as, read_at};
ghost use Rattle.wire.specs.Head.{head_of};

use super::{Head, Kind};
use fields::{integers, places};
use request::refusal::Refusal;

// The head at a place: that of a message of a kind with the bytes it takes; none, where no byte is left; or a refusal, which takes nothing.
pub fn head_at(s: &[u8], at: usize) -> Result<Option<Head>, Refusal>
    ensures { by_number result ≡ head_of (read_at s.now at) }
{
    let len = s.len();
    if len <= at {
        return Ok(None);
    }
    if len - at < places::HEAD_SIZE {
        return Err(Refusal::CutShort);
    }
    let number = integers::integer_at(s, at + places::KIND_AT, places::KIND_WIDTH);
    let Some(kind) = Kind::with_number(number) else {
        return Err(Refusal::UnknownKind);
    };
    let length = integers::integer_at(s, at + places::LENGTH_AT, places::LENGTH_WIDTH) as usize;
    judge(s, at, kind, length)?;
    Ok(Some(Head {
        kind,
        taken: length,
    }))
}

// Judges a message of a kind with that length, whose length and kind are within the bytes.
fn judge(s: &[u8], at: usize, kind: Kind, length: usize) -> Result<(), Refusal>
    requires { (at + head_size ≤ len s.now) × (length ≡ length_at s.now at) }
    ensures { outcome_number result ≡ refusal_as kind s.now at }
{
    let least = kind.least_size();
    if length < least {
        return Err(Refusal::BadLength);
    }
    if kind.most_run() < length - least {
        return Err(Refusal::BadLength);
    }
    if s.len() - at < length {
        return Err(Refusal::CutShort);
    }
    if spare_set(s, at, kind) {
        return Err(Refusal::SpareSet);
    }
    Ok(())
}

// Whether the spare byte of a whole message of a kind is not 0; a kind that has none is clear.
fn spare_set(s: &[u8], at: usize, kind: Kind) -> bool
    requires { at + least_size kind ≤ len s.now }
    ensures { result ≡ spare_set kind (fields_at kind s.now at) }
{
    match kind {
        Kind::Weak | Kind::Strong => s[at + places::SPARE_AT] != 0,
        Kind::Settlement => false,
    }
}
