// The writer: a message at the front of a lent part. Each kind of message has its own function, by which the compiler takes the parts of
// each straight to where they are written.
#![tactic(auto)]

ghost use Rattle.std.specs.Prelude.{◌≡◌, ◌≤◌, ◌∷◌, [], length, drop};
ghost use Rattle.std.proofs.lemmas.List.Edits.{sets as put};
ghost use Rattle.wire.specs.Layout.{kind_number};
ghost use Rattle.fields.specs.Widths.{head_widths, head_fields, head_size, encode};
ghost use Rattle.wire.specs.declared.Message.TheVariants.{Request as request_message, Settlement as settlement};
ghost use Rattle.wire.specs.Message.{contents, widths_of, size_of, weak_with_context, Fits};
ghost use Rattle.wire.specs.Writer.{Wrote};

use fields::{integers, places, writing};
use numbers::Number;
use request::Request;
use request::refusal::Refusal;
use wire::{Kind, Message};

// Writes m at the front of out and returns how many bytes it has; where it is refused, nothing is written.
pub fn write(out: &mut [u8], m: Message) -> Result<usize, Refusal>
    ensures { Wrote m out.old out.new result }
{
    match m {
        Message::Request(r) => write_request(out, r),
        Message::Settlement(n) => write_settlement(out, n),
    }
}

// Writes the message that spreads r.
fn write_request(out: &mut [u8], r: Request) -> Result<usize, Refusal>
    ensures { Wrote (request_message r) out.old out.new result }
{
    if weak_with_context(r) {
        return Err(Refusal::BadContext);
    }
    let kind = Message::Request(r).kind();
    let size = kind.least_size();
    if out.len() < size {
        return Err(Refusal::NoRoom);
    }
    put_head(out, kind, size);
    put_request(out, r);
    Ok(size)
}

// Writes the message that settles n.
fn write_settlement(out: &mut [u8], n: Number) -> Result<usize, Refusal>
    ensures { Wrote (settlement n) out.old out.new result }
{
    let least = Kind::Settlement.least_size();
    if out.len() < least {
        return Err(Refusal::NoRoom);
    }
    put_head(out, Kind::Settlement, least);
    writing::put_number(out, n);
    Ok(least)
}

// Whether r is weak and has a context; its parts show that each fits its field.
fn weak_with_context(r: Request) -> bool
    ensures tells { result ≡ weak_with_context (request_message r) }
    ensures fits { Fits (request_message r) }
{
    !r.asked.strong && !sets::is_empty(r.context)
}

// Writes the length and the kind.
fn put_head(out: &mut [u8], kind: Kind, size: usize)
    requires { head_size ≤ length out.old }
    ensures { out.new ≡ put out.old 0 (encode head_widths (size ∷ kind_number kind ∷ [])) }
{
    let number = u64::from(u16::from(kind));
    integers::put_integer(out, places::LENGTH_AT, places::LENGTH_WIDTH, size as u64);
    integers::put_integer(out, places::KIND_AT, places::KIND_WIDTH, number);
}

// Writes what stands behind length and kind in the message that spreads r.
fn put_request(out: &mut [u8], r: Request)
    requires { size_of (request_message r) ≤ length out.old }
    ensures { out.new ≡ put out.old head_size (encode (drop head_fields (widths_of (request_message r))) (contents (request_message r))) }
{
    writing::put_number(out, r.number);
    writing::put_body(out, r);
    if r.asked.strong {
        writing::put_context(out, r.context);
    }
}
