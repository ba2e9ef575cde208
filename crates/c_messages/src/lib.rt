// Messages as C holds them: one read from bytes, and one written. An enum, an Option and a Result do not cross to C, so a struct stands for
// each: a flag or a number tells which it is. The contracts are those of `wire`.
#![tactic(auto)]

ghost use Rattle.std.specs.Prelude.{◌≡◌};
ghost use Rattle.wire.specs.Reader.{read_at};
ghost use Rattle.c_messages.specs.Messages.{message_for, shown_for, read_from, unread as unread_by, Wrote};

use request::{Request, refusal};

// A message as C holds it: the request, or the settlement of its number, for which the other fields stand for nothing.
#[repr(C)]
#[derive(Clone, Copy)]
pub struct Message {
    pub request: Request,
    pub settles: bool,
}

// What stands at a place: the message, the bytes taken and the refusal, zeros where there is none.
#[repr(C)]
#[derive(Clone, Copy)]
pub struct Reading {
    pub message: Message,
    pub taken: usize,
    pub refusal: u8,
}

// The bytes written, and the refusal, or 0.
#[repr(C)]
#[derive(Clone, Copy)]
pub struct Written {
    pub bytes: usize,
    pub refusal: u8,
}

// A message as C holds it.
impl From<wire::Message> for Message {
    ghost from_gives = { λ m shown. shown ≡ shown_for m };

    fn from(m: wire::Message) -> Message {
        match m {
            wire::Message::Request(request) => Message {
                request,
                settles: false,
            },
            wire::Message::Settlement(number) => Message {
                request: request::bare(number),
                settles: true,
            },
        }
    }
}

// The message that C holds.
impl From<Message> for wire::Message {
    ghost from_gives = { λ held m. m ≡ message_for held };

    fn from(held: Message) -> wire::Message {
        if held.settles {
            wire::Message::Settlement(held.request.number)
        } else {
            wire::Message::Request(held.request)
        }
    }
}

// Reads the message at a place of `bytes`; at the end nothing is taken and nothing refused.
pub fn read(bytes: &[u8], at: usize) -> Reading
    ensures { result ≡ read_from (read_at bytes.now at) }
{
    match wire::read(bytes, at) {
        Ok(Some(reading)) => Reading {
            message: Message::from(reading.message),
            taken: reading.taken,
            refusal: refusal::ACCEPTED,
        },
        Ok(None) => unread(refusal::ACCEPTED),
        Err(word) => unread(u8::from(word)),
    }
}

// Writes a message at the front of `out`: exactly its bytes, or nothing where it is refused.
pub fn write(message: Message, out: &mut [u8]) -> Written
    ensures { Wrote (message_for message) out.old out.new result }
{
    match writer::write(out, wire::Message::from(message)) {
        Ok(bytes) => Written {
            bytes,
            refusal: refusal::ACCEPTED,
        },
        Err(word) => Written {
            bytes: 0,
            refusal: u8::from(word),
        },
    }
}

// No message, by that refusal.
fn unread(refusal: u8) -> Reading
    ensures { result ≡ unread_by refusal }
{
    Reading {
        message: Message {
            request: request::none(),
            settles: false,
        },
        taken: 0,
        refusal,
    }
}
