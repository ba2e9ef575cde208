// The reader: one message from a lent run of bytes and a place in it, by its head and then its fields. It judges layout only.
ghost use Rattle.std.specs.Prelude.{◌≡◌};
ghost use Rattle.wire.specs.Reader.{outcome_of, read_at};
ghost use Rattle.wire.specs.Head.{GoodHead, message_at};

use super::{Kind, Message, Reading, heads};
use fields::reading;
use request::refusal::Refusal;

// The message at a place with the bytes taken; none, where no byte is left; or a refusal, which takes nothing.
pub fn read(s: &[u8], at: usize) -> Result<Option<Reading>, Refusal>
    ensures { outcome_of result ≡ read_at s.now at }
{
    let Some(head) = heads::head_at(s, at)? else {
        return Ok(None);
    };
    let message = message_at(s, at, head.kind);
    Ok(Some(Reading {
        message,
        taken: head.taken,
    }))
}

// The message at a place with a good head of its kind.
fn message_at(s: &[u8], at: usize, kind: Kind) -> Message
    requires { GoodHead kind s.now at }
    ensures { result ≡ message_at kind s.now at }
{
    match kind {
        Kind::Weak => {
            let context = sets::empty();
            let request = reading::request_at(s, at, false, context);
            Message::Request(request)
        }
        Kind::Strong => {
            let context = reading::context_at(s, at);
            let request = reading::request_at(s, at, true, context);
            Message::Request(request)
        }
        Kind::Settlement => {
            let number = reading::number_at(s, at);
            Message::Settlement(number)
        }
    }
}
