// The message at a place of a run of bytes received by a panel: its head is judged, and then its fields go from the bytes to the panel.
//
// `Intake` of `specs/` says what a message stands for and what receiving promises.
#![tactic(auto)]

ghost use Rattle.std.specs.Prelude.{◌≡◌};
ghost use Rattle.request.specs.Refusal.{outcome_number};
ghost use Rattle.creek.specs.Replies.{reply_answer};
ghost use Rattle.replica.specs.Memory.{Asks, Done};
ghost use Rattle.wire.specs.Reader.{read_at};
ghost use Rattle.wire.specs.Head.{GoodHead, message_at};
ghost use Rattle.intake.specs.Intake.{call_of, nothing, receiving_uses, ReceiveKept};

use creek::Reply;
use fields::reading;
use numbers::Number;
use replica::Panel;
use request::refusal::Refusal;
use wire::Kind;

// What the message at a place led to: the answer, which has no request; which message it was; and its bytes. Number, kind and bytes are 0
// where none could be read; an Option does not cross to C.
#[repr(C)]
#[derive(Clone, Copy)]
pub struct Receipt {
    pub reply: Reply,
    pub number: Number,
    pub kind: u16,
    pub taken: u32,
}

// The message at a place is heard or settled; what cannot be read leaves the panel alone.
pub fn receive(p: &mut Panel, bytes: &[u8], at: usize) -> Receipt
    requires { Asks (receiving_uses p.old) }
    ensures { ReceiveKept p.old (read_at bytes.now at) result p.new }
{
    match wire::head_at(bytes, at) {
        Ok(Some(head)) => {
            let number = reading::number_at(bytes, at);
            let reply = take_at(p, bytes, at, head.kind);
            Receipt {
                reply,
                number,
                kind: u16::from(head.kind),
                taken: head.taken as u32,
            }
        }
        Ok(None) => untaken(Ok(())),
        Err(w) => untaken(Err(w)),
    }
}

// The message of that kind, whose head stands at a place, is heard or settled.
fn take_at(p: &mut Panel, bytes: &[u8], at: usize, kind: Kind) -> Reply
    requires good_head { GoodHead kind bytes.now at }
    requires inv { Asks (receiving_uses p.old) }
    ensures { Done p.old (call_of (message_at kind bytes.now at)) (reply_answer result) p.new }
{
    match kind {
        Kind::Weak => replica::told(hearing::hear_at(p, bytes, at, false)),
        Kind::Strong => replica::told(hearing::hear_at(p, bytes, at, true)),
        Kind::Settlement => committing::commit(p, reading::number_at(bytes, at)),
    }
}

// Nothing was taken in, by that outcome.
fn untaken(outcome: Result<(), Refusal>) -> Receipt
    ensures { result ≡ nothing (outcome_number outcome) }
{
    Receipt {
        reply: replica::told(outcome),
        number: numbers::none(),
        kind: 0,
        taken: 0,
    }
}
