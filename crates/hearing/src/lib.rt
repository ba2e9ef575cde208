// A request heard from the bytes of its message: its fields go from there to the panel.
#![tactic(auto)]

ghost use Rattle.std.specs.Prelude.{◌≡◌, ◌+◌, ◌≤◌, length};
ghost use Rattle.fields.specs.Widths.{weak_widths, size, decode};
ghost use Rattle.fields.specs.Contents.{request_from};
ghost use Rattle.creek.specs.Book.{deliver as deliver_call};
ghost use Rattle.replica.specs.Uses.{hearing_uses};
ghost use Rattle.replica.specs.Memory.{Asks, Done};
ghost use Rattle.delivering.specs.Delivering.{heard_answer};
ghost use Rattle.hearing.specs.Bytes.{context_size, context_in};

use fields::reading;
use replica::Panel;
use request::refusal::Refusal;
use sets::Context;

// The request of that strength at a place is heard, with its context where it is strong.
pub fn hear_at(p: &mut Panel, bytes: &[u8], at: usize, strong: bool) -> Result<(), Refusal>
    requires strong_in_bounds { at + size weak_widths + context_size strong ≤ length bytes.now }
    requires inv { Asks (hearing_uses p.old) }
    ensures { Done p.old (deliver_call (request_from (decode weak_widths bytes.now at) strong (context_in strong bytes.now at)))
        (heard_answer result) p.new }
{
    let context = context_at(bytes, at, strong);
    let x = reading::request_at(bytes, at, strong, context);
    delivering::deliver(p, &x)
}

// The context of a request of that strength at a place.
fn context_at(bytes: &[u8], at: usize, strong: bool) -> Context
    requires { at + size weak_widths + context_size strong ≤ length bytes.now }
    ensures { result ≡ context_in strong bytes.now at }
{
    if strong {
        return reading::context_at(bytes, at);
    }
    sets::empty()
}
