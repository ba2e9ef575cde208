// One call of a list, read and carried out on the panel, and its answer put at the front of lent bytes; each function returns how many
// bytes the answer has.
#![tactic(auto)]

ghost use Rattle.std.specs.Prelude.{◌≡◌, ◌+◌, ◌≤◌, ◌<◌, length, get_or};
ghost use Rattle.creek.specs.Book.{invoke};
ghost use Rattle.replica.specs.Memory.{memory};
ghost use Rattle.replica.specs.internal.Model.{Inv};
ghost use Rattle.encoding.specs.Encoding.{one, entry_at, message_at, message_call, request_in, invocation_of, answer_size};
ghost use Rattle.encoding.specs.internal.Running.{EntryPut, entry_changes, step_entry};

use encoding::{Step, calls};
use replica::Panel;

// The call at a place is carried out, and its answer is put.
pub fn carry_out(p: &mut Panel, s: &[u8], at: usize, out: &mut [u8]) -> usize
    requires inv { Inv (memory p.old) }
    requires at_in_bounds { at < length s.now }
    requires answer_size_in_bounds { answer_size ≤ length out.old }
    ensures { EntryPut (memory p.old) (entry_at s.now at) out.old (memory p.new) out.new result
        × (p.new ≡ entry_changes (entry_at s.now at) p.old p.new) }
{
    match Step::with_tag(s[at]) {
        Some(step) => take_step(p, step, out),
        None => bring(p, s, at, out),
    }
}

// The step, or all due steps.
fn take_step(p: &mut Panel, step: Step, out: &mut [u8]) -> usize
    requires inv { Inv (memory p.old) }
    requires answer_size_in_bounds { answer_size ≤ length out.old }
    ensures { EntryPut (memory p.old) (step_entry step) out.old (memory p.new) out.new result
        × (p.new ≡ entry_changes (step_entry step) p.old p.new) }
{
    match step {
        Step::Undo => encoding::put_reply(out, steps::undo(p)),
        Step::Execute => encoding::put_reply(out, steps::execute(p)),
        Step::AllDue => {
            let due = due::run_due(p);
            encoding::put_steps(out, due.undos + due.executions)
        }
    }
}

// The message behind the tag at a place is made, heard or settled, and the answer is put.
fn bring(p: &mut Panel, s: &[u8], at: usize, out: &mut [u8]) -> usize
    requires inv { Inv (memory p.old) }
    requires at_in_bounds { at < length s.now }
    requires answer_size_in_bounds { answer_size ≤ length out.old }
    ensures { EntryPut (memory p.old) (one (message_call (get_or s.now at 0) (message_at s.now (at + 1))))
        out.old (memory p.new) out.new result
        × (p.new ≡ entry_changes (one (message_call (get_or s.now at 0) (message_at s.now (at + 1)))) p.old p.new) }
{
    let message_at = at + 1;
    if s[at] == calls::INVOKE {
        return make(p, s, message_at, out);
    }
    let receipt = intake::receive(p, s, message_at);
    encoding::put_receipt(out, receipt)
}

// The request whose message stands at a place is made, and the answer is put.
fn make(p: &mut Panel, s: &[u8], at: usize, out: &mut [u8]) -> usize
    requires inv { Inv (memory p.old) }
    requires answer_size_in_bounds { answer_size ≤ length out.old }
    ensures { EntryPut (memory p.old) (one (invoke (invocation_of (request_in (message_at s.now at)))))
        out.old (memory p.new) out.new result
        × (p.new ≡ entry_changes (one (invoke (invocation_of (request_in (message_at s.now at))))) p.old p.new) }
{
    let asked = encoding::invocation_at(s, at);
    let made = invoking::invoke(p, asked);
    encoding::put_answer(out, invoking::made_answer(made))
}
