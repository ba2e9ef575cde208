// A request taken off the board, and one executed and put on it: what the two steps and all due steps at once do there.
#![tactic(auto)]

ghost use Rattle.std.specs.Prelude.{◌≡◌, true};
ghost use Rattle.creek.specs.Replies.{mark_number, mark_of};
ghost use Rattle.board.specs.Board.{TopAsks, TakenOff, NextAsks, ExecutedAt};

use creek::{Mark, Reply};
use replica::Panel;
use request::{asks, refusal};

// Rolls back the request at the place `top` on the board, from what was saved there; its slot.
pub fn take_off(p: &mut Panel, top: usize) -> u16
    requires { TopAsks p.old.stack top }
    ensures { TakenOff p.old top p.new result }
{
    let slot = p.stack[top];
    let undone = asks::operation(store::asked_at(&p.askings, slot as usize));
    let saved = registers::saved_in(p.saved[top]);
    registers::rollback(&mut p.registers, undone, saved);
    slot
}

// Executes the request at place `at` of the order, and puts it on the board there; its reply. Put where it is called, since the loop of all
// due steps is where a panel spends its time.
#[inline(always)]
pub fn execute_at(p: &mut Panel, at: usize) -> Reply
    requires { NextAsks p.old.order at }
    ensures { ExecutedAt p.old at p.new result }
{
    let slot = p.order[at];
    let asked = store::asked_at(&p.askings, slot as usize);
    let operation = asks::operation(asked);
    let before = registers::save(&p.registers, operation);
    p.saved[at] = registers::saved_word(before);
    let response = executing::execute(&mut p.registers, operation);
    p.stack[at] = slot;
    p.responses[at] = response;
    let number = numbers::number_of(slot);
    if !members::member_at(&p.awaiting, slot) {
        return Reply {
            response,
            number,
            mark: Mark::Nobody as u8,
            refusal: refusal::ACCEPTED,
        };
    }
    let mark = u8::from(mark_of(asked.strong, at < p.committed));
    replica::end_waiting(&mut p.awaiting, number, mark);
    Reply {
        response,
        number,
        mark,
        refusal: refusal::ACCEPTED,
    }
}

// The mark of an execution's reply that somebody awaits.
fn mark_of(strong: bool, committed: bool) -> Mark
    ensures { mark_number result ≡ mark_of true strong committed }
{
    if strong {
        if committed {
            return Mark::Stable;
        }
        return Mark::Tentative;
    }
    Mark::Weak
}
