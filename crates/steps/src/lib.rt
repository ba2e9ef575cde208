// The two steps: undo the first of the rollback list, execute the first of the to-do list. Each counts itself where it was done.
//
// Taking a request off the board, and executing one and putting it on, are in the crate `board`.
#![tactic(auto)]

ghost use Rattle.creek.specs.Book.{undo as undo_call, execute as execute_call};
ghost use Rattle.creek.specs.Replies.{reply_answer};
ghost use Rattle.replica.specs.Uses.{undoing_uses, stepping_uses};
ghost use Rattle.replica.specs.Memory.{Asks, Done};

use creek::{Mark, Reply};
use replica::Panel;
use request::refusal::{self, Refusal};

// Undo one step: the first of the rollback list leaves the board, and its registers take their former values.
pub fn undo(p: &mut Panel) -> Reply
    requires { Asks (undoing_uses p.old) }
    ensures { Done p.old undo_call (reply_answer result) p.new }
{
    if p.executed == p.stacked {
        return replica::told(Err(Refusal::NothingToUndo));
    }
    let top = p.stacked - 1;
    let slot = board::take_off(p, top);
    p.stacked = top;
    counters::count_undos(&mut p.counters, 1);
    Reply {
        response: 0,
        number: numbers::number_of(slot),
        mark: Mark::Nobody as u8,
        refusal: refusal::ACCEPTED,
    }
}

// Carry out one step: the first of the to-do list is executed and joins the executed list.
pub fn execute(p: &mut Panel) -> Reply
    requires { Asks (stepping_uses p.old) }
    ensures { Done p.old execute_call (reply_answer result) p.new }
{
    let at = p.executed;
    if at != p.stacked {
        return replica::told(Err(Refusal::UndoFirst));
    }
    if at == p.ordered {
        return replica::told(Err(Refusal::NothingToDo));
    }
    let done = board::execute_at(p, at);
    let more = at + 1;
    p.executed = more;
    p.stacked = more;
    counters::count_executions(&mut p.counters, 1);
    done
}
