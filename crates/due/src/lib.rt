// All due steps in one call: what is to be rolled back is undone, then what is to do is executed.
#![tactic(auto)]

ghost use Rattle.std.specs.Prelude.{◌≡◌, ◌-◌};
ghost use Rattle.replica.specs.Uses.{stepping_uses};
ghost use Rattle.replica.specs.Memory.{Asks};
ghost use Rattle.due.specs.Due.{no_reply, DueKept};
ghost use Rattle.due.specs.internal.Job.{RolledKept, ExecutedKept};

use creek::{Mark, Reply};
use numbers::Number;
use replica::Panel;
use request::refusal;

// What all due steps were: how many undos and executions, and the replies that fell due, of which there are `count`: no heap,
// and a Vec does not cross to C.
#[repr(C)]
#[derive(Clone, Copy)]
pub struct DueSteps {
    pub undos: u32,
    pub executions: u32,
    pub count: usize,
    pub replies: [Reply; 64],
}

// Every due step until the panel is idle, with the replies that fall due on the way.
pub fn run_due(p: &mut Panel) -> DueSteps
    requires { Asks (stepping_uses p.old) }
    ensures { DueKept p.old result p.new }
{
    let undos = roll_back_all(p);
    execute_all(p, undos)
}

// Undoes what is to be rolled back; how many undos these were.
fn roll_back_all(p: &mut Panel) -> u32
    requires asks { Asks (stepping_uses p.old) }
    ensures back { RolledKept p.old p.new }
    ensures undos { result ≡ p.old.stacked - p.old.executed }
{
    let executed = p.executed;
    let stacked = p.stacked;
    for left in (executed..stacked).rev() {
        board::take_off(p, left);
    }
    let undos = (stacked - executed) as u32;
    p.stacked = executed;
    counters::count_undos(&mut p.counters, undos);
    undos
}

// Executes what is to do, with nothing to be rolled back; `undos` is handed through.
fn execute_all(p: &mut Panel, undos: u32) -> DueSteps
    requires asks { Asks (stepping_uses p.old) }
    requires nothing_to_undo { p.old.executed ≡ p.old.stacked }
    ensures { ExecutedKept p.old undos result p.new }
{
    let first = p.executed;
    let ordered = p.ordered;
    let executions = (ordered - first) as u32;
    let mut replies = [no_reply(); 64];
    let mut count: usize = 0;
    for at in first..ordered {
        let next = board::execute_at(p, at);
        if next.mark == Mark::Nobody as u8 {
            continue;
        }
        replies[count] = next;
        count += 1;
    }
    p.executed = ordered;
    p.stacked = ordered;
    counters::count_executions(&mut p.counters, executions);
    DueSteps {
        undos,
        executions,
        count,
        replies,
    }
}

// The reply of zeros, which stands behind those that fell due. Its number is given by parts, by which the compiler fills the replies in
// place.
fn no_reply() -> Reply
    ensures { result ≡ no_reply }
{
    let none = numbers::none();
    let panel = none.panel;
    let event = none.event;
    Reply {
        response: 0,
        number: Number { panel, event },
        mark: Mark::Nobody as u8,
        refusal: refusal::ACCEPTED,
    }
}
