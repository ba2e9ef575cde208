// A panel as a component: its whole memory in one struct, which the caller owns, and the calls on it for C and every language that calls C.
//
// A call is lent the panel and hands the replica in it to the function of `replica`, `invoking`, `delivering`, `committing`, `intake`,
// `steps`, `due` or `status`, which does the work in place: nothing is copied. `include/mizzencord.h` declares all calls, and
// `docs/CALLS.md` says what they answer. Here are the calls that change a panel; those that show one are in `showing`, those on bytes alone
// in `bytes`.
#![tactic(auto)]

pub mod bytes;
pub mod showing;

ghost use Rattle.std.specs.Prelude.{◌≡◌};
ghost use Rattle.creek.specs.Book.{undo as undo_call, execute as execute_call, deliver as deliver_call, invoke as invoke_call, commit as commit_call};
ghost use Rattle.replica.specs.Promises.{Fresh, Kept};
ghost use Rattle.replica.specs.Memory.{no_spare};
ghost use Rattle.replica.specs.internal.Model.{Inv};
ghost use Rattle.due.specs.Due.{RunDue, ran};
ghost use Rattle.wire.specs.Reader.{read_at};
ghost use Rattle.intake.specs.Intake.{Received};
ghost use Rattle.mizzencord.specs.Memory.{memory, spare, SameSpare};
ghost use Rattle.mizzencord.specs.Version.{version};

use creek::{Answer, Invocation};
use due::DueSteps;
use intake::Receipt;
use numbers::{Number, PanelNo};
use request::{Request, refusal};

// A panel's memory. Only the calls make and change one: its field is private.
#[repr(C)]
#[derive(Drop)]
pub struct Panel {
    replica: replica::Panel,
}

// Makes the lent panel one of a shift's first moment; a refused one is a one-panel shop, panel 0. The answer is the refusal by its number,
// since a Result does not cross to C.
#[unsafe(no_mangle)]
pub extern "C" fn mizzencord_fresh(p: &mut Panel, panels: u8, own: PanelNo) -> u8
    ensures { Fresh panels own.0 (record { refusal = result; state = memory p.new })
        × (spare p.new ≡ no_spare) }
{
    refusal::outcome_number(p.replica.fresh(panels, own))
}

// A request is made at this panel.
#[unsafe(no_mangle)]
pub extern "C" fn mizzencord_invoke(p: &mut Panel, i: Invocation) -> Answer
    requires { Inv (memory p.old) }
    ensures { Kept (memory p.old) (invoke_call i) (record { answer = result; state = memory p.new })
        × SameSpare p.old p.new }
{
    invoking::made_answer(invoking::invoke(&mut p.replica, i))
}

// A request of another panel is heard.
#[unsafe(no_mangle)]
pub extern "C" fn mizzencord_deliver(p: &mut Panel, x: Request) -> Answer
    requires { Inv (memory p.old) }
    ensures { Kept (memory p.old) (deliver_call x) (record { answer = result; state = memory p.new })
        × SameSpare p.old p.new }
{
    let heard = delivering::deliver(&mut p.replica, &x);
    Answer::from(replica::told(heard))
}

// Settle the request of number n.
#[unsafe(no_mangle)]
pub extern "C" fn mizzencord_commit(p: &mut Panel, n: Number) -> Answer
    requires { Inv (memory p.old) }
    ensures { Kept (memory p.old) (commit_call n) (record { answer = result; state = memory p.new })
        × SameSpare p.old p.new }
{
    Answer::from(committing::commit(&mut p.replica, n))
}

// The message at a place of the bytes is read, and heard or settled; what cannot be read leaves the panel alone.
#[unsafe(no_mangle)]
pub extern "C" fn mizzencord_receive(p: &mut Panel, bytes: &[u8], at: usize) -> Receipt
    requires { Inv (memory p.old) }
    ensures { Received (memory p.old) (read_at bytes.now at) result (memory p.new)
        × SameSpare p.old p.new }
{
    intake::receive(&mut p.replica, bytes, at)
}

// Undo one step.
#[unsafe(no_mangle)]
pub extern "C" fn mizzencord_undo(p: &mut Panel) -> Answer
    requires { Inv (memory p.old) }
    ensures { Kept (memory p.old) undo_call (record { answer = result; state = memory p.new })
        × SameSpare p.old p.new }
{
    Answer::from(steps::undo(&mut p.replica))
}

// Carry out one step.
#[unsafe(no_mangle)]
pub extern "C" fn mizzencord_execute(p: &mut Panel) -> Answer
    requires { Inv (memory p.old) }
    ensures { Kept (memory p.old) execute_call (record { answer = result; state = memory p.new })
        × SameSpare p.old p.new }
{
    Answer::from(steps::execute(&mut p.replica))
}

// Every due step until the panel is idle, with the replies that fall due on the way.
#[unsafe(no_mangle)]
pub extern "C" fn mizzencord_run_due(p: &mut Panel) -> DueSteps
    requires { Inv (memory p.old) }
    ensures { RunDue (memory p.old) (ran result (memory p.new))
        × SameSpare p.old p.new }
{
    due::run_due(&mut p.replica)
}

// MIZZENCORD_VERSION of the header.
const VERSION: u32 = 1;

// The revision of the header that the library was built for.
#[unsafe(no_mangle)]
pub extern "C" fn mizzencord_version() -> u32
    ensures { result ≡ version }
{
    VERSION
}
