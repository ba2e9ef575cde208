// Runs an encoded list of calls from fresh: bytes in, answers out in lent bytes. The encoding is in `docs/CALLS.md`.
//
// The panel is a local of `run_list`. The crate `entries` carries out one call and puts its answer; `Lists` of `specs/` says what a list of
// calls leads to.
#![tactic(auto)]

ghost use Rattle.std.specs.Prelude.{◌≡◌};
ghost use Rattle.text.specs.Written.{Room};
ghost use Rattle.replica.specs.Memory.{memory, SameSpare};
ghost use Rattle.replica.specs.internal.Model.{Inv, model};
ghost use Rattle.encoding.specs.Encoding.{call_count, entries_of, answers_bytes};
ghost use Rattle.encoding.specs.internal.Running.{RanAll};
ghost use Rattle.driver.specs.Lists.{Answered};

use encoding::calls;
use replica::Panel;
use request::refusal::{self, Refusal};

// What a list of calls led to: how many were run, and refusal 20 without room for the answers, else fresh's. A Result does not cross to C.
#[repr(C)]
#[derive(Clone, Copy)]
pub struct ListResult {
    pub ran: usize,
    pub refusal: u8,
}

// Runs a list of calls from fresh and puts their answers at the front of `out`; without room for all answers none is run, and no byte is
// changed.
pub fn run_list(calls: &[u8], out: &mut [u8]) -> ListResult
    ensures { Answered calls.now out.old out.new result }
{
    if encoding::tight(calls, out.len()) {
        return ListResult {
            ran: 0,
            refusal: u8::from(Refusal::NoRoom),
        };
    }
    let (panels, own) = encoding::shop_in(calls);
    let mut panel = Panel::zeros();
    let opened = panel.fresh(panels, own);
    let count = encoding::call_count(calls);
    run_all(&mut panel, calls, count, out);
    ListResult {
        ran: count,
        refusal: refusal::outcome_number(opened),
    }
}

// Runs the calls of `s`, which are so many, on the panel and puts their answers at the front of `out`.
fn run_all(p: &mut Panel, s: &[u8], count: usize, out: &mut [u8])
    requires inv { Inv (memory p.old) }
    requires count_value { count ≡ call_count s.now }
    requires room { Room out.old (answers_bytes (model (memory p.old)) (entries_of s.now)) }
    ensures { RanAll (memory p.old) s.now out.old out.new (memory p.new) × SameSpare p.old p.new }
{
    let mut behind = 0;
    for i in 0..count {
        let at = calls::CALLS_AT + calls::CALL_SIZE * i;
        behind += entries::carry_out(p, s, at, &mut out[behind..]);
    }
}
