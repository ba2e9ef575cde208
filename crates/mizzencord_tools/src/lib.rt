// The calls on whole shifts, for tools beside a panel: the printout of a run of messages, and a list of calls run from fresh.
//
// No firmware needs them. They are a library of their own, so that a firmware's stays small and its inner functions have one caller
// more often. Each lent slice crosses as a pointer and a length. `docs/CALLS.md` has the encoding of a list of calls. The contracts are
// those of `sheet` and `driver`.
#![tactic(auto)]

ghost use Rattle.printed.specs.Printout.{Printed};
ghost use Rattle.driver.specs.Lists.{Answered};

use driver::ListResult;

// Puts the printout of the input at the front of `out` and returns its bytes; an `out` of under 438,473 bytes is left alone, and 0 is
// returned.
#[unsafe(no_mangle)]
pub extern "C" fn mizzencord_print(input: &[u8], out: &mut [u8]) -> usize
    ensures { Printed input.now out.old out.new result }
{
    sheet::print(out, input)
}

// Runs a list of calls from fresh and puts their answers at the front of `out`; without room for all answers none is run.
#[unsafe(no_mangle)]
pub extern "C" fn mizzencord_run(calls: &[u8], out: &mut [u8]) -> ListResult
    ensures { Answered calls.now out.old out.new result }
{
    driver::run_list(calls, out)
}
