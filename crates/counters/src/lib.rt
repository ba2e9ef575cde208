// The step counters: one small record of the panel's own, which the counting of steps is lent and updates there.
//
// `count_undos` and `count_executions` are lent the counters and told how many steps were done. A panel's counters stay within `most_steps`
// of `specs/`, so that theirs are the sums; other counters may pass what 32 bits hold, and go on from 0.
#![tactic(auto)]

ghost use Rattle.std.specs.Prelude.{◌≡◌, ◌+◌, ◌≤◌};
ghost use Rattle.counters.specs.Counted.{most_steps, undos_counted, undos_held, executions_counted, executions_held};

// Undos done and executions (carry-outs) done.
#[repr(C)]
#[derive(Clone, Copy)]
pub struct Counters {
    pub undos: u32,
    pub executions: u32,
}

// Counts so many undos in the lent counters.
pub fn count_undos(c: &mut Counters, steps: u32)
    ensures held { c.new ≡ undos_held c.old steps }
    ensures counted { c.old.undos + steps ≤ most_steps → c.new ≡ undos_counted c.old steps }
{
    c.undos = c.undos.wrapping_add(steps);
}

// Counts so many executions in the lent counters.
pub fn count_executions(c: &mut Counters, steps: u32)
    ensures held { c.new ≡ executions_held c.old steps }
    ensures counted { c.old.executions + steps ≤ most_steps → c.new ≡ executions_counted c.old steps }
{
    c.executions = c.executions.wrapping_add(steps);
}
