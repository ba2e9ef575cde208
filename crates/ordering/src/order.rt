// Clock order by slots.
ghost use Rattle.std.specs.Prelude.{◌≡◌};
ghost use Rattle.ordering.specs.Slots.{ComparisonAsks, comes_before};

// Whether the request of that clock reading and slot comes before the one in slot t in clock order.
pub(crate) fn comes_before(clocks: &[u32; 512], clock: u32, slot: u16, t: u16) -> bool
    requires { ComparisonAsks clocks.now t }
    ensures { result ≡ comes_before clocks.now clock slot t }
{
    (clock, slot) < (clocks[t as usize], t)
}
