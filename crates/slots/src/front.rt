// A slot put at the front of places that stand in clock order.
ghost use Rattle.slots.specs.Front.{FrontAsks, Fronted};

// Puts the slot, which stands at one of the places from..to, at the first of them, and moves those before it one place up: the place
// behind the one where it stood, which is its own place among them in clock order.
pub(crate) fn to_front<'a>(
    order: &mut [u16; 512],
    clocks: &'a [u32; 512],
    from: usize,
    to: usize,
    slot: u16,
) -> usize
    requires { FrontAsks order.old clocks.now from to slot }
    ensures { Fronted order.old from slot order.new result }
{
    let clock = clocks[slot as usize];
    let end = ordering::place(clocks, order, from, to, clock, slot);
    ordering::insert_at(order, end - 1, from, slot);
    end
}
