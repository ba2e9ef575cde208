// The place of a request among tentative ones, and insertion at a place.
ghost use Rattle.std.specs.Prelude.{◌≡◌};
ghost use Rattle.ordering.specs.Insertion.{PlaceAsks, place_for, InsertionAsks, Inserted};

use super::order;

// The place of the request of that clock reading and slot among the places from..to of the order: behind those at the front that it
// does not come before. Looks at the last of them first, since most requests come behind it; then searches by halves: below `low` it
// comes before none, from `high` on before all.
//
// The clocks and the order are lent apart, by which the compiler knows that they do not overlap.
pub fn place<'a>(
    clocks: &'a [u32; 512],
    order: &'a [u16; 512],
    from: usize,
    to: usize,
    clock: u32,
    slot: u16,
) -> usize
    requires { PlaceAsks clocks.now order.now from to clock slot }
    ensures { result ≡ place_for clocks.now order.now from to clock slot }
{
    if from < to {
        let last = order[to - 1];
        if !order::comes_before(clocks, clock, slot, last) {
            return to;
        }
    }
    // Not the library's `partition_point`: it calls its test of any number, and `comes_before` may be called of a slot alone.
    let mut low = from;
    let mut high = to;
    while low < high {
        let middle = low + (high - low) / 2;
        let t = order[middle];
        if order::comes_before(clocks, clock, slot, t) {
            high = middle;
        } else {
            low = middle + 1;
        }
    }
    low
}

// Puts s at place `at` of the first n of xs; what stood there and behind it moves one place up.
pub fn insert_at(xs: &mut [u16; 512], n: usize, at: usize, s: u16)
    requires { InsertionAsks xs.old n at }
    ensures { Inserted xs.old n at s xs.new }
{
    xs.copy_within(at..n, at + 1);
    xs[at] = s;
}
