// The standing order after a settlement: of the tentative slots those named in a context, then the settled request's own, then those
// that stay tentative.
ghost use Rattle.std.specs.Prelude.{◌≡◌};
ghost use Rattle.std.proofs.Math.Seq.{paste};
ghost use Rattle.slots.specs.Settlement.{SomeCounted, CountedEnd, SeparationAsks, Separated, PutAsks};
ghost use Rattle.slots.specs.Settlement.{SettlementAsks, Settled, MovesAsk};

use super::front;

// What a settlement made of an order: how many are committed then, and the place behind the last slot that it moved.
#[derive(Clone, Copy)]
pub struct SettledOrder {
    pub committed: usize,
    pub end: usize,
}

// The place behind the last that a settlement of that slot with that context moves, where `moving` of the places from `from` on move: goes
// up from there until all of them are met.
fn counted_end<'a>(
    order: &'a [u16; 512],
    from: usize,
    moving: usize,
    words: &'a [u64; 8],
    slot: u16,
) -> usize
    requires { SomeCounted order.now from moving words.now slot }
    ensures { CountedEnd order.now from moving words.now slot result }
{
    // A while, since what ends it is that none is left to meet, and not a place.
    let mut end = from;
    let mut left = moving;
    while 0 < left {
        let t = order[end];
        let named = members::has_slot(words, t);
        let moves = named | (slot == t);
        left -= moves as usize;
        end += 1;
    }
    end
}

// Of the places from..to of the order, those named are moved to the front of these places, and those that stay are put at the front of
// the other array, both in their order; the place where those named end. The arrays are lent apart, by which the compiler knows that they do
// not overlap. A slot is stored on both sides, and counted where it belongs.
fn separate(
    order: &mut [u16; 512],
    staying: &mut [u16; 512],
    from: usize,
    to: usize,
    words: &[u64; 8],
    slot: u16,
) -> usize
    requires { SeparationAsks order.old from to staying.old }
    ensures { Separated order.old from to words.now slot order.new staying.new result }
{
    let mut own = from;
    let mut count = 0;
    for i in from..to {
        let t = order[i];
        let named = members::has_slot(words, t);
        let stays = !(named | (slot == t));
        order[own] = t;
        staying[count] = t;
        own += named as usize;
        count += stays as usize;
    }
    own
}

// Puts the first n of ys at the places of xs from `at` on.
fn put_first(xs: &mut [u16; 512], at: usize, ys: &[u16; 512], n: usize)
    requires { PutAsks xs.old at ys.now n }
    ensures { xs.new ≡ paste xs.old at ys.now n }
{
    xs[at..at + n].copy_from_slice(&ys[..n]);
}

// Puts the places from..end of the order into the order of a settlement of that slot with that context.
fn settle_upto(
    order: &mut [u16; 512],
    from: usize,
    end: usize,
    words: &[u64; 8],
    slot: u16,
) -> SettledOrder
    requires { SettlementAsks order.old from end words.now slot }
    ensures { Settled order.old from end words.now slot order.new result.committed result.end }
{
    let mut staying = [0u16; 512];
    let own = separate(order, &mut staying, from, end, words, slot);
    order[own] = slot;
    let committed = own + 1;
    put_first(order, committed, &staying, end - committed);
    SettledOrder { committed, end }
}

// Puts the places from..to of the order, the tentative slots, into the order of a settlement of that slot with that context, by the set of
// the numbers that are settled. Where the slot moves alone, it goes to the front; where those that move stand there already, the slot last,
// the order stays as it is; else the places up to the last that moves are settled. What stands behind that one is left alone.
pub fn settle_moving<'a>(
    order: &mut [u16; 512],
    clocks: &'a [u32; 512],
    from: usize,
    to: usize,
    words: &'a [u64; 8],
    settled: &'a [u64; 8],
    slot: u16,
) -> SettledOrder
    requires { MovesAsk order.old clocks.now from to words.now settled.now slot }
    ensures { Settled order.old from to words.now slot order.new result.committed result.end }
{
    let named = unions::lacked_count(words, settled);
    if named == 0 {
        let end = front::to_front(order, clocks, from, to, slot);
        let alone = from + 1;
        return SettledOrder {
            committed: alone,
            end,
        };
    }
    let end = counted_end(order, from, named + 1, words, slot);
    let last = order[end - 1];
    if (end - from == named + 1) & (last == slot) {
        return SettledOrder {
            committed: end,
            end,
        };
    }
    settle_upto(order, from, end, words, slot)
}
