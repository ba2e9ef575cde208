// A held strong request is settled: it is committed, and with it, before it, the tentative requests that its context names. The refusals that
// come before are in the crate `committing`.
#![tactic(auto)]

ghost use Rattle.std.specs.Prelude.{◌≡◌};
ghost use Rattle.numbers.specs.internal.Slots.{slot_of};
ghost use Rattle.sets.specs.Sets.{set_of};
ghost use Rattle.slots.specs.Marks.{Marked};
ghost use Rattle.request.specs.Refusal.{accepted, waits};
ghost use Rattle.creek.specs.Book.{commit};
ghost use Rattle.creek.specs.Replies.{reply_answer, refused_with};
ghost use Rattle.replica.specs.Uses.{settling_uses};
ghost use Rattle.replica.specs.Memory.{Asks, Done};
ghost use Rattle.settling.specs.Settling.{early_refusal, missing_number, agreed, settled_answer, MarkAsks};

use creek::{Mark, Reply};
use numbers::Number;
use replica::Panel;
use request::refusal::{self, Refusal};
use sets::Context;

// The request of number n, which no test without its context refuses, is settled or waits.
pub fn settle(p: &mut Panel, n: Number) -> Reply
    requires inv { Asks (settling_uses p.old) }
    requires not_refused { early_refusal p.old.panels (set_of p.old.held) (set_of p.old.known) p.old.askings n ≡ accepted }
    ensures { Done p.old (commit n) (reply_answer result) p.new }
{
    let slot = numbers::slot_of(n);
    let context = store::context_at(&p.contexts, slot as usize);
    if let Some(number) = missing(context, Context { words: p.known }) {
        return waiting(number);
    }
    let from = p.committed;
    let before = p.executed;
    let words = context.words;
    let moved = slots::settle_moving(
        &mut p.order,
        &p.clocks,
        from,
        p.ordered,
        &words,
        &p.settled,
        slot,
    );
    let count = moved.committed;
    mark(&mut p.settled, &words, n);
    // What is executed agrees with the order up to where the settlement changes it, and behind the last slot that it moves.
    let same = before.min(from);
    let last = before.min(moved.end);
    let start = ordering::common_start(&p.stack, last, &p.order, p.ordered, same);
    let stays = agreed(before, last, start);
    // The request is the last committed: it stays executed where the mark lies behind it, and its response was kept at its place.
    let response = p.responses[count - 1];
    let due = members::member(&p.awaiting, n) & (count <= stays);
    members::join(&mut p.known, n);
    let reply = settled_reply(due, response);
    replica::end_waiting(&mut p.awaiting, n, reply.mark);
    p.committed = count;
    p.executed = stays;
    p.commits += 1;
    reply
}

// The number that the settlement of a request with that context waits for, with those numbers known.
fn missing(context: Context, known: Context) -> Option<Number>
    ensures { result ≡ missing_number context known }
{
    if sets::is_subset(context, known) {
        return None;
    }
    Some(sets::lowest_lacking(context, known))
}

// The reply of a settlement that waits for that number.
fn waiting(number: Number) -> Reply
    ensures { reply_answer result ≡ refused_with waits number }
{
    Reply {
        response: 0,
        number,
        mark: Mark::Nobody as u8,
        refusal: u8::from(Refusal::Waits),
    }
}

// Puts the number n, and with it those of its context, into the set of the numbers settled.
fn mark(settled: &mut [u64; 8], words: &[u64; 8], n: Number)
    requires { MarkAsks settled.old n }
    ensures { Marked settled.old words.now (slot_of n) settled.new }
{
    unions::join_all(settled, words);
    members::join(settled, n);
}

// How many stay executed where the comparison up to `last`, behind which all agree, ended at `start`: all where it came to `last`, else
// those before `start`.
fn agreed(executed: usize, last: usize, start: usize) -> usize
    ensures { result ≡ agreed executed last start }
{
    if start == last {
        return executed;
    }
    start
}

// The reply of an accepted settlement: where a stable reply is due, that with the response.
fn settled_reply(due: bool, response: u32) -> Reply
    ensures { reply_answer result ≡ settled_answer due response }
{
    if due {
        return Reply {
            response,
            number: numbers::none(),
            mark: Mark::Stable as u8,
            refusal: refusal::ACCEPTED,
        };
    }
    replica::told(Ok(()))
}
