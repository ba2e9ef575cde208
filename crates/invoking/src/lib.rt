// The call by which a request is made, invoke.
#![tactic(auto)]

ghost use Rattle.std.specs.Prelude.{◌≡◌};
ghost use Rattle.std.proofs.Math.Seq.{slice};
ghost use Rattle.sets.specs.Sets.{set_of};
ghost use Rattle.request.specs.Refusal.{outcome_number};
ghost use Rattle.ordering.specs.Slots.{Part};
ghost use Rattle.creek.specs.Plan.{at_least};
ghost use Rattle.creek.specs.Book.{invoke as invoke_call};
ghost use Rattle.replica.specs.Uses.{making_uses};
ghost use Rattle.replica.specs.Memory.{Asks, Done};
ghost use Rattle.invoking.specs.Invoking.{InvokeRefused, context_without, request_for, made_answer};

use creek::{Answer, Invocation, Mark};
use numbers::{Clock, EventNo, Number};
use replica::Panel;
use request::refusal::{self, Refusal};
use request::{Request, asks};
use sets::Context;

// A request is made: it enters as one that is heard does, awaits a reply, and is to be spread to the other panels. One made with a lower
// clock takes the reading of the last own request.
pub fn invoke(p: &mut Panel, i: Invocation) -> Result<Request, Refusal>
    requires { Asks (making_uses p.old) }
    ensures { Done p.old (invoke_call i) (made_answer result) p.new }
{
    invoke_refusal(p.events, i)?;
    let raised = at_least(Clock(p.clock), i);
    let event = p.events + 1;
    let number = Number {
        panel: p.own,
        event: EventNo(event),
    };
    let slot = numbers::slot_of(number);
    let at = ordering::place(
        &p.clocks,
        &p.order,
        p.committed,
        p.ordered,
        raised.clock.0,
        slot,
    );
    // The later ones of the tentative requests are those from there on.
    let context = context_for(raised.asked.strong, &p.known, &p.order, at, p.ordered);
    let x = request_for(number, raised, context);
    entering::enter(p, slot, at, &x);
    members::join_at(&mut p.awaiting, slot);
    p.events = event;
    p.clock = raised.clock.0;
    Ok(x)
}

// The answer of a call that made a request, which is to be spread, or was refused.
pub fn made_answer(outcome: Result<Request, Refusal>) -> Answer
    ensures { result ≡ made_answer outcome }
{
    match outcome {
        Ok(x) => Answer {
            request: x,
            response: 0,
            number: numbers::none(),
            refusal: refusal::ACCEPTED,
            mark: Mark::Nobody as u8,
        },
        Err(w) => Answer::from(replica::told(Err(w))),
    }
}

// The refusals of an invocation after an own request of that event: bad operation, shift full.
fn invoke_refusal(events: u8, i: Invocation) -> Result<(), Refusal>
    ensures { InvokeRefused events i (outcome_number result) }
{
    if asks::bad(i.asked) {
        return Err(Refusal::BadOperation);
    }
    if numbers::MOST_EVENTS <= events {
        return Err(Refusal::ShiftFull);
    }
    Ok(())
}

// i with its clock reading or, where that is lower, with the last one.
fn at_least(last: Clock, i: Invocation) -> Invocation
    ensures { result ≡ at_least last.0 i }
{
    if last.0 <= i.clock.0 {
        return i;
    }
    let asked = i.asked;
    Invocation { asked, clock: last }
}

// The context of a request of that strength: where it is strong, the known set without the requests at the places from..to of the order.
fn context_for(
    strong: bool,
    known: &[u64; 8],
    order: &[u16; 512],
    from: usize,
    to: usize,
) -> Context
    requires { Part order.now from to }
    ensures { result ≡ context_without strong (set_of known.now) (slice from to order.now) }
{
    if strong {
        let mut words = *known;
        ordering::take_out(&mut words, order, from, to);
        return Context { words };
    }
    sets::empty()
}

// The request of that number that i asks for, with that context.
fn request_for(number: Number, i: Invocation, context: Context) -> Request
    ensures { result ≡ request_for number i context }
{
    let clock = i.clock;
    let asked = i.asked;
    Request {
        context,
        asked,
        clock,
        number,
    }
}
