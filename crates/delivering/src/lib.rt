// The call by which a request of another panel is heard, deliver.
#![tactic(auto)]

ghost use Rattle.std.specs.Prelude.{◌≡◌, length};
ghost use Rattle.std.proofs.Math.Option.{some};
ghost use Rattle.numbers.specs.Numbers.{most_panels};
ghost use Rattle.request.specs.Refusal.{number_of, outcome_number};
ghost use Rattle.request.specs.Request.{bad_context};
ghost use Rattle.ordering.specs.Slots.{IsSlot};
ghost use Rattle.store.specs.Requests.{request_at, Long};
ghost use Rattle.creek.specs.Plan.{held_refusal};
ghost use Rattle.creek.specs.Book.{deliver as deliver_call};
ghost use Rattle.replica.specs.Uses.{hearing_uses};
ghost use Rattle.replica.specs.Memory.{Asks, Done};
ghost use Rattle.delivering.specs.Delivering.{judged, heard_answer};

use numbers::PanelNo;
use replica::Panel;
use request::refusal::Refusal;
use request::{Request, asks};

// A request of another panel is heard: it enters, unless it is refused.
pub fn deliver(p: &mut Panel, x: &Request) -> Result<(), Refusal>
    requires inv { Asks (hearing_uses p.old) }
    requires words { length x.now.context.words ≡ most_panels }
    ensures { Done p.old (deliver_call x.now) (heard_answer result) p.new }
{
    judged(p.panels, p.own, x)?;
    let slot = numbers::slot_of(x.number);
    if members::member_at(&p.held, slot) {
        return Err(held_refusal(p, slot, x));
    }
    let at = ordering::place(&p.clocks, &p.order, p.committed, p.ordered, x.clock.0, slot);
    entering::enter(p, slot, at, x);
    Ok(())
}

// The refusals of a delivery that do not ask what is held: bad number, own echo, bad operation, bad context.
fn judged(panels: u8, own: PanelNo, x: &Request) -> Result<(), Refusal>
    requires { length x.now.context.words ≡ most_panels }
    ensures { outcome_number result ≡ judged panels own.0 x.now }
{
    if numbers::bad(panels, x.number) {
        return Err(Refusal::BadNumber);
    }
    if x.number.panel.0 == own.0 {
        return Err(Refusal::OwnEcho);
    }
    if asks::bad(x.asked) {
        return Err(Refusal::BadOperation);
    }
    if bad_context(panels, x) {
        return Err(Refusal::BadContext);
    }
    Ok(())
}

// The test behind refusal 21 in a shop of `panels` panels: a weak request names nobody.
fn bad_context(panels: u8, x: &Request) -> bool
    requires { length x.now.context.words ≡ most_panels }
    ensures { result ≡ bad_context panels x.now }
{
    let words = &x.context.words;
    if !x.asked.strong {
        return members::names_from(words, 0);
    }
    let itself = members::member(words, x.number);
    let outside = members::names_from(words, panels);
    itself | outside
}

// The refusal of a request whose number, that of the slot, is held.
fn held_refusal(p: &Panel, slot: u16, x: &Request) -> Refusal
    requires { IsSlot slot × Long p.now.clocks p.now.askings p.now.contexts }
    ensures { number_of result ≡ held_refusal (some (request_at p.now.clocks p.now.askings p.now.contexts slot)) x.now }
{
    if store::same_at(&p.clocks, &p.askings, &p.contexts, slot, x) {
        return Refusal::HeldAlready;
    }
    Refusal::NumberClash
}
