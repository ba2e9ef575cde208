// A request enters a panel, whether it was made there or heard: what invoke and deliver have in common.
#![tactic(auto)]

ghost use Rattle.std.specs.Prelude.{◌≡◌};
ghost use Rattle.numbers.specs.internal.Slots.{number_of};
ghost use Rattle.sets.specs.Sets.{set_of};
ghost use Rattle.creek.specs.Plan.{known_with};
ghost use Rattle.entering.specs.Entering.{EnterAsks, EnterKept};

use replica::Panel;
use request::Request;

// The request x, of that slot and place of the order, enters, and what is executed behind that place is to be rolled back.
pub fn enter(p: &mut Panel, slot: u16, at: usize, x: &Request)
    requires { EnterAsks p.old slot at x.now }
    ensures { EnterKept p.old slot at x.now p.new }
{
    ordering::insert_at(&mut p.order, p.ordered, at, slot);
    members::join_at(&mut p.held, slot);
    know(&mut p.known, x.asked.strong, slot);
    store::put_request(&mut p.clocks, &mut p.askings, &mut p.contexts, slot, x);
    p.ordered += 1;
    // What is executed agrees with the order up to the place of the request, which is not executed.
    p.executed = p.executed.min(at);
}

// Puts the number of a slot into the known set, where a request of that strength is known as soon as it enters.
fn know(known: &mut [u64; 8], strong: bool, slot: u16)
    ensures { set_of known.new ≡ known_with (set_of known.old) strong (number_of slot) }
{
    if !strong {
        members::join_at(known, slot);
    }
}
