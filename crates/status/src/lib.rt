// What a panel has of a request, by its number: its place, whether it is settled, awaited and executed, and with which response.
//
// A request of the standing order is executed where fewer than `executed` stand before it, and its response is then kept at its place.
#![tactic(auto)]

ghost use Rattle.std.specs.Prelude.{◌≡◌, ◌==◌, take, position};
ghost use Rattle.request.specs.Refusal.{number_of};
ghost use Rattle.replica.specs.Memory.{Asks};
ghost use Rattle.status.specs.Status.{status_uses, StatusKept};
ghost use Rattle.status.specs.internal.Place.{stand_before, refused_status, BeforeAsks};

use numbers::Number;
use replica::Panel;
use request::refusal::{self, Refusal};

// The status of a request, or a refusal with zeros: a struct with flags, since an Option and a Result do not cross to C.
#[repr(C)]
#[derive(Clone, Copy)]
pub struct RequestStatus {
    pub response: u32,
    pub place: u32,
    pub settled: bool,
    pub awaited: bool,
    pub executed: bool,
    pub refusal: u8,
}

// The status of the request of number n.
pub fn request_status(p: &Panel, n: Number) -> RequestStatus
    requires { Asks (status_uses p.now) }
    ensures { StatusKept p.now n result }
{
    if numbers::bad(p.panels, n) {
        return refusing(Refusal::BadNumber);
    }
    if !members::member(&p.held, n) {
        return refusing(Refusal::NotHere);
    }
    let before = before(&p.order, p.ordered, numbers::slot_of(n));
    let executed = before < p.executed;
    let response = if executed { p.responses[before] } else { 0 };
    RequestStatus {
        response,
        place: before as u32 + 1,
        settled: before < p.committed,
        awaited: members::member(&p.awaiting, n),
        executed,
        refusal: refusal::ACCEPTED,
    }
}

// A refusal with zeros.
fn refusing(refusal: Refusal) -> RequestStatus
    ensures { result ≡ refused_status (number_of refusal) }
{
    RequestStatus {
        response: 0,
        place: 0,
        settled: false,
        awaited: false,
        executed: false,
        refusal: u8::from(refusal),
    }
}

// The first place of the slot in an order, counted from 0.
fn place_in(order: &[u16], slot: u16) -> Option<usize>
    ensures { result ≡ position (λ t. slot == t) order.now }
{
    order.iter().position(|t| slot == *t)
}

// How many of the first n of the order stand before the slot.
fn before(order: &[u16; 512], n: usize, slot: u16) -> usize
    requires { BeforeAsks order.now n }
    ensures { result ≡ stand_before slot (take n order.now) }
{
    place_in(&order[..n], slot).unwrap_or(n)
}
