// A request's number, its parts and a clock reading, which are three types; 0/0, equality of numbers, the test behind refusal 2, and a
// number's slot, its place in a table of 512.
//
// Each contract gives the result by the definition of the same name in `specs/`; their laws are in `proofs/`.
#![tactic(auto)]

ghost use Rattle.std.specs.Prelude.{◌≡◌, ◌/◌, ◌%◌};
ghost use Rattle.numbers.specs.Numbers.{most_events, no_number, bad_number};
ghost use Rattle.numbers.specs.internal.Slots.{slot_of, number_of};

// A panel of the shop, counted from 0.
#[repr(C)]
#[derive(Clone, Copy, PartialEq, Eq)]
pub struct PanelNo(pub u8);

// An event of a panel, counted from 1: it names a request.
#[repr(C)]
#[derive(Clone, Copy, PartialEq, Eq)]
pub struct EventNo(pub u8);

// A clock reading: it places a request.
#[repr(C)]
#[derive(Clone, Copy, PartialEq, Eq)]
pub struct Clock(pub u32);

// A request's number.
#[repr(C)]
#[derive(Clone, Copy, PartialEq, Eq)]
pub struct Number {
    pub panel: PanelNo,
    pub event: EventNo,
}

// The most panels of a shop.
pub const MOST_PANELS: u8 = 8;

// The most events of a panel.
pub const MOST_EVENTS: u8 = 64;

// 0/0, which stands where there is no number.
pub fn none() -> Number
    ensures { result ≡ no_number }
{
    Number {
        panel: PanelNo(0),
        event: EventNo(0),
    }
}

// The test behind refusal 2 in a shop of `panels` panels.
pub fn bad(panels: u8, n: Number) -> bool
    ensures { result ≡ bad_number panels n }
{
    !(n.panel.0 < panels) | !((1 <= n.event.0) & (n.event.0 <= MOST_EVENTS))
}

// The same two as wide as a slot, and how many slots there are.
const PANELS: u16 = MOST_PANELS as u16;

const EVENTS: u16 = MOST_EVENTS as u16;

pub const SLOTS: u16 = PANELS * EVENTS;

// The two digits of a slot: its panel, which has a word of a set, and the place of its event among the panel's, which has a bit there.
pub fn digits(slot: u16) -> (usize, u64)
    ensures panel { result.0 ≡ slot / most_events }
    ensures event { result.1 ≡ slot % most_events }
{
    let panel = (slot / EVENTS) as usize;
    let event = (slot % EVENTS) as u64;
    (panel, event)
}

// The slot of n. Event 0, which no good number has, shares the slot of event 1.
pub fn slot_of(n: Number) -> u16
    ensures { result ≡ slot_of n }
{
    let event = n.event.0 as u16;
    n.panel.0 as u16 * EVENTS + event.saturating_sub(1)
}

// The number whose slot is `slot`; a slot past the table counts round.
pub fn number_of(slot: u16) -> Number
    ensures { result ≡ number_of slot }
{
    let (panel, event) = digits(slot % SLOTS);
    Number {
        panel: PanelNo(panel as u8),
        event: EventNo(event as u8 + 1),
    }
}
