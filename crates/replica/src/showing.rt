// The showing calls, which change nothing. What is read as it stands asks nothing; each says what it is of every panel that came from fresh
// and the calls and has what is read as this one has it.
ghost use Rattle.creek.specs.Showing.{requests_shown, commits_shown, undos_shown, executions_shown, owed_shown};
ghost use Rattle.creek.specs.Showing.{panels_shown, own_shown, made_shown};
ghost use Rattle.replica.specs.Memory.{Asks};
ghost use Rattle.replica.specs.Shown.{committed_shown, Shows, RegisterKept, place_uses, PlaceKept};

use super::{Panel, PlacedRequest, RegisterValue};
use request::operations;
use request::refusal::{self, Refusal};

impl Panel {
    // The value of register k, or refusal 3 with 0.
    pub fn register(&self, k: u8) -> RegisterValue
        ensures { RegisterKept self.now k result }
    {
        if operations::LAST_REGISTER < k {
            return RegisterValue {
                refusal: u8::from(Refusal::BadOperation),
                value: 0,
            };
        }
        RegisterValue {
            refusal: refusal::ACCEPTED,
            value: self.registers[k as usize],
        }
    }

    // The count of accepted requests.
    pub fn requests(&self) -> usize
        ensures { Shows (λ p. record p { ordered = self.now.ordered }) requests_shown result }
    {
        self.ordered
    }

    // The length of the settled list.
    pub fn committed(&self) -> usize
        ensures { Shows (λ p. record p { committed = self.now.committed }) committed_shown result }
    {
        self.committed
    }

    // The count of accepted settlements.
    pub fn commits(&self) -> u32
        ensures { Shows (λ p. record p { commits = self.now.commits }) commits_shown result }
    {
        self.commits
    }

    // The undos done.
    pub fn undos(&self) -> u32
        ensures { Shows (λ p. record p { counters = self.now.counters }) undos_shown result }
    {
        self.counters.undos
    }

    // The executions done.
    pub fn executions(&self) -> u32
        ensures { Shows (λ p. record p { counters = self.now.counters }) executions_shown result }
    {
        self.counters.executions
    }

    // The steps owed.
    pub fn owed(&self) -> usize
        requires { Asks (λ p. record p { ordered = self.now.ordered; executed = self.now.executed; stacked = self.now.stacked }) }
        ensures { Shows (λ p. record p { ordered = self.now.ordered; executed = self.now.executed; stacked = self.now.stacked }) owed_shown result }
    {
        (self.stacked - self.executed) + (self.ordered - self.executed)
    }

    // The number of panels of the shop.
    pub fn panels(&self) -> u8
        ensures { Shows (λ p. record p { panels = self.now.panels }) panels_shown result }
    {
        self.panels
    }

    // The own panel.
    pub fn own(&self) -> u8
        ensures { Shows (λ p. record p { own = self.now.own }) own_shown result }
    {
        self.own.0
    }

    // The own requests made.
    pub fn made(&self) -> u8
        ensures { Shows (λ p. record p { events = self.now.events }) made_shown result }
    {
        self.events
    }

    // The request at a place of the standing order, places counted from 1, or refusal 9 with a request of zeros.
    pub fn at_place(&self, place: usize) -> PlacedRequest
        requires { Asks (place_uses self.now) }
        ensures { PlaceKept self.now place result }
    {
        if (place == 0) | (self.ordered < place) {
            return PlacedRequest {
                refusal: u8::from(Refusal::NotHere),
                request: request::none(),
            };
        }
        let slot = self.order[place - 1];
        PlacedRequest {
            refusal: refusal::ACCEPTED,
            request: store::request_at(&self.clocks, &self.askings, &self.contexts, slot),
        }
    }
}
