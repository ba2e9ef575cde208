// Where the calls stand in a run of bytes, and what of one is read.
ghost use Rattle.std.specs.Prelude.{◌≡◌, get_or};
ghost use Rattle.encoding.specs.Encoding.{panels_of, own_of, call_count, message_at, message_of, request_in, invocation_of};
ghost use Rattle.wire.specs.Reader.{outcome_of};
ghost use Rattle.encoding.specs.internal.Running.{step_with};

use creek::Invocation;
use numbers::PanelNo;
use request::Request;
use request::refusal::Refusal;
use wire::layout::LONGEST_MESSAGE;
use wire::{Message, Reading};

pub const PANELS_AT: usize = 0;

pub const OWN_AT: usize = 1;

// Where the first call stands.
pub const CALLS_AT: usize = 2;

// The bytes of a call: the tag and room for the longest bus message.
pub const CALL_SIZE: usize = 1 + LONGEST_MESSAGE;

// The tag of a message that is made; any other that is not a step's is that of one which is heard or settled.
pub const INVOKE: u8 = 1;

// A step that a list asks for, or all due steps, by its tag.
#[derive(Clone, Copy, PartialEq, Eq)]
pub enum Step {
    Undo = 2,
    Execute = 3,
    AllDue = 4,
}

// The tags of the steps, for a match.
const UNDO: u8 = Step::Undo as u8;

const EXECUTE: u8 = Step::Execute as u8;

const ALL_DUE: u8 = Step::AllDue as u8;

impl Step {
    // The step of that tag, where it is one's.
    pub fn with_tag(tag: u8) -> Option<Step>
        ensures { result ≡ step_with tag }
    {
        match tag {
            UNDO => Some(Step::Undo),
            EXECUTE => Some(Step::Execute),
            ALL_DUE => Some(Step::AllDue),
            _ => None,
        }
    }
}

// The byte at a place, 0 where there is none.
pub fn byte_at(s: &[u8], at: usize) -> u8
    ensures { result ≡ get_or s.now at 0 }
{
    s.get(at).copied().unwrap_or(0)
}

// How many whole calls stand in `s`.
pub fn call_count(s: &[u8]) -> usize
    ensures { result ≡ call_count s.now }
{
    s.len().saturating_sub(CALLS_AT) / CALL_SIZE
}

// The shop that `s` asks for: its number of panels and the own one.
pub fn shop_in(s: &[u8]) -> (u8, PanelNo)
    ensures { (result.0 ≡ panels_of s.now) × (result.1.0 ≡ own_of s.now) }
{
    (byte_at(s, PANELS_AT), PanelNo(byte_at(s, OWN_AT)))
}

// What is asked for by the request whose message stands at a place, with its clock reading; zeros, where none stands there.
pub fn invocation_at(s: &[u8], at: usize) -> Invocation
    ensures { result ≡ invocation_of (request_in (message_at s.now at)) }
{
    let request = request_of(wire::read(s, at));
    Invocation {
        asked: request.asked,
        clock: request.clock,
    }
}

// The request that was read, zeros where it was none.
fn request_of(read: Result<Option<Reading>, Refusal>) -> Request
    ensures { result ≡ request_in (message_of (outcome_of read)) }
{
    match read {
        Ok(Some(reading)) => match reading.message {
            Message::Request(r) => r,
            Message::Settlement(n) => request::bare(n),
        },
        Ok(None) => request::none(),
        Err(_) => request::none(),
    }
}
