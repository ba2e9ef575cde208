// What a call answers where it has no request to say, and who awaits a reply after it.
ghost use Rattle.std.specs.Prelude.{◌≡◌};
ghost use Rattle.sets.specs.Sets.{set_of};
ghost use Rattle.numbers.specs.Numbers.{no_number};
ghost use Rattle.request.specs.Refusal.{outcome_number};
ghost use Rattle.creek.specs.Replies.{refused_with, reply_in, awaiting_after};

use creek::{Mark, Reply};
use numbers::Number;
use request::refusal::{self, Refusal};

// The reply of a call with that outcome, which names no request and has no response.
pub fn told(outcome: Result<(), Refusal>) -> Reply
    ensures { result ≡ reply_in (refused_with (outcome_number outcome) no_number) }
{
    Reply {
        response: 0,
        number: numbers::none(),
        mark: Mark::Nobody as u8,
        refusal: refusal::outcome_number(outcome),
    }
}

// Takes n from those who await a reply after one with that mark, as a reply has it: weak and stable end the waiting.
pub fn end_waiting(awaiting: &mut [u64; 8], n: Number, mark: u8)
    ensures { set_of awaiting.new ≡ awaiting_after (set_of awaiting.old) n mark }
{
    if (mark == Mark::Weak as u8) | (mark == Mark::Stable as u8) {
        members::leave(awaiting, n);
    }
}
