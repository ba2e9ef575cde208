// The bytes of an answer.
ghost use Rattle.std.specs.Prelude.{◌≡◌, ◌+◌, ◌/◌, ◌≤◌, length, ltb};
ghost use Rattle.numbers.specs.Numbers.{no_number};
ghost use Rattle.creek.specs.Replies.{no_mark, reply, reply_answer};
ghost use Rattle.text.specs.Written.{Room, Written};
ghost use Rattle.encoding.specs.Encoding.{call_count, answer_size, answer_bytes, message_bytes};
ghost use Rattle.encoding.specs.internal.Running.{receipt_answer};

use super::calls;
use creek::{Answer, Mark, Reply};
use intake::Receipt;
use request::Request;
use request::refusal::{self, Refusal};
use wire::Message;
use wire::layout::LONGEST_MESSAGE;

// The bytes of every answer: eight, and room for the longest bus message.
pub const ANSWER_SIZE: usize = 8 + LONGEST_MESSAGE;

// So many bytes have no room for the answers to the calls of `s`.
pub fn tight(s: &[u8], room: usize) -> bool
    ensures { result ≡ ltb (room / answer_size) (call_count s.now) }
{
    let count = calls::call_count(s);
    room / ANSWER_SIZE < count
}

// The answer to what a receipt tells of: a message that could not be read is heard as the request of zeros, whose number is bad.
fn answer_in(r: Receipt) -> Answer
    ensures { result ≡ receipt_answer r }
{
    if r.taken == 0 {
        return Answer::from(replica::told(Err(Refusal::BadNumber)));
    }
    Answer::from(r.reply)
}

// Puts the answer to what a receipt tells of and returns how many bytes it has.
pub fn put_receipt(out: &mut [u8], r: Receipt) -> usize
    requires { answer_size ≤ length out.old }
    ensures { Written out.old (answer_bytes (receipt_answer r)) out.new result }
{
    let answer = answer_in(r);
    put_answer(out, answer)
}

// Puts the answer to so many due steps and returns how many bytes it has.
pub fn put_steps(out: &mut [u8], steps: u32) -> usize
    requires { answer_size ≤ length out.old }
    ensures { Written out.old (answer_bytes (reply no_number steps no_mark)) out.new result }
{
    let counted = Reply {
        response: steps,
        number: numbers::none(),
        mark: Mark::Nobody as u8,
        refusal: refusal::ACCEPTED,
    };
    put_reply(out, counted)
}

// Puts the answer that a reply is and returns how many bytes it has.
pub fn put_reply(out: &mut [u8], r: Reply) -> usize
    requires { answer_size ≤ length out.old }
    ensures { Written out.old (answer_bytes (reply_answer r)) out.new result }
{
    put_answer(out, Answer::from(r))
}

// Puts an answer and returns how many bytes it has.
pub fn put_answer(out: &mut [u8], a: Answer) -> usize
    requires { answer_size ≤ length out.old }
    ensures { Written out.old (answer_bytes a) out.new result }
{
    let number = a.number;
    let panel = number.panel.0;
    let event = number.event.0;
    let [lowest, low, high, highest] = a.response.to_le_bytes();
    let head = [a.refusal, a.mark, panel, event, lowest, low, high, highest];
    let at = text::put_bytes(out, &head);
    at + put_message(&mut out[at..], a.request)
}

// Puts the bus message that spreads x, with zeros behind it up to the longest one, and returns how many bytes it has.
fn put_message(out: &mut [u8], x: Request) -> usize
    requires { Room out.old (message_bytes x) }
    ensures { Written out.old (message_bytes x) out.new result }
{
    let mut message = [0u8; LONGEST_MESSAGE];
    let _written = writer::write(&mut message, Message::Request(x));
    text::put_bytes(out, &message)
}
