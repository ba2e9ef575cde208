// The parts of a message into lent bytes: the number, the body of a request and its context.
ghost use Rattle.std.specs.Prelude.{◌≡◌, ◌≤◌, length};
ghost use Rattle.std.proofs.lemmas.List.Edits.{sets as put};
ghost use Rattle.fields.specs.Widths.{number_widths, body_widths, context_widths, settlement_widths, weak_widths, strong_widths};
ghost use Rattle.fields.specs.Widths.{head_size, size, encode};
ghost use Rattle.fields.specs.Contents.{number_fields, body_fields};

use super::{integers, places};
use numbers::Number;
use request::Request;
use sets::Context;

// Writes panel and event.
pub fn put_number(out: &mut [u8], n: Number)
    requires { size settlement_widths ≤ length out.old }
    ensures { out.new ≡ put out.old head_size (encode number_widths (number_fields n)) }
{
    let panel = n.panel.0 as u64;
    let event = n.event.0 as u64;
    integers::put_integer(out, places::PANEL_AT, places::BYTE, panel);
    integers::put_integer(out, places::EVENT_AT, places::BYTE, event);
}

// Writes the fields from the clock to the amount.
pub fn put_body(out: &mut [u8], r: Request)
    requires { size weak_widths ≤ length out.old }
    ensures { out.new ≡ put out.old (size settlement_widths) (encode body_widths (body_fields r)) }
{
    let asked = r.asked;
    let clock = r.clock.0 as u64;
    let code = asked.code as u64;
    let first = asked.r as u64;
    let second = asked.q as u64;
    let amount = asked.amount as u64;
    integers::put_integer(out, places::CLOCK_AT, places::CLOCK_WIDTH, clock);
    integers::put_integer(out, places::CODE_AT, places::BYTE, code);
    integers::put_integer(out, places::R_AT, places::BYTE, first);
    integers::put_integer(out, places::Q_AT, places::BYTE, second);
    integers::put_integer(out, places::SPARE_AT, places::BYTE, 0);
    integers::put_integer(out, places::AMOUNT_AT, places::AMOUNT_WIDTH, amount);
}

// Writes the words of a context.
pub fn put_context(out: &mut [u8], context: Context)
    requires { size strong_widths ≤ length out.old }
    ensures { out.new ≡ put out.old (size weak_widths) (encode context_widths context.words) }
{
    for (p, word) in context.words.iter().enumerate() {
        integers::put_integer(
            out,
            places::CONTEXT_AT + places::WORD_WIDTH * p,
            places::WORD_WIDTH,
            *word,
        );
    }
}
