// The parts of a message from its bytes: the number, the clock, what is asked for and the words of a context; and a request of them.
ghost use Rattle.std.specs.Prelude.{◌≡◌, ◌+◌, ◌≤◌, length};
ghost use Rattle.numbers.specs.Numbers.{most_panels};
ghost use Rattle.sets.specs.Sets.{set_of};
ghost use Rattle.fields.specs.Widths.{settlement_widths, weak_widths, strong_widths, context_widths, size, decode};
ghost use Rattle.fields.specs.Contents.{number_from, clock_from, asked_from, request_from};

use super::{integers, places};
use numbers::{Clock, EventNo, Number, PanelNo};
use request::{Asked, Request};
use sets::Context;

// The number that a message at a place names.
pub fn number_at(s: &[u8], at: usize) -> Number
    requires { at + size settlement_widths ≤ length s.now }
    ensures { result ≡ number_from (decode settlement_widths s.now at) }
{
    Number {
        panel: PanelNo(s[at + places::PANEL_AT]),
        event: EventNo(s[at + places::EVENT_AT]),
    }
}

// The clock of a request at a place.
pub fn clock_at(s: &[u8], at: usize) -> Clock
    requires { at + size weak_widths ≤ length s.now }
    ensures { result ≡ clock_from (decode weak_widths s.now at) }
{
    let clock = integers::integer_at(s, at + places::CLOCK_AT, places::CLOCK_WIDTH) as u32;
    Clock(clock)
}

// What a request at a place asks for, with its strength.
pub fn asked_at(s: &[u8], at: usize, strong: bool) -> Asked
    requires { at + size weak_widths ≤ length s.now }
    ensures { result ≡ asked_from (decode weak_widths s.now at) strong }
{
    let amount = integers::integer_at(s, at + places::AMOUNT_AT, places::AMOUNT_WIDTH) as u32;
    let code = s[at + places::CODE_AT];
    let r = s[at + places::R_AT];
    let q = s[at + places::Q_AT];
    Asked {
        code,
        r,
        q,
        strong,
        amount,
    }
}

// The request of a message at a place, with its strength and its context.
pub fn request_at(s: &[u8], at: usize, strong: bool, context: Context) -> Request
    requires { at + size weak_widths ≤ length s.now }
    ensures { result ≡ request_from (decode weak_widths s.now at) strong context }
{
    let number = number_at(s, at);
    let clock = clock_at(s, at);
    let asked = asked_at(s, at, strong);
    Request {
        number,
        clock,
        asked,
        context,
    }
}

// Reads the words of a context, which stand from `from` on, into `words`; in front of them a message may have a run of any length.
pub fn words_at(words: &mut [u64; 8], s: &[u8], from: usize)
    requires { (length words.old ≡ most_panels) × (from + size context_widths ≤ length s.now) }
    ensures { words.new ≡ decode context_widths s.now from }
{
    for (p, word) in words.iter_mut().enumerate() {
        *word = integers::word_at(s, from + places::WORD_WIDTH * p);
    }
}

// The context of a strong request at a place.
pub fn context_at(s: &[u8], at: usize) -> Context
    requires { at + size strong_widths ≤ length s.now }
    ensures { result ≡ set_of (decode context_widths s.now (at + size weak_widths)) }
{
    let mut words = [0u64; 8];
    words_at(&mut words, s, at + places::CONTEXT_AT);
    Context { words }
}
