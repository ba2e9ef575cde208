// Requests by slot in three lent arrays: the clocks, a word each of what they ask for, the words of the contexts one after the other.
ghost use Rattle.std.specs.Prelude.{◌≡◌, ◌*◌, length, get_or};
ghost use Rattle.std.proofs.lemmas.List.Edits.{sets};
ghost use Rattle.numbers.specs.Numbers.{most_panels};
ghost use Rattle.numbers.specs.internal.Slots.{number_of};
ghost use Rattle.request.specs.Request.{same_request};
ghost use Rattle.ordering.specs.Slots.{IsSlot};
ghost use Rattle.store.specs.Requests.{asked_in, context_at, request_of, request_at, most_words, WordAs, Long, Stored};

use numbers::Clock;
use request::{Asked, Request};
use sets::Context;

// One past the greatest number in eight bits.
const BYTE: u64 = 256;

// What r, q, the strength and the amount are multiplied by in the word; the code stands lowest.
const UNIT_R: u64 = 256;

const UNIT_Q: u64 = 65536;

const UNIT_STRENGTH: u64 = 16777216;

const UNIT_AMOUNT: u64 = 4294967296;

// What a word says is asked for.
fn asked_in(word: u64) -> Asked
    ensures { result ≡ asked_in word }
{
    let code = (word % BYTE) as u8;
    let r = (word / UNIT_R % BYTE) as u8;
    let q = (word / UNIT_Q % BYTE) as u8;
    let amount = (word / UNIT_AMOUNT) as u32;
    let strong = word / UNIT_STRENGTH % 2 == 1;
    Asked {
        code,
        r,
        q,
        strong,
        amount,
    }
}

// What the request at a slot asks for.
pub fn asked_at(askings: &[u64; 512], slot: usize) -> Asked
    requires { IsSlot slot }
    ensures { result ≡ asked_in (get_or askings.now slot 0) }
{
    let word = askings[slot];
    asked_in(word)
}

// The context at a slot.
pub fn context_at(contexts: &[u64; 4096], slot: usize) -> Context
    requires { IsSlot slot × (length contexts.now ≡ most_words) }
    ensures { result ≡ context_at contexts.now slot }
{
    let at = sets::WORDS * slot;
    let mut words = [0u64; 8];
    for (i, word) in words.iter_mut().enumerate() {
        *word = contexts[at + i];
    }
    Context { words }
}

// The request at a slot.
pub fn request_at(
    clocks: &[u32; 512],
    askings: &[u64; 512],
    contexts: &[u64; 4096],
    slot: u16,
) -> Request
    requires { IsSlot slot × Long clocks.now askings.now contexts.now }
    ensures { result ≡ request_at clocks.now askings.now contexts.now slot }
{
    let s = slot as usize;
    let clock = clocks[s];
    let number = numbers::number_of(slot);
    let asked = asked_at(askings, s);
    let context = context_at(contexts, s);
    Request {
        number,
        clock: Clock(clock),
        asked,
        context,
    }
}

// Whether the request at a slot is x.
pub fn same_at(
    clocks: &[u32; 512],
    askings: &[u64; 512],
    contexts: &[u64; 4096],
    slot: u16,
    x: &Request,
) -> bool
    requires { IsSlot slot × Long clocks.now askings.now contexts.now }
    ensures { result ≡ same_request (request_at clocks.now askings.now contexts.now slot) x.now }
{
    request_at(clocks, askings, contexts, slot) == *x
}

// The word of what is asked for.
fn word_of(a: Asked) -> u64
    ensures { WordAs a result }
{
    let code = a.code as u64;
    let r = a.r as u64;
    let q = a.q as u64;
    let amount = a.amount as u64;
    let strength = a.strong as u64;
    code + UNIT_R * r + UNIT_Q * q + UNIT_STRENGTH * strength + UNIT_AMOUNT * amount
}

// Puts the words of a context at a slot; they are all read before any is written, by which the compiler moves several at once: the
// library's `copy_from_slice` would test whether the two overlap.
fn put_words(contexts: &mut [u64; 4096], slot: usize, words: &[u64; 8])
    requires { IsSlot slot × (length words.now ≡ most_panels) }
    ensures { contexts.new ≡ sets contexts.old (most_panels * slot) words.now }
{
    let at = sets::WORDS * slot;
    let read = *words;
    for (i, word) in read.iter().enumerate() {
        contexts[at + i] = *word;
    }
}

// Puts x at a slot: its clock reading, what it asks for, and the words of its context; its number is the slot's.
pub fn put_request(
    clocks: &mut [u32; 512],
    askings: &mut [u64; 512],
    contexts: &mut [u64; 4096],
    slot: u16,
    x: &Request,
)
    requires { IsSlot slot × Long clocks.old askings.old contexts.old × (length x.now.context.words ≡ most_panels) }
    ensures { Stored clocks.old askings.old contexts.old slot
        (request_of (number_of slot) x.now.clock x.now.asked x.now.context.words) clocks.new askings.new contexts.new }
{
    let s = slot as usize;
    clocks[s] = x.clock.0;
    askings[s] = word_of(x.asked);
    put_words(contexts, s, &x.context.words);
}
