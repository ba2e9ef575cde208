// Sets of numbers in lent words, changed in place: `join` and `leave` write one word. They are the sets of the crate `sets`, whose
// definitions the contracts cite.
#![tactic(auto)]

ghost use Rattle.std.specs.Prelude.{◌≡◌, ◌*◌, ◌<◌, length};
ghost use Rattle.numbers.specs.Numbers.{most_panels, most_events};
ghost use Rattle.numbers.specs.internal.Slots.{number_of, GoodNumber};
ghost use Rattle.sets.specs.Sets.{set_of, mask_of, names_from, member as member_of, join as joined, leave as left};

use numbers::Number;
use sets::Context;

// Whether n is in the set.
pub fn member(words: &[u64; 8], n: Number) -> bool
    ensures { result ≡ member_of (set_of words.now) n }
{
    if numbers::bad(numbers::MOST_PANELS, n) {
        return false;
    }
    let bit = (n.event.0 - 1) as u64;
    (words[n.panel.0 as usize] >> bit) % 2 == 1
}

// Whether the number of a slot of the table is in the set, by the slot's digits: it is good, so that there is nothing to test.
pub fn has_slot(words: &[u64; 8], slot: u16) -> bool
    requires { slot < most_panels * most_events }
    ensures { result ≡ member_of (set_of words.now) (number_of slot) }
{
    let (panel, bit) = numbers::digits(slot);
    (words[panel] >> bit) % 2 == 1
}

// The same of any slot: one past the table counts round.
pub fn member_at(words: &[u64; 8], slot: u16) -> bool
    ensures { result ≡ member_of (set_of words.now) (number_of slot) }
{
    has_slot(words, slot % numbers::SLOTS)
}

// Whether the set holds a number of a panel not below `panels`.
pub fn names_from(words: &[u64; 8], panels: u8) -> bool
    requires { length words.now ≡ most_panels }
    ensures { result ≡ names_from panels (set_of words.now) }
{
    let set = Context { words: *words };
    sets::names_from(set, panels)
}

// The word in which only n's bit is set.
fn mask(n: Number) -> u64
    requires { GoodNumber most_panels n }
    ensures { result ≡ mask_of n }
{
    let bit = (n.event.0 - 1) as u64;
    1u64 << bit
}

// Puts n into the set.
pub fn join(words: &mut [u64; 8], n: Number)
    ensures { set_of words.new ≡ joined (set_of words.old) n }
{
    if numbers::bad(numbers::MOST_PANELS, n) {
        return;
    }
    let mask = mask(n);
    words[n.panel.0 as usize] |= mask;
}

// Puts the number of that slot into the set, by the slot's digits.
pub fn join_at(words: &mut [u64; 8], slot: u16)
    ensures { set_of words.new ≡ joined (set_of words.old) (number_of slot) }
{
    let (panel, bit) = numbers::digits(slot % numbers::SLOTS);
    words[panel] |= 1u64 << bit;
}

// Takes n out of the set.
pub fn leave(words: &mut [u64; 8], n: Number)
    ensures { set_of words.new ≡ left (set_of words.old) n }
{
    if !member(words, n) {
        return;
    }
    let mask = mask(n);
    words[n.panel.0 as usize] ^= mask;
}
