// Sets of numbers as eight words, each function working by words. No set holds a number with a panel over 7 or an event outside 1 to 64.
//
// Each contract gives the result by the definition of the same name in `specs/`; their laws are in `proofs/`.
#![tactic(auto)]

ghost use Rattle.std.specs.Prelude.{◌≡◌};
ghost use Rattle.sets.specs.Sets.{empty_set, is_empty, names_from};
ghost use Rattle.sets.specs.Sets.{difference as difference_of, subset, lowest as lowest_of, lowest_lacking};

use numbers::{EventNo, Number, PanelNo};

// A set of numbers: word p is panel p's, and bit e - 1 of it is event e's.
#[repr(C)]
#[derive(Clone, Copy, PartialEq, Eq)]
pub struct Context {
    pub words: [u64; 8],
}

// The words of a set, one for each panel.
pub const WORDS: usize = numbers::MOST_PANELS as usize;

// The set with no number.
pub fn empty() -> Context
    ensures { result ≡ empty_set }
{
    Context { words: [0u64; 8] }
}

// Whether s holds a number of a panel not below `panels`.
pub fn names_from(s: Context, panels: u8) -> bool
    ensures { result ≡ names_from panels s }
{
    s.words.iter().skip(panels as usize).any(|word| *word != 0)
}

// Whether s holds no number.
pub fn is_empty(s: Context) -> bool
    ensures { result ≡ is_empty s }
{
    !names_from(s, 0)
}

// The numbers that s has and t lacks.
pub fn difference(s: Context, t: Context) -> Context
    ensures { result ≡ difference_of s t }
{
    let mut d = s;
    for i in 0..WORDS {
        let word = d.words[i];
        d.words[i] = word - (word & t.words[i]);
    }
    d
}

// Whether every number of s is in t.
pub fn is_subset(s: Context, t: Context) -> bool
    ensures { result ≡ subset s t }
{
    let d = difference(s, t);
    is_empty(d)
}

// The lowest number of s, lowest panel and then lowest event; 0/0 where s is empty.
pub fn lowest(s: Context) -> Number
    ensures { result ≡ lowest_of s }
{
    for (panel, word) in s.words.iter().enumerate() {
        if *word != 0 {
            let bit = word.trailing_zeros() as u8;
            return Number {
                panel: PanelNo(panel as u8),
                event: EventNo(bit + 1),
            };
        }
    }
    numbers::none()
}

// The lowest number that s has and t lacks; 0/0 where there is none.
pub fn lowest_lacking(s: Context, t: Context) -> Number
    ensures { result ≡ lowest_lacking s t }
{
    let d = difference(s, t);
    lowest(d)
}
