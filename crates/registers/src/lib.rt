// The 64 registers: what to save before an operation, and rolling it back from what was saved.
//
// What operations do is said in `effects`, and executing one is `executing`'s; the laws of rolling back are in `proofs/`. Every function
// takes any operation: one that names a register over 63 saves zeros and changes nothing.
#![tactic(auto)]

ghost use Rattle.std.specs.Prelude.{◌≡◌};
ghost use Rattle.registers.specs.Rollback.{saved_of, restored, saved_in, SavedAs};

use request::{Operation, operations};

// The values of registers r and q from before an operation. Only this crate looks inside.
#[derive(Clone, Copy)]
pub struct Saved {
    r: u32,
    q: u32,
}

// What to save before o; the registers are left alone.
pub fn save(registers: &[u32; 64], o: Operation) -> Saved
    ensures { result ≡ saved_of o registers.now }
{
    if executing::off_board(o) {
        return Saved { r: 0, q: 0 };
    }
    let r = registers[o.r as usize];
    let q = registers[o.q as usize];
    Saved { r, q }
}

// Puts back what was saved before o.
pub fn rollback(registers: &mut [u32; 64], o: Operation, s: Saved)
    ensures { registers.new ≡ restored o s registers.old }
{
    if executing::off_board(o) {
        return;
    }
    if o.code == operations::CLAIM_ALL {
        let held = registers[o.r as usize];
        if (s.r != 0) | (held == 0) {
            return;
        }
        executing::set_all(registers, o, s.q);
        return;
    }
    registers[o.r as usize] = s.r;
    registers[o.q as usize] = s.q;
}

// One past the greatest value of a register.
const RANGE: u64 = u32::MAX as u64 + 1;

// What was saved as one word: r in the lower half, q in the upper.
pub fn saved_word(s: Saved) -> u64
    ensures { SavedAs s result }
{
    let r = s.r as u64;
    let q = s.q as u64;
    r + RANGE * q
}

// What was saved in a word.
pub fn saved_in(word: u64) -> Saved
    ensures { result ≡ saved_in word }
{
    let r = (word % RANGE) as u32;
    let q = (word / RANGE) as u32;
    Saved { r, q }
}
