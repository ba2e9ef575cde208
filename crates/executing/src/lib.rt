// Executing an operation on the 64 registers, as `exec` and `response` of `effects` say.
//
// Every function takes any operation that its contract lets in; `execute` takes any at all: one that names a register over 63 changes
// nothing and responds 0. `set_all` and `off_board` serve rolling back in `registers`, too.
#![tactic(auto)]

ghost use Rattle.std.specs.Prelude.{◌≡◌, false};
ghost use Rattle.effects.specs.Effect.{off_board, lowest_held, all_set, Executed};
ghost use Rattle.effects.specs.internal.OnBoard.{MoveOnBoard, ClaimOnBoard};
ghost use Rattle.executing.specs.internal.OneRegister.{on_one_register, value_after, OneOnBoard, OtherOnBoard};

use request::{Operation, operations};

// Executes o on the registers, and returns its response. It is put where it is called, since it stands in the loop of all due steps.
#[inline(always)]
pub fn execute(registers: &mut [u32; 64], o: Operation) -> u32
    ensures { Executed o registers.old registers.new result }
{
    if off_board(o) {
        return 0;
    }
    if on_one_register(o.code) {
        return execute_one(registers, o);
    }
    execute_other(registers, o)
}

// Whether an operation of that code is on one register: read, set, add or claim.
fn on_one_register(code: u8) -> bool
    ensures { result ≡ on_one_register code }
{
    (operations::READ <= code) & (code <= operations::CLAIM)
}

// Executes an operation on one register, with no branch on its code, which a machine would often guess wrong.
fn execute_one(registers: &mut [u32; 64], o: Operation) -> u32
    requires { OneOnBoard o }
    ensures { Executed o registers.old registers.new result }
{
    let code = o.code;
    let r = o.r as usize;
    let before = registers[r];
    let after = value_after(code, before, o.amount);
    registers[r] = after;
    if code <= operations::SET {
        before
    } else {
        after
    }
}

// What the register holds after an operation of that code and amount, where it held `before`.
fn value_after(code: u8, before: u32, amount: u32) -> u32
    ensures { result ≡ value_after code before amount }
{
    let claims = (code == operations::CLAIM) & (before == 0);
    let claimed = if claims { amount } else { before };
    let added = if code == operations::ADD {
        before.wrapping_add(amount)
    } else {
        claimed
    };
    if code == operations::SET {
        amount
    } else {
        added
    }
}

// Executes any other operation: a move, a claim of registers together, or nothing where the code is not known.
fn execute_other(registers: &mut [u32; 64], o: Operation) -> u32
    requires { OtherOnBoard o }
    ensures { Executed o registers.old registers.new result }
{
    let code = o.code;
    if code == operations::MOVE {
        return execute_move(registers, o);
    }
    if code == operations::CLAIM_ALL {
        return execute_claim_all(registers, o);
    }
    0
}

// Executes a move: of the amount asked for, what there is and fits goes from r to q.
fn execute_move(registers: &mut [u32; 64], o: Operation) -> u32
    requires { MoveOnBoard o }
    ensures { Executed o registers.old registers.new result }
{
    let r = o.r as usize;
    let q = o.q as usize;
    let source = registers[r];
    let target = registers[q];
    let room = u32::MAX - target;
    let most = source.min(room);
    let amount = o.amount.min(most);
    registers[r] = source - amount;
    registers[q] = target + amount;
    amount
}

// Executes a claim of registers r to q: all become the amount, or none changes.
fn execute_claim_all(registers: &mut [u32; 64], o: Operation) -> u32
    requires { ClaimOnBoard o }
    ensures { Executed o registers.old registers.new result }
{
    let held = lowest_held(registers, o);
    if held != 0 {
        return held;
    }
    set_all(registers, o, o.amount);
    o.amount
}

// The value of the lowest-numbered register from r to q that is not 0, or 0 where all of them are.
fn lowest_held(registers: &[u32; 64], o: Operation) -> u32
    requires { off_board o ≡ false }
    ensures { result ≡ lowest_held o registers.now }
{
    let end = o.q as usize + 1;
    for k in o.r as usize..end {
        if registers[k] != 0 {
            return registers[k];
        }
    }
    0
}

// Sets all of registers r to q to v.
pub fn set_all(registers: &mut [u32; 64], o: Operation, v: u32)
    requires { off_board o ≡ false }
    ensures { registers.new ≡ all_set o v registers.old }
{
    let end = o.q as usize + 1;
    for at in o.r as usize..end {
        registers[at] = v;
    }
}

// Whether o names a register over 63.
pub fn off_board(o: Operation) -> bool
    ensures { result ≡ off_board o }
{
    (operations::LAST_REGISTER < o.r) | (operations::LAST_REGISTER < o.q)
}
