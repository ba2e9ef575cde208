// Runs the cases at the edges of document 01 that it does not ask to be proved, and prints a line for each: the refusal number.
#![tactic(auto)]

use descriptors::{STDIN_FILENO, STDOUT_FILENO};
use encoding::answers::ANSWER_SIZE;
use request::refusal::ACCEPTED;

// How many calls the list on standard input has.
const CALLS: usize = 6;

fn main() {
    let mut list = io::buffer();
    let n = io::read_full(STDIN_FILENO, &mut list);
    print_idle(answers_to(&list[..n]));
    print(cut_short());
    print(bad_length());
}

// Carry-out and undo on an idle panel: on a fresh one, and on one that has made a request and carried it out.
fn print_idle(answers: [u8; CALLS * ANSWER_SIZE]) {
    print(answers[0]);
    print(answers[ANSWER_SIZE]);
    print(answers[4 * ANSWER_SIZE]);
    print(answers[5 * ANSWER_SIZE]);
}

// The answers to a list of calls, encoded as `docs/CALLS.md` says: on panel 0 of a one-panel shop carry out, undo, make, carry out twice,
// undo.
fn answers_to(list: &[u8]) -> [u8; CALLS * ANSWER_SIZE] {
    let mut answers = [0u8; CALLS * ANSWER_SIZE];
    driver::run_list(list, &mut answers);
    answers
}

// A kind 1 message of 17 bytes present.
fn cut_short() -> u8 {
    let bytes = [18u8, 0, 1, 0, 0, 1, 10, 0, 0, 0, 2, 4, 0, 0, 6, 0, 0];
    refusal_at_start(&bytes)
}

// The same with its length saying 19.
fn bad_length() -> u8 {
    let bytes = [19u8, 0, 1, 0, 0, 1, 10, 0, 0, 0, 2, 4, 0, 0, 6, 0, 0];
    refusal_at_start(&bytes)
}

// The refusal number of what stands at the start of these bytes, 0 where it is none.
fn refusal_at_start(bytes: &[u8]) -> u8 {
    wire::read(bytes, 0).err().map_or(ACCEPTED, u8::from)
}

// Prints a number on a line of its own.
fn print(n: u8) {
    io::print_decimal(STDOUT_FILENO, u64::from(n));
    io::write_all(STDOUT_FILENO, b"\n");
}
