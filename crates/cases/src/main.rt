// Prints many run cases, each behind its name. Standard input has the cases one after the other: a case is three parts as `framed` reads
// them, its name, its sort, which is one byte, and its bytes.
//
// Under the sort `c` the bytes are a list of calls, and its answers are printed; under any other they are an input of the program
// `printout`, and its printout is printed.
#![tactic(auto)]

mod answered;

ghost use Rattle.std.specs.Prelude.{◌≡◌, ◌*◌, length};
ghost use Rattle.printed.specs.Printout.{most_input};

use descriptors::STDOUT_FILENO;
use sheet::MOST_INPUT;

// A run ends after so many cases, where standard input does not end it sooner.
const MOST_CASES: usize = 10000;

// The sort of a list of calls, as it stands in the input; every other byte is that of a printout, so that an enum would only name it twice.
const CALLS: u8 = b'c';

fn main() {
    for _ in 0..MOST_CASES {
        if !print_case() {
            break;
        }
    }
}

// Prints the next case, or returns false where there is none: it has no name.
fn print_case() -> bool {
    let mut name = io::buffer();
    let named = framed::read_part(&mut name);
    if named == 0 {
        return false;
    }
    io::write_all(STDOUT_FILENO, &name[..named]);
    answered::end_line();
    if next_sort() == CALLS {
        print_list();
    } else {
        print_printout();
    }
    true
}

// Reads the next case's sort.
fn next_sort() -> u8 {
    let mut sort = [0u8; 1];
    framed::read_part(&mut sort);
    sort[0]
}

// Reads a list of calls, runs it and prints its answers.
fn print_list() {
    let mut calls = io::large_buffer();
    let n = framed::read_part(&mut calls);
    answered::print_run(&calls[..n]);
}

// Reads an input and prints its printout.
fn print_printout() {
    let mut input = overlong_buffer();
    let n = framed::read_part(&mut input);
    printing::write_printout(&input[..n]);
}

// Room for more bytes than a printout reads: what is too much, it leaves out itself.
fn overlong_buffer() -> [u8; 2 * MOST_INPUT]
    ensures { 2 * most_input ≡ length result }
{
    [0; 2 * MOST_INPUT]
}
