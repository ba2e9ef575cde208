// The printout of an input, written to standard output, by `io` and no `println!`: it goes out in one piece, unbuffered, as it always did.
#![tactic(auto)]

ghost use Rattle.std.specs.Prelude.{◌≡◌, length, take};
ghost use Rattle.printed.specs.Printout.{most_input, most_printed, printout};

use descriptors::{STDERR_FILENO, STDOUT_FILENO};
use sheet::MOST_PRINTED;

// Room for the longest printout.
fn page() -> [u8; MOST_PRINTED]
    ensures { most_printed ≡ length result }
{
    [0; MOST_PRINTED]
}

// Writes a text to standard output; where it could not be written, a line on standard error says so.
fn write_text(text: &[u8]) {
    if !io::write_all(STDOUT_FILENO, text) {
        io::write_all(
            STDERR_FILENO,
            b"printout: the output could not be written\n",
        );
    }
}

// Writes the printout of the input to standard output and returns how many bytes it has.
pub fn write_printout(input: &[u8]) -> usize
    ensures { result ≡ length (printout (take most_input input.now)) }
{
    let mut out = page();
    let n = sheet::print(&mut out, input);
    write_text(&out[..n]);
    n
}
