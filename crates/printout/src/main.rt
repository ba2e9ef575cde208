// The printout program: at most 65,536 bytes of standard input, and on standard output the printout of them.
#![tactic(auto)]

use descriptors::STDIN_FILENO;

fn main() {
    let mut input = io::large_buffer();
    let n = io::read_full(STDIN_FILENO, &mut input);
    printing::write_printout(&input[..n]);
}
