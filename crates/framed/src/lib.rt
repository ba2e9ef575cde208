// Parts of standard input: a part is its length in three bytes, the lowest first, and then so many bytes. By `io` and not std's buffered
// reader, which would need a handle in each program and read ahead of a part.
#![tactic(auto)]

ghost use Rattle.io.specs.Counts.{IsPrefixLen};

use descriptors::STDIN_FILENO;

// Reads the next part to the front of the lent bytes and returns how many of its bytes were there: fewer than its length where standard
// input ends inside it, and 0, with none of them read, where the lent bytes have no room for it.
pub fn read_part(part: &mut [u8]) -> usize
    ensures { IsPrefixLen result part.new }
{
    let length = next_length();
    if part.len() < length {
        return 0;
    }
    io::read_full(STDIN_FILENO, &mut part[..length])
}

// Reads the three bytes of the next part's length; those that standard input does not have are 0.
fn next_length() -> usize {
    let mut head = [0u8; 4];
    io::read_full(STDIN_FILENO, &mut head[..3]);
    u32::from_le_bytes(head) as usize
}
