// Text put at the front of lent bytes.
//
// Every function puts one text of `specs/Text` at the front of `out`, leaves every byte behind it alone and returns how many bytes it
// has. `out` must have room for the text: these are the parts of a printout, and whoever lends the bytes for a whole one tests their
// length. The laws that put a printout together from its parts are in `proofs/WrittenLaws`.
#![tactic(auto)]

ghost use Rattle.std.specs.Prelude.{[], ◌∷◌, ◌++◌};
ghost use Rattle.text.specs.Text.{decimal, numbers, rest_of_line, line};
ghost use Rattle.text.specs.Written.{Room, Written};

// Puts all those bytes.
pub fn put_bytes(out: &mut [u8], bytes: &[u8]) -> usize
    requires { Room out.old bytes.now }
    ensures { Written out.old bytes.now out.new result }
{
    let n = bytes.len();
    out[..n].copy_from_slice(bytes);
    n
}

// Puts n in decimal.
pub fn put_number(out: &mut [u8], n: u64) -> usize
    requires { Room out.old (decimal n) }
    ensures { Written out.old (decimal n) out.new result }
{
    let mut digits = [0u8; 20];
    let count = io::decimal(n, &mut digits);
    put_bytes(out, &digits[..count])
}

// Puts `label` and then n in decimal.
pub fn put_labelled(out: &mut [u8], label: &[u8], n: u64) -> usize
    requires { Room out.old (label.now ++ decimal n) }
    ensures { Written out.old (label.now ++ decimal n) out.new result }
{
    let at = put_bytes(out, label);
    at + put_number(&mut out[at..], n)
}

// Puts each number of `ns` with a space in front of it, and then the line's end.
pub fn end_line(out: &mut [u8], ns: &[u64]) -> usize
    requires { Room out.old (rest_of_line (numbers ns.now)) }
    ensures { Written out.old (rest_of_line (numbers ns.now)) out.new result }
{
    let mut at = 0;
    for n in ns {
        at += put_labelled(&mut out[at..], b" ", *n);
    }
    at + put_bytes(&mut out[at..], b"\n")
}

// Puts a line: `head`, and then each number of `ns` with a space in front of it.
#[tactic(auto, unfolding(crate::specs::Text::line))]
pub fn put_line(out: &mut [u8], head: &[u8], ns: &[u64]) -> usize
    requires { Room out.old (line (head.now ∷ numbers ns.now)) }
    ensures { Written out.old (line (head.now ∷ numbers ns.now)) out.new result }
{
    let at = put_bytes(out, head);
    at + end_line(&mut out[at..], ns)
}
