// Integers as little-endian bytes.
ghost use Rattle.std.specs.Prelude.{◌≡◌, ◌+◌, ◌^◌, ◌≤◌, ◌<◌, length};
ghost use Rattle.std.proofs.lemmas.List.Edits.{sets};
ghost use Rattle.fields.specs.Integers.{integer_at, integer_bytes, widest};

// The integer in the first `width` bytes of s from `at` on, the lowest byte first.
pub fn integer_at(s: &[u8], at: usize, width: usize) -> u64
    requires { (width ≤ widest) × (at + width ≤ length s.now) }
    ensures { (result ≡ integer_at s.now at width) × (result < 256 ^ width) }
{
    let mut v: u64 = 0;
    for i in (0..width).rev() {
        v = v * 256 + s[at + i] as u64;
    }
    v
}

// Writes v into the `width` bytes of out from `at` on, the lowest byte first.
pub fn put_integer(out: &mut [u8], at: usize, width: usize, v: u64)
    requires { at + width ≤ length out.old }
    ensures { out.new ≡ sets out.old at (integer_bytes width v) }
{
    let mut left = v;
    for i in 0..width {
        out[at + i] = (left % 256) as u8;
        left /= 256;
    }
}

// The integer in the eight bytes of s from `at` on, which the library's reading of an array compiles to one load.
pub(crate) fn word_at(s: &[u8], at: usize) -> u64
    requires { at + widest ≤ length s.now }
    ensures { result ≡ integer_at s.now at widest }
{
    match s[at..].first_chunk::<8>() {
        Some(bytes) => u64::from_le_bytes(*bytes),
        None => unreachable!(),
    }
}
