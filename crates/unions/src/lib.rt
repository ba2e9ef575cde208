// Sets of numbers in lent words: how many numbers one has that another lacks, and one put into another.
#![tactic(auto)]

ghost use Rattle.std.specs.Prelude.{◌≡◌, length};
ghost use Rattle.numbers.specs.Numbers.{most_panels};
ghost use Rattle.unions.specs.Lacked.{lacked_bits, lacked_count};
ghost use Rattle.unions.specs.Union.{United};

// How many bits the first word has that the second lacks.
fn lacked_bits(word: u64, other: u64) -> usize
    ensures { result ≡ lacked_bits word other }
{
    let lacked = word - (word & other);
    lacked.count_ones() as usize
}

// How many numbers the first set has that the second lacks.
pub fn lacked_count<'a>(words: &'a [u64; 8], others: &'a [u64; 8]) -> usize
    ensures { result ≡ lacked_count words.now others.now }
{
    words
        .iter()
        .zip(others)
        .map(|(word, other)| lacked_bits(*word, *other))
        .sum()
}

// Puts the numbers of the second set into the first.
pub fn join_all(words: &mut [u64; 8], others: &[u64; 8])
    requires { length words.old ≡ most_panels }
    ensures { United words.old others.now words.new }
{
    for (i, other) in others.iter().enumerate() {
        words[i] |= *other;
    }
}
