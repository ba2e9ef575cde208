// The common start of two lists of slots.
ghost use Rattle.std.specs.Prelude.{◌≡◌, ◌+◌, eqb};
ghost use Rattle.std.proofs.Math.Seq.{slice};
ghost use Rattle.lists.specs.Lists.{common_start};
ghost use Rattle.ordering.specs.Slots.{PartsAsk};

// The place at which the common start from `at` on of the first n of xs and the first m of ys ends: goes up from `at` as long as both
// lists have an element there and the two are the same.
pub fn common_start<'a>(
    xs: &'a [u16; 512],
    n: usize,
    ys: &'a [u16; 512],
    m: usize,
    at: usize,
) -> usize
    requires { PartsAsk xs.now n ys.now m at }
    ensures { result ≡ at + common_start eqb (slice at n xs.now) (slice at m ys.now) }
{
    // No call, the library's `min` included: a service trace has one line for one changed order.
    let end = if n < m { n } else { m };
    for place in at..end {
        if xs[place] != ys[place] {
            return place;
        }
    }
    end
}
