// A set of numbers without the requests at some places of an order, as the known set without those that come after a request.
ghost use Rattle.std.specs.Prelude.{◌≡◌};
ghost use Rattle.std.proofs.Math.Seq.{slice};
ghost use Rattle.sets.specs.Sets.{set_of};
ghost use Rattle.ordering.specs.Slots.{Part, without};

// Takes the numbers of the slots at places from..to of the order out of the set of these words.
pub fn take_out<'a>(words: &mut [u64; 8], order: &'a [u16; 512], from: usize, to: usize)
    requires { Part order.now from to }
    ensures { set_of words.new ≡ without (set_of words.old) (slice from to order.now) }
{
    for at in from..to {
        let (panel, bit) = numbers::digits(order[at]);
        words[panel] ^= words[panel] & (1u64 << bit);
    }
}
