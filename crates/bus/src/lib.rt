// The reader of bus messages: it keeps the lent run of bytes and its place in it, and gives one message at a time.
//
// The work is `wire::reader::read`'s, which takes a run of bytes and a place as plain parameters and serves every other caller.
// That a refusal and the end leave the place is in `proofs/PlaceLaws.antt`.
#![tactic(auto)]

ghost use Rattle.std.specs.Prelude.{◌≡◌};
ghost use Rattle.bus.specs.Place.{opened, outcome, advanced};
ghost use Rattle.wire.specs.Reader.{outcome_of};

use request::refusal::Refusal;
use wire::Reading;

// A lent run of bytes and the place of the next message in it.
#[derive(Drop)]
pub struct Reader<'a> {
    bytes: &'a [u8],
    at: usize,
}

impl<'a> Reader<'a> {
    // A reader at the start of a run of bytes.
    pub fn new(bytes: &'a [u8]) -> Reader<'a>
        ensures { result ≡ opened bytes.entry }
    {
        Reader { bytes, at: 0 }
    }

    // The message at the reader's place, which moves by the bytes taken: not at all for the end or a refusal.
    pub fn next_message(&mut self) -> Result<Option<Reading>, Refusal>
        ensures { (outcome_of result ≡ outcome self.old) × (self.new ≡ advanced self.old) }
    {
        let read = wire::read(self.bytes, self.at);
        if let Ok(Some(reading)) = read {
            self.at += reading.taken;
        }
        read
    }
}
