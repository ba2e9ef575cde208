// A message's kind and its size.
ghost use Rattle.std.specs.Prelude.{◌≡◌};
ghost use Rattle.wire.specs.Message.{kind_of, size_of};

use super::{Kind, Message};

impl Message {
    // The kind of a message.
    pub fn kind(self) -> Kind
        ensures { result ≡ kind_of self }
    {
        match self {
            Message::Request(r) if r.asked.strong => Kind::Strong,
            Message::Request(_) => Kind::Weak,
            Message::Settlement(_) => Kind::Settlement,
        }
    }

    // The bytes that a message has.
    pub fn size(self) -> usize
        ensures { result ≡ size_of self }
    {
        self.kind().least_size()
    }
}
