// The calls on bytes without a panel: a message read, and one written. Each lent slice crosses as a pointer and a length.
ghost use Rattle.std.specs.Prelude.{◌≡◌};
ghost use Rattle.wire.specs.Reader.{read_at};
ghost use Rattle.c_messages.specs.Messages.{message_for, read_from, Wrote};

use c_messages::{Message, Reading, Written};

// Reads the message at a place of `bytes`; at the end nothing is taken and nothing refused.
#[unsafe(no_mangle)]
pub extern "C" fn mizzencord_read(bytes: &[u8], at: usize) -> Reading
    ensures { result ≡ read_from (read_at bytes.now at) }
{
    c_messages::read(bytes, at)
}

// Writes a message at the front of `out`: exactly its bytes, or nothing where it is refused.
#[unsafe(no_mangle)]
pub extern "C" fn mizzencord_write(message: Message, out: &mut [u8]) -> Written
    ensures { Wrote (message_for message) out.old out.new result }
{
    c_messages::write(message, out)
}
