// The most bytes of the lines, as `Sizes` of `specs/` has them.
use request::operations;

pub const MOST_BOARD_BYTES: usize = 14;

// Of a message, whether it can be read or not.
pub const MOST_MESSAGE_BYTES: usize = 40;

pub const MOST_TOTALS_BYTES: usize = 67;

const MOST_REGISTER_BYTES: usize = 23;

// Of all registers together.
pub const MOST_REGISTERS_BYTES: usize = (operations::LAST_REGISTER as usize + 1)
    * MOST_REGISTER_BYTES;
