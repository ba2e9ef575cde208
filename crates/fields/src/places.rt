// Where each field of a message stands, as the widths of `specs/` have it.

// The widths of the fields.
pub const LENGTH_WIDTH: usize = 2;

pub const KIND_WIDTH: usize = 2;

pub const BYTE: usize = 1;

pub const CLOCK_WIDTH: usize = 4;

pub const AMOUNT_WIDTH: usize = 4;

pub const WORD_WIDTH: usize = 8;

// Where each field begins.
pub const LENGTH_AT: usize = 0;

pub const KIND_AT: usize = LENGTH_AT + LENGTH_WIDTH;

pub const PANEL_AT: usize = KIND_AT + KIND_WIDTH;

pub const EVENT_AT: usize = PANEL_AT + BYTE;

pub const CLOCK_AT: usize = EVENT_AT + BYTE;

pub const CODE_AT: usize = CLOCK_AT + CLOCK_WIDTH;

pub const R_AT: usize = CODE_AT + BYTE;

pub const Q_AT: usize = R_AT + BYTE;

pub const SPARE_AT: usize = Q_AT + BYTE;

pub const AMOUNT_AT: usize = SPARE_AT + BYTE;

pub const CONTEXT_AT: usize = AMOUNT_AT + AMOUNT_WIDTH;

pub const HEAD_SIZE: usize = PANEL_AT;

pub const SETTLEMENT_SIZE: usize = CLOCK_AT;

pub const WEAK_SIZE: usize = CONTEXT_AT;

pub const STRONG_SIZE: usize = CONTEXT_AT + sets::WORDS * WORD_WIDTH;
