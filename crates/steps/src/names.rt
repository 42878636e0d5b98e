// The numbers of the SASwap sheet's signatures and transactions, by document 01's names, as far as conduct asks for them.
// specs/Names.antt and specs/Decode.antt have the same names.
pub const SIG_ALICE: u8 = 0;

pub const SECRET_ALICE: u8 = 2;

pub const SECRET_BOB: u8 = 3;

pub const LOCK_A: usize = 0;

pub const LOCK_B: usize = 1;

pub const SUCCESS: usize = 2;

// success as a step's byte
pub const SUCCESS_BYTE: u8 = 2;

pub const REFUND_1: usize = 3;

pub const SPEND_B: usize = 8;

// the byte of a step that names no transaction: a step's fields are the journal's bytes (specs/Decode.antt)
pub const NO_TRANSACTION: u8 = 255;
