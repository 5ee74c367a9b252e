//! The numbers of the machine's faults, each with what it says.

/// Data stack too shallow.
pub const DATA_UNDERFLOW: u16 = 1;

/// Data stack too deep.
pub const DATA_OVERFLOW: u16 = 2;

/// Return stack too shallow.
pub const RETURN_UNDERFLOW: u16 = 3;

/// Return stack too deep.
pub const RETURN_OVERFLOW: u16 = 4;

/// Division.
pub const DIVISION: u16 = 5;

/// Unknown code.
pub const UNKNOWN_CODE: u16 = 6;

/// Block not available.
pub const NO_BLOCK: u16 = 7;

/// Dictionary full.
pub const DICTIONARY_FULL: u16 = 8;

/// A block can't be read.
pub const READ_FAILED: u16 = 9;

/// A block can't be written.
pub const WRITE_FAILED: u16 = 10;

/// A chain of more than 32,768 headers.
pub const CHAIN_TOO_LONG: u16 = 11;

/// BASE is outside 2 to 72.
pub const BAD_BASE: u16 = 12;

/// Name not found, or fenced.
pub const NOT_FOUND: u16 = 13;

/// Length of a name or a text.
pub const BAD_LENGTH: u16 = 15;

/// Block 0 loaded.
pub const BLOCK_ZERO: u16 = 16;

/// ABORT" taken.
pub const ABORTED: u16 = 17;
