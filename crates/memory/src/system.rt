//! The addresses that the system keeps for itself.

/// Not 0 while words are compiled.
pub const STATE: u16 = 16;

/// The base of numbers.
pub const BASE: u16 = 18;

/// The place in the input stream, `>IN`.
pub const TO_IN: u16 = 20;

/// The block that the input stream is in, 0 for the terminal's buffer.
pub const BLK: u16 = 22;

/// How many bytes the terminal's buffer has, `#TIB`.
pub const NUMBER_TIB: u16 = 24;

/// How many bytes EXPECT got.
pub const SPAN: u16 = 26;

/// The end of the dictionary: its cell is HERE.
pub const DP: u16 = 28;

/// The link field of the newest header.
pub const LAST: u16 = 30;

/// The vocabulary that is searched first.
pub const CONTEXT: u16 = 32;

/// The vocabulary that new headers go to.
pub const CURRENT: u16 = 34;

/// The place of a number's picture.
pub const HLD: u16 = 36;

/// The block of the line editor.
pub const SCR: u16 = 38;

/// The thread that goes on after a fault, 0 for none.
pub const FAULT: u16 = 40;

/// The record of the vocabulary FORTH.
pub const FORTH_VOC: u16 = 42;

/// The newest vocabulary record.
pub const VOC_LINK: u16 = 52;

/// Headers that begin below are not forgotten.
pub const FENCE: u16 = 54;

/// The runtime cell of control primitive `k` is at `RUNTIME_CELLS + 2 * k`.
pub const RUNTIME_CELLS: u16 = 64;

/// The terminal's buffer.
pub const TIB: u16 = 128;
