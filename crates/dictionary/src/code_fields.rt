//! What is in the code field of a word, by the word that makes it.

/// `:`
pub const COLON: u16 = 1;

/// `CREATE` and `VARIABLE`
pub const VARIABLE: u16 = 2;

/// `CONSTANT`
pub const CONSTANT: u16 = 3;

/// `VOCABULARY`
pub const VOCABULARY: u16 = 4;
