//! The rows of the words of the resident compiler and of INTERPRET's thread, by their names; those of controls are in
//! `memory::controls`.

/// `EXECUTE`
pub const EXECUTE: u16 = 15;

/// `?DUP`
pub const QUESTION_DUP: u16 = 39;

/// `0>`
pub const ZERO_GREATER: u16 = 77;

/// `(`
pub const PAREN: u16 = 145;

/// `(INTERPRET)`
pub const INTERPRET: u16 = 149;

/// `:`
pub const COLON: u16 = 168;

/// `;`
pub const SEMICOLON: u16 = 169;

/// `[']`
pub const BRACKET_TICK: u16 = 176;

/// `[COMPILE]`
pub const BRACKET_COMPILE: u16 = 177;

/// `DOES>`
pub const DOES: u16 = 178;

/// `IF`
pub const IF: u16 = 179;

/// `ELSE`
pub const ELSE: u16 = 180;

/// `THEN`
pub const THEN: u16 = 181;

/// `BEGIN`
pub const BEGIN: u16 = 182;

/// `UNTIL`
pub const UNTIL: u16 = 183;

/// `WHILE`
pub const WHILE: u16 = 184;

/// `REPEAT`
pub const REPEAT: u16 = 185;

/// `AGAIN`
pub const AGAIN: u16 = 186;

/// `DO`
pub const DO: u16 = 187;

/// `LOOP`
pub const LOOP: u16 = 188;

/// `+LOOP`
pub const PLUS_LOOP: u16 = 189;

/// `."`
pub const DOT_QUOTE: u16 = 190;

/// `ABORT"`
pub const ABORT_QUOTE: u16 = 191;
