//! Compiling words: what they write at HERE, the places that they leave open and fill later, and how a colon definition
//! begins and ends (Forth-83 Standard, "compiling words").
//!
//! Each call writes its bytes at HERE, then DP after them, and nothing else but what it names. `Full` comes if HERE
//! and the bytes pass the limit, where the block buffers begin; nothing is written then. Nothing is assumed of memory, and
//! no structure is checked.
#![tactic(auto)]

mod control;
mod definitions;
mod laying;
mod marks;
mod text;

pub use control::{control_code, literal_code, runtime};
pub use definitions::{begin_definition, end_definition};
pub use laying::{Full, allot, can_allot, comma, comma_byte, lay, literal};
pub use marks::{mark_back, mark_forward, resolve_back, resolve_forward};
pub use memory::controls::Control;
pub use text::{TextWord, inline_text, lay_text, runtime_of};
