//! Bodies of colon definitions: the thread that a body's words compile to, the one pass that compiles them, and what is
//! wrong with words that are no body's. Names are looked up and addresses are chosen by the caller.
#![tactic(auto)]

mod compiling;
mod controls;
mod draft;
mod fault;
mod image;
pub mod laws;
mod rules;
mod steps;
mod words;

pub use compiling::{compile, finish, take_word};
pub use controls::cell_of;
pub use draft::{Draft, Mark};
pub use fault::{BodyCause, BodyFault};
pub use image::{lay_cell, patch};
pub use rules::{half_behind, is_semicolon};
pub use words::{BodyWord, Half};
