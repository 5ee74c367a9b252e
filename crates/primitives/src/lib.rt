//! The table of primitives: the row of every number.
#![tactic(auto)]

pub mod blocks;
mod compiling;
mod defining;
mod devices;
mod dictionary_rows;
mod editor;
mod interpret;
pub mod laws;
mod names;
mod numbers;
pub mod streams;
mod table;
mod text;
mod writing;

pub use table::{compile_row, device_row, editor_row, input_row, number_row, row};
