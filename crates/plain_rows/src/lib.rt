//! The rows of the table that ask nothing and read no input: numbers 1 to 107.
#![tactic(auto)]

mod cell;
mod control;
mod double;
mod ending;
mod groups;
pub mod laws;
mod memory_rows;
mod stack;

pub use cell::{flag, greater_of, halved, lesser, magnitude};
pub use double::double_of;
pub use groups::{cell_row, control_row, double_row, memory_row, stack_row};
pub use machine_parts::parts::{Outcome, Parts, Request, Span};
