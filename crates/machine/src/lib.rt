//! The machine: it takes tokens and does their rows, asks and is answered.
#![tactic(auto)]

mod act;
mod extent;
mod in_place;
mod lent_machine;
mod machine;
mod outside;
mod registers;
mod rest;
mod steps;
mod stretches;

pub use act::{Act, Answer, Cause, Event, Refused, Shown, Stretch};
pub use extent::Extent;
pub use lent_machine::{BadSize, LentMachine, SaveRefused, saved_in_place};
pub use machine::Machine;
pub use registers::{Registers, halt_numbers, halt_of, mark, marked, wait_numbers, wait_of};
pub use rest::{Parted, Rest, over, part};
