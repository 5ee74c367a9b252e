//! What the rows of the table work on and answer: the machine's parts, outcomes and requests, faults, and writes that the index is
//! said of.
#![tactic(auto)]

mod ending;
pub mod faults;
pub mod laws;
pub mod parts;
mod writing;

pub use ending::leave;
