//! What `load` does, prints and ends with; and over the files that the command line names.
#![tactic(auto)]

mod cause;
mod load_command;
mod over_files;

pub use load_command::do_load;
pub use over_files::{Load, load_screens};
