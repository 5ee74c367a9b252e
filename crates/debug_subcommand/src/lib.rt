//! What `debug` does, prints and ends with; and over the files that the command line names.
#![tactic(auto)]

mod cause;
mod debug_command;
mod over_files;

pub use debug_command::do_debug;
pub use over_files::{Debugged, debug_word};
