//! `run`: an image that is run, over values and over the files that the command line names.
#![tactic(auto)]

mod over_files;
mod run_command;

pub use over_files::{Run, run_image};
pub use run_command::do_run;
