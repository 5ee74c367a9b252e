//! The files that the command line names, and the standard streams, as subcommands are handed them. If one can't be used as
//! it is named that is printed, and the program's status is the error.
#![tactic(auto)]

mod file_log;
mod files;
mod keeping;
mod opening;
mod places;
mod refusals;
mod step_log;
mod streams;
mod use_log;

pub use file_log::{FileLog, NamedBytes};
pub use files::{Ends, Files, Guards, Places, SystemFiles, write_made};
pub use places::{blocks_of, read_screen, word_before, word_behind};
pub use refusals::out_of_memory;
pub use step_log::Deed;
pub use streams::standard_output;
pub use use_log::UseLog;
