//! DEBUG: a run, and a line before each tick of one word's thread.
#![tactic(auto)]

mod debugging;
mod fault;
mod lines;
mod word;

pub use debugging::debug;
pub use fault::DebugFault;
pub use lines::send_line;
pub use word::{Word, extent_in, word_of};
