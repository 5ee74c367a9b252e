//! The input stream and its words.
#![tactic(auto)]

mod placing;
mod streams;
mod words;

pub use placing::{TooLong, place_word, word_bytes};
pub use streams::{NeedsBlock, stream};
pub use words::{Stream, Word, next_word, parse_to, stream_law, word_law};
