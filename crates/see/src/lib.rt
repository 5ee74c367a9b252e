//! What can be shown of the words of a dictionary.
#![tactic(auto)]

mod adding;
mod apart;
mod extent;
mod find;
mod front;
pub mod laws;
mod naming;
mod parts;
mod places;
mod plain;
mod printing;
mod refusal;
mod seeing;
mod structures;
mod thread;
mod thread_room;
mod viewing;
mod word_room;
mod words;

pub use parts::{Part, word_in};
pub use refusal::{SeeRefused, ViewRefused};
pub use seeing::{SeeRoom, see, see_in};
pub use thread_room::ThreadRoom;
pub use viewing::view;
pub use words::thread_words;
