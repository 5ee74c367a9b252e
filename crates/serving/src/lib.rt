//! A server: a host drives a machine by frames. Each request is one of a list, and what the requests leave, what the device is given for
//! them and what they reply is a fold over them.
#![tactic(auto)]

mod any_word;
mod frames;
pub mod laws;
mod listing;
mod looking;
mod obeying;
mod putting;
mod replies;
mod requests;
mod running;
mod saving;
mod serving;
mod state;
mod taking;
mod text;

pub use any_word::AnyWord;
pub use listing::Room;
pub use obeying::{obey, obey_in_place};
pub use replies::Standing;
pub use requests::{Command, Listing, command_of, is_quit};
pub use running::{Next, run};
pub use saving::save;
pub use serving::{Ending, serve};
pub use taking::{Taken, frame_room, take_frame};
