//! What a disk's file is, its sectors, and the files that its directory names.
#![tactic(auto)]

mod apple;
mod bytes;
mod commodore;
mod cpm;
mod directory;
mod dmk;
mod fat;
mod imagedisk;
mod kinds;
mod lif;
mod names;
mod reading;
mod rt11;
mod tracks;
mod unreadable;

pub use directory::Directory;
pub use kinds::{Kind, kind_of};
pub use reading::{Asked, list_files, read_disk};
pub use tracks::{Sectors, Tracks, is_tracks, sectors_of};
pub use unreadable::Unreadable;
