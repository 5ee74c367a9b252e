//! `unpack`, `pack` and `guess` over the files that the command line names.
#![tactic(auto)]

mod guessing;
mod options;
mod packing;
mod refusing;
mod unpacking;

pub use guessing::{Guess, guess_order};
pub use options::{OldDisk, Unpacking};
pub use packing::pack_disk;
pub use unpacking::unpack_disk;
