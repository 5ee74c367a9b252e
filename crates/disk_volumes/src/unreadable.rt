//! Why a disk's file is not read.

use crate::kinds::Kind;
use crate::tracks::Tracks;
use thiserror::Error;

/// Why a disk's file is not read, as a sentence.
#[derive(Debug, Drop, Error)]
pub enum Unreadable {
    #[error("there is no memory left")]
    OutOfMemory,
    /// It is no blocks, and nothing says that it is to be read as blocks.
    #[error("it is {kind}; {advice}; --offset 0 takes its bytes as they are")]
    Known { kind: Kind, advice: &'static str },
    /// It has no directory that is read here.
    #[error("it is {kind}; {advice}")]
    NoDirectory { kind: Kind, advice: &'static str },
    /// It has tracks, whose sectors have no directory that is known here.
    #[error("it is {0}")]
    Tracks(Tracks),
    /// It is nothing that is known here.
    #[error("it is a file of sectors or text, without a directory that is known here")]
    Unknown,
    /// Its directory does not have the name.
    #[error("it has no file {name}; it has {names}")]
    NoFile { name: String, names: String },
    /// It ends within a track, or a sector has a size that does not exist.
    #[error("it is {0}, but it is damaged: one of its sectors is cut short, or has a size that is not known")]
    Damaged(Tracks),
    /// Its sectors are more than a file of blocks has.
    #[error("it has more than 65,536 screens, or one with a number above 65,535")]
    TooLarge,
    /// It is not written.
    #[error("it is {0}, which is read only")]
    ReadOnly(Tracks),
}

impl From<std::alloc::AllocError> for Unreadable {
    fn from(_: std::alloc::AllocError) -> Unreadable {
        Unreadable::OutOfMemory
    }
}
