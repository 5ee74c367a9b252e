//! Why a container can't be read or written. Each cause is spelled as its variant.

use thiserror::Error;

/// What is wrong with a layout, a container or the screens for it.
#[derive(Clone, Copy, Debug, PartialEq, Eq, Drop, Error)]
pub enum Cause {
    /// Sectors of this size don't fill a screen of 1,024 bytes exactly.
    #[error("BadSector")]
    BadSector,
    /// The order of a track's sectors doesn't have each of their places once, or has more than 1,024.
    #[error("BadSkew")]
    BadSkew,
    /// The container is shorter than its offset, ends within a track, has no whole screen, or doesn't have as many shadows
    /// as screens.
    #[error("CutShort")]
    CutShort,
    /// The container has more than 65,536 screens.
    #[error("TooLarge")]
    TooLarge,
    /// The sector at this place on the disk, counted from 0, doesn't have its ending.
    #[error("NoEnding {0}")]
    NoEnding(usize),
    /// The blocks end in the middle of one.
    #[error("CutBlock")]
    CutBlock,
    /// There are more screens than the container has room for.
    #[error("NoRoom")]
    NoRoom,
    /// There is no memory left.
    #[error("out of memory")]
    OutOfMemory,
}
