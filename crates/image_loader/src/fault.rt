//! Why bytes are not read as an image.

use thiserror::Error;

/// Why bytes are not read as an image. Each fault is spelled as its variant.
#[derive(Clone, Copy, Debug, PartialEq, Eq, Error)]
pub enum ImageFault {
    /// The bytes are the beginning of a file, and end too soon.
    #[error("Truncated")]
    Truncated,
    /// The first bytes are not `FTH83IMG`.
    #[error("BadMagic")]
    BadMagic,
    /// The version is neither 1 nor 2.
    #[error("BadVersion")]
    BadVersion,
    /// The number of buffers is below 2 or above 16.
    #[error("BadBuffers")]
    BadBuffers,
    /// The size is below 256, or above where so many buffers begin.
    #[error("BadSize")]
    BadSize,
    /// There are bytes past the end of the file.
    #[error("TrailingBytes")]
    TrailingBytes,
    /// The bytes are a file, and there was no memory for its image.
    #[error("OutOfMemory")]
    OutOfMemory,
}
