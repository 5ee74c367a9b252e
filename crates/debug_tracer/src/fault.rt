//! Why a word isn't traced.

use thiserror::Error;

/// Why a word isn't traced. Each is spelled as its variant.
#[derive(Clone, Copy, Debug, PartialEq, Eq, Error)]
pub enum DebugFault {
    /// No unhidden header has the name.
    #[error("NotFound")]
    NotFound,
    /// A chain is longer than 32,768 headers without a find, or more than 32,768 headers and records are reached in all.
    #[error("ChainTooLong")]
    ChainTooLong,
    /// The word's code field isn't that of a colon definition.
    #[error("NotColon")]
    NotColon,
    /// There is no memory for the names, or for the line of typed bytes.
    #[error("out of memory")]
    OutOfMemory,
}
