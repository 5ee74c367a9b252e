//! Why a call of the dictionary is refused. Each fault is spelled as its variant.

use thiserror::Error;

/// More than 32,768 headers in one chain, and the name isn't among these.
#[derive(Clone, Copy, Debug, PartialEq, Eq, Error)]
#[error("ChainTooLong")]
pub struct ChainTooLong;

/// Why no header was added.
#[derive(Clone, Copy, Debug, PartialEq, Eq, Error)]
pub enum AddFault {
    /// The name is empty, or has more than 31 bytes.
    #[error("NameLength")]
    NameLength,
    /// The header, with what is written with it, would end after where the block buffers begin.
    #[error("Full")]
    Full,
}

/// Why nothing was forgotten.
#[derive(Clone, Copy, Debug, PartialEq, Eq, Error)]
pub enum ForgetFault {
    /// The name is empty.
    #[error("NameLength")]
    NameLength,
    /// CURRENT's vocabulary has no unhidden header of that name, or it begins below FENCE.
    #[error("NotFound")]
    NotFound,
    /// A chain is longer than 32,768 headers without a find, or more than 32,768 headers and records are reached.
    #[error("ChainTooLong")]
    ChainTooLong,
}

/// Why there is no list of headers.
#[derive(Clone, Copy, Debug, PartialEq, Eq, Error)]
pub enum HeadersFault {
    /// More than 32,768 headers and records are reached, each as often as it is reached.
    #[error("ChainTooLong")]
    ChainTooLong,
    /// There was no memory for the list.
    #[error("OutOfMemory")]
    OutOfMemory,
}
