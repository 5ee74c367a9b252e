//! Why a definition is refused.

ghost use Rattle.std.specs.Prelude.{◌≡◌};
ghost use Rattle.colon_bodies.specs.declared.fault.BodyCause.TheVariants.{Memory};

use std::alloc::{AllocError, AllocFailed};
use thiserror::Error;

/// Why a word is refused. A word that has several causes has the first of this list.
#[derive(Clone, Copy, Debug, Drop, PartialEq, Eq, Error)]
pub enum BodyCause {
    /// Memory was not found.
    #[error("out of memory")]
    Memory,
    /// It can't come there: what is half read doesn't allow it, it is a second DOES>, or it opens a 65th structure.
    #[error("Misplaced")]
    Misplaced,
    /// It doesn't fit the innermost open structure.
    #[error("Unbalanced")]
    Unbalanced,
    /// It writes a control primitive that has no name yet.
    #[error("Unknown")]
    Unknown,
    /// Its text has more than 255 bytes.
    #[error("BadName")]
    BadName,
    /// Its bytes pass the limit.
    #[error("Full")]
    Full,
    /// The words end, and the definition goes on.
    #[error("EndsInside")]
    EndsInside,
}

/// The first fault of some words.
#[derive(Clone, Copy, Debug, Drop, PartialEq, Eq, Error)]
#[error("word {place}: {cause}")]
pub struct BodyFault {
    /// The place of the word at fault, from 0; the count of the words if they end too early.
    pub place: usize,
    /// Its cause.
    pub cause: BodyCause,
}

impl From<AllocError> for BodyCause {
    ghost from_gives = { λ _ e. e ≡ Memory };

    fn from(_e: AllocError) -> BodyCause {
        BodyCause::Memory
    }
}

impl<T: Drop> From<AllocFailed<T>> for BodyCause {
    ghost from_gives = { λ _ e. e ≡ Memory };

    fn from(_e: AllocFailed<T>) -> BodyCause {
        BodyCause::Memory
    }
}
