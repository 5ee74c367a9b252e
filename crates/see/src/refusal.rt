//! Why a word isn't shown. Each refusal is spelled as its variant.

ghost use Rattle.std.specs.Prelude.{◌≡◌};
ghost use Rattle.see.specs.declared.refusal.SeeRefused.TheVariants.{OutOfMemory};

use std::alloc::{AllocError, AllocFailed};
use thiserror::Error;

/// Why the view cell of a word isn't shown.
#[derive(Clone, Copy, Debug, PartialEq, Eq, Error)]
pub enum ViewRefused {
    /// No unhidden header has the name.
    #[error("NotFound")]
    NotFound,
    /// A chain is longer than 32,768 headers without a find.
    #[error("ChainTooLong")]
    ChainTooLong,
}

/// Why a word isn't shown. The causes are found in this order; those of names, numbers and texts by their places.
#[derive(Clone, Copy, Debug, Drop, PartialEq, Eq, Error)]
pub enum SeeRefused {
    /// No unhidden header has the name.
    #[error("NotFound")]
    NotFound,
    /// A chain that is searched is longer than 32,768 headers without a find, or more than 32,768 headers and records are
    /// reached in all.
    #[error("ChainTooLong")]
    ChainTooLong,
    /// It isn't a colon word.
    #[error("NotColon")]
    NotColon,
    /// The bytes from its parameter field to the next header are the thread of no body, or two runtime cells are equal and
    /// not 0.
    #[error("NotStructured")]
    NotStructured,
    /// No header has this compilation address, or its name is empty or has a blank.
    #[error("Nameless {0}")]
    Nameless(u16),
    /// The search of a name, the word itself being hidden, doesn't give its compilation address, or the search of a number's
    /// text doesn't end with none.
    #[error("Shadowed")]
    Shadowed,
    /// A text has a quote.
    #[error("BadText")]
    BadText,
    /// There was no memory.
    #[error("out of memory")]
    OutOfMemory,
}

impl From<AllocError> for SeeRefused {
    ghost from_gives = { λ _ e. e ≡ OutOfMemory };

    fn from(_e: AllocError) -> SeeRefused {
        SeeRefused::OutOfMemory
    }
}

impl<T: Drop> From<AllocFailed<T>> for SeeRefused {
    ghost from_gives = { λ _ e. e ≡ OutOfMemory };

    fn from(_e: AllocFailed<T>) -> SeeRefused {
        SeeRefused::OutOfMemory
    }
}
