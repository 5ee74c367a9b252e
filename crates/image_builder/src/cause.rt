//! Why a source is refused.

ghost use Rattle.std.specs.Prelude.{◌≡◌};
ghost use Rattle.image_builder.specs.declared.cause.Cause.TheVariants.{OutOfMemory};
ghost use Rattle.image_builder.specs.Causes.{cause_of};

use colon_bodies::BodyCause;
use std::alloc::{AllocError, AllocFailed};
use thiserror::Error;

/// Why a source is refused. A word that has several causes has the first of this list.
#[derive(Clone, Copy, Debug, Drop, PartialEq, Eq, Error)]
pub enum Cause {
    /// Memory was not found.
    #[error("out of memory")]
    OutOfMemory,
    /// The source ends within an item.
    #[error("EndsInside")]
    EndsInside,
    /// A double or a negative ALLOT outside bodies.
    #[error("BadNumber")]
    BadNumber,
    /// A number that PRIM can't name: the table has no such primitive, it is below 5, or its control has a name already.
    #[error("BadPrimitive")]
    BadPrimitive,
    /// A word that can't come there.
    #[error("Misplaced")]
    Misplaced,
    /// A word that doesn't fit the innermost open structure.
    #[error("Unbalanced")]
    Unbalanced,
    /// A word that is neither keyword, name nor number, or that writes a control primitive which has no name yet.
    #[error("Unknown")]
    Unknown,
    /// A name of more than 31 bytes, or a text of more than 255.
    #[error("BadName")]
    BadName,
    /// The bytes of a word pass the end of the dictionary.
    #[error("Full")]
    Full,
    /// The source has no BOOT.
    #[error("NoBoot")]
    NoBoot,
    /// A screen isn't the device's, or couldn't be read.
    #[error("Device")]
    Device,
}

/// Why and where a source is refused.
#[derive(Clone, Copy, Debug, Drop, PartialEq, Eq, Error)]
#[error("screen {screen} offset {offset}: {cause}")]
pub struct BuildFault {
    /// The screen.
    pub screen: u16,
    /// The place of the word at fault in its screen, from 0; 1,024 after the last word.
    pub offset: u16,
    /// The cause.
    pub cause: Cause,
}

impl From<AllocError> for Cause {
    ghost from_gives = { λ _ e. e ≡ OutOfMemory };

    fn from(_e: AllocError) -> Cause {
        Cause::OutOfMemory
    }
}

impl<T: Drop> From<AllocFailed<T>> for Cause {
    ghost from_gives = { λ _ e. e ≡ OutOfMemory };

    fn from(_e: AllocFailed<T>) -> Cause {
        Cause::OutOfMemory
    }
}

impl From<BodyCause> for Cause {
    ghost from_gives = { λ r e. e ≡ cause_of r };

    fn from(r: BodyCause) -> Cause {
        match r {
            BodyCause::Memory => Cause::OutOfMemory,
            BodyCause::Misplaced => Cause::Misplaced,
            BodyCause::Unbalanced => Cause::Unbalanced,
            BodyCause::Unknown => Cause::Unknown,
            BodyCause::BadName => Cause::BadName,
            BodyCause::Full => Cause::Full,
            BodyCause::EndsInside => Cause::EndsInside,
        }
    }
}
