//! Why a text can't be read. Each cause is spelled as its variant.

use thiserror::Error;

/// What is wrong with a line of a text.
#[derive(Clone, Copy, Debug, PartialEq, Eq, Drop, Error)]
pub enum Cause {
    /// The line's first byte that isn't text: below 32 and not a tab, or above 126.
    #[error("BadByte {0}")]
    BadByte(u8),
    /// The line begins with `%~`, and a `~` in it isn't followed by two hexadecimal digits (0 to 9, A to F).
    #[error("BadEscape")]
    BadEscape,
    /// More than 64 bytes.
    #[error("LongLine")]
    LongLine,
    /// The seventeenth line of a screen.
    #[error("FullScreen")]
    FullScreen,
    /// The line begins with one `%` and isn't a heading, `% screen N` with N from 0 to 65535.
    #[error("BadHeading")]
    BadHeading,
    /// A heading in a text that doesn't begin with one.
    #[error("LateHeading")]
    LateHeading,
    /// A second heading with the same number.
    #[error("NamedTwice")]
    NamedTwice,
    /// A line that would begin screen 65536, in a text without headings.
    #[error("NoScreen")]
    NoScreen,
    /// There is no memory left.
    #[error("out of memory")]
    OutOfMemory,
}

/// Why a text can't be read.
#[derive(Clone, Copy, Debug, PartialEq, Eq, Drop, Error)]
#[error("line {line}: {cause}")]
pub struct TextFault {
    /// The first line at fault, counted from 1.
    pub line: usize,
    pub cause: Cause,
}
