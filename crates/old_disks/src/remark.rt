//! What is said of a container that was read or written.

use thiserror::Error;

/// What is said of a container that was read or written, if not all of it was, or more than it has.
#[derive(Clone, Copy, Debug, Drop, Error)]
pub enum Remark {
    #[error("{bytes} bytes after the last screen are padding, so they are left out")]
    Padding { bytes: usize },
    #[error("{bytes} bytes after the last whole screen are screen {screen}, filled with blanks")]
    Filled { bytes: usize, screen: usize },
    #[error("{bytes} bytes after the last half screen are left out")]
    HalfLeft { bytes: usize },
    #[error("screens from {screen} on are blank or a dialect's, so they are left out")]
    Spare { screen: usize },
}
