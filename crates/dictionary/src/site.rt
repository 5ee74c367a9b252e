//! The place of a new header.

/// What a new header takes from memory. It is read before anything is written.
#[derive(Clone, Copy, Debug, PartialEq, Eq)]
pub struct Site {
    /// Where it is written.
    pub here: u16,
    /// The block in which it is made.
    pub view: u16,
    /// The newest header of its chain, 0 for none.
    pub link: u16,
    /// Where the head of its chain is.
    pub head: u16,
}
