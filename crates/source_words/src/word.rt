//! Words of a source.

/// A word of a source.
#[derive(Clone, Copy, Debug, PartialEq, Eq)]
pub struct Word<'a> {
    /// The screen that it is in.
    pub screen: u16,
    /// The place of its first byte there, from 0.
    pub offset: u16,
    /// Its bytes: one at least, and no blank.
    pub name: &'a [u8],
    /// If it is `."` or `ABORT"` in a body, the bytes from after the next blank to the quote or the end.
    pub text: Option<&'a [u8]>,
}
