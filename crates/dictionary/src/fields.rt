//! What a header says.

/// What a header says.
#[derive(Clone, Copy, Debug, PartialEq, Eq)]
pub struct Header {
    /// The block in which it was made.
    pub view: u16,
    /// The link field of the preceding header of its chain, 0 for none.
    pub link: u16,
    /// How many bytes its name has, 0 to 31.
    pub length: u8,
    /// Whether the interpreter does it also while it compiles.
    pub immediate: bool,
    /// Whether no search finds it.
    pub hidden: bool,
    /// The address of its code field, which is what is compiled for it.
    pub compilation_address: u16,
}
