//! Numbers that were read.

/// A number that a text spells, as it goes on the stack: with a last `.` two cells, else one.
#[derive(Clone, Copy, Debug, PartialEq, Eq)]
pub enum Number {
    /// The low 16 bits of the number.
    Single(u16),
    /// The number modulo 2^32.
    Double(u32),
}
