//! Bytes that fill records and lines.

use std::alloc::AllocError;

/// How many bytes a screen has.
pub const SCREEN: usize = 1024;

/// How many bytes a line of a screen has.
pub const LINE: usize = 64;

/// How many lines a screen has.
pub const LINES: usize = 16;

/// How many screens a file of blocks has at most.
pub const MOST_SCREENS: usize = 65536;

/// Whether a byte is one that fills a record: ^Z, NUL, a blank or E5.
fn is_filler(byte: u8) -> bool {
    matches!(byte, 0x1a | 0 | b' ' | 0xe5)
}

/// Whether nothing is in these bytes but what fills records.
pub fn is_padding(bytes: &[u8]) -> bool {
    bytes.iter().all(|byte| is_filler(*byte))
}

/// The bytes up to the last one that isn't left out.
fn up_to(bytes: &[u8], last: Option<usize>) -> &[u8] {
    let end = match last {
        Some(at) => at.saturating_add(1),
        None => 0,
    };
    bytes.get(..end).unwrap_or(bytes)
}

/// Bytes without what fills a record at their end.
pub fn unfilled(bytes: &[u8]) -> &[u8] {
    up_to(bytes, bytes.iter().rposition(|byte| !is_filler(*byte)))
}

/// Bytes without the ^Z and NULs at their end.
pub fn trimmed(bytes: &[u8]) -> &[u8] {
    up_to(
        bytes,
        bytes.iter().rposition(|byte| !matches!(*byte, 0x1a | 0)),
    )
}

/// Whether a byte of Latin-1 counts as blank.
pub fn is_space(byte: u8) -> bool {
    matches!(byte, 9..=13 | 28..=32 | 0x85 | 0xa0)
}

/// A line without what is blank at its end.
pub fn without_spaces(line: &[u8]) -> &[u8] {
    up_to(line, line.iter().rposition(|byte| !is_space(*byte)))
}

/// Whether a part of a screen has nothing that is seen.
pub fn is_blank(bytes: &[u8]) -> bool {
    bytes.iter().all(|byte| matches!(*byte, 9..=13 | b' '))
}

/// Adds bytes, and blanks up to a width.
pub fn push_padded(into: &mut Vec<u8>, bytes: &[u8], width: usize) -> Result<(), AllocError> {
    let end = into.len().saturating_add(width);
    into.extend_from_slice(bytes)?;
    if into.len() < end {
        into.resize(end, b' ')?;
    }
    Ok(())
}

/// The bytes before a place, or all.
pub fn before(bytes: &[u8], at: usize) -> &[u8] {
    bytes.get(..at).unwrap_or(bytes)
}

/// The bytes from a place on, if there are any.
pub fn from(bytes: &[u8], at: usize) -> &[u8] {
    bytes.get(at..).unwrap_or(b"")
}

/// How many bytes whole pieces of this size have.
pub fn whole(bytes: usize, size: usize) -> usize {
    match bytes.checked_rem(size) {
        Some(rest) => bytes.saturating_sub(rest),
        None => 0,
    }
}
