//! The names of files.

use std::alloc::{AllocError, Global};

/// Whether a character of Latin-1 counts as blank.
fn is_space(byte: u8) -> bool {
    matches!(byte, 9..=13 | 28..=32 | 0x85 | 0xa0)
}

/// Bytes without what is blank before and after them.
fn trimmed(bytes: &[u8]) -> &[u8] {
    let Some(first) = bytes.iter().position(|byte| !is_space(*byte)) else {
        return b"";
    };
    let last = bytes.iter().rposition(|byte| !is_space(*byte));
    let end = last.map_or(0, |at| at.saturating_add(1));
    bytes.get(first..end).unwrap_or(b"")
}

/// The characters of Latin-1 that bytes are, with `?` for each that is not seen, so that a name is one line.
pub fn latin(alloc: Global, bytes: &[u8]) -> Result<String, AllocError> {
    let mut text = String::new(alloc);
    for byte in bytes {
        let is_seen = matches!(*byte, b' '..=b'~' | 0xa0..=0xff);
        text.push(if is_seen { char::from(*byte) } else { '?' })?;
    }
    Ok(text)
}

/// The same, without what is blank before and after it.
pub fn latin_trimmed(alloc: Global, bytes: &[u8]) -> Result<String, AllocError> {
    latin(alloc, trimmed(bytes))
}
