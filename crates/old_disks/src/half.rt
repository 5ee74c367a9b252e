//! Half screens: 16 lines of 32 characters.

use crate::bytes::{LINE, LINES, before, from, is_blank, push_padded, whole};
use crate::refusal::Refusal;
use std::alloc::{AllocError, Global};

/// How many bytes a half screen has.
pub const HALF: usize = 512;

/// How many characters a line of it has.
const SHORT: usize = 32;

/// Half screens as whole ones.
pub fn widened(alloc: Global, bytes: &[u8]) -> Result<Vec<u8>, AllocError> {
    let mut made = Vec::new(alloc);
    for line in before(bytes, whole(bytes.len(), HALF)).chunks(SHORT) {
        push_padded(&mut made, line, LINE)?;
    }
    Ok(made)
}

/// Screens as half ones; `first` is the number of the first one. A line of more than 32 characters is refused.
pub fn narrowed(alloc: Global, screens: &[u8], first: usize) -> Result<Vec<u8>, Refusal> {
    let mut made = Vec::new(alloc);
    for (at, line) in screens.chunks(LINE).enumerate() {
        if !is_blank(from(line, SHORT)) {
            return Err(Refusal::WideLine {
                screen: first.saturating_add(at / LINES),
                line: at % LINES,
            });
        }
        made.extend_from_slice(before(line, SHORT))
            .map_err(|_| Refusal::OutOfMemory)?;
    }
    Ok(made)
}
