//! Lines of one length with an end each, as they come: padding after them, the last end missing, the last screen not full.

use crate::bytes::{SCREEN, before, from, trimmed};
use crate::refusal::Refusal;
use containers::Layout;
use std::alloc::{AllocError, Global};

/// Adds blank lines that fill the last screen, if the lines so far are whole.
fn push_missing(made: &mut Vec<u8>, layout: &Layout, lines_from: usize) -> Result<(), AllocError> {
    let (pitch, held) = (layout.pitch(), SCREEN / layout.sector());
    let size = made.len().saturating_sub(lines_from);
    if size % pitch != 0 {
        return Ok(());
    }
    let lines = size / pitch;
    let full = lines.div_ceil(held.max(1)).saturating_mul(held);
    for _ in lines..full {
        let end = made.len().saturating_add(layout.sector());
        made.resize(end, b' ')?;
        made.extend_from_slice(layout.ending())?;
    }
    Ok(())
}

/// A container of lines, without padding after them, and filled up with blank lines to whole screens.
pub fn lined(alloc: Global, layout: &Layout, container: &[u8]) -> Result<Vec<u8>, AllocError> {
    let front = before(container, layout.offset());
    let lines = trimmed(from(container, layout.offset()));
    let (pitch, ending) = (layout.pitch(), layout.ending());
    let mut made = Vec::from_slice(alloc, front)?;
    made.extend_from_slice(lines)?;
    let is_open = !lines.is_empty() && !lines.ends_with(ending);
    if is_open && lines.len().saturating_add(ending.len()) % pitch == 0 {
        made.extend_from_slice(ending)?;
    }
    push_missing(&mut made, layout, front.len())?;
    Ok(made)
}

/// Whether bytes of lines have nothing but blanks and the bytes of their ends.
fn is_empty(lines: &[u8]) -> bool {
    lines
        .iter()
        .all(|byte| matches!(*byte, b' ' | b'\r' | b'\n'))
}

/// The container with these lines in its place, as long as it was, with its own padding.
pub fn unlined(
    alloc: Global,
    layout: &Layout,
    container: &[u8],
    made: &[u8],
) -> Result<Vec<u8>, Refusal> {
    let own = trimmed(from(container, layout.offset())).len();
    let held = layout.offset().saturating_add(own);
    if !is_empty(from(made, held)) {
        return Err(Refusal::LineBehind);
    }
    let mut whole = Vec::from_slice(alloc, before(made, held))?;
    whole.extend_from_slice(from(container, held))?;
    Ok(whole)
}
