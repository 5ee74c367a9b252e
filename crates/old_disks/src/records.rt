//! Records of one width, as cards are, in place of lines of 64 characters.

use crate::bytes::{LINE, LINES, MOST_SCREENS, SCREEN, before, push_padded, unfilled};
use crate::options::Records;
use crate::refusal::Refusal;
use std::alloc::Global;

/// Adds the line of a record.
fn push_record(made: &mut Vec<u8>, text: &[u8], screen: usize, line: usize) -> Result<(), Refusal> {
    if text.len() > LINE {
        let length = text.len();
        return Err(Refusal::LongLine {
            screen,
            line,
            length,
        });
    }
    if line < LINES {
        return push_padded(made, text, LINE).map_err(|_| Refusal::OutOfMemory);
    }
    if text.is_empty() {
        Ok(())
    } else {
        Err(Refusal::LowLine { screen, line })
    }
}

/// Adds the screen of these records.
fn push_screen(
    made: &mut Vec<u8>,
    bytes: &[u8],
    records: Records,
    screen: usize,
) -> Result<(), Refusal> {
    let end = made.len().saturating_add(SCREEN);
    for (line, record) in bytes.chunks(records.width.max(1)).enumerate() {
        let text = unfilled(before(record, records.columns));
        push_record(made, text, screen, line)?;
    }
    made.resize(end, b' ').map_err(|_| Refusal::OutOfMemory)
}

/// Records as screens; `first` is the number of the first one.
pub fn carded(
    alloc: Global,
    bytes: &[u8],
    records: Records,
    first: usize,
) -> Result<Vec<u8>, Refusal> {
    let size = records.width.saturating_mul(records.lines).max(1);
    if bytes.len() / size >= MOST_SCREENS {
        return Err(Refusal::TooLarge);
    }
    let mut made = Vec::new(alloc);
    for (at, screen) in bytes.chunks(size).enumerate() {
        push_screen(&mut made, screen, records, first.saturating_add(at))?;
    }
    Ok(made)
}
