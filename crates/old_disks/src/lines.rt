//! The lines of a text.

use crate::bytes::{before, without_spaces};
use std::alloc::{AllocError, Global};

/// To which columns a tab goes.
const TAB: usize = 8;

/// The ends of lines, and what is between them.
const LINE_FEED: u8 = 10;

const FORM_FEED: u8 = 12;

const CARRIAGE_RETURN: u8 = 13;

const CTRL_Z: u8 = 26;

/// Reads lines, which end with a carriage return, a line feed or both.
#[derive(Drop)]
struct Reading {
    lines: Vec<Vec<u8>>,
    line: Vec<u8>,
    is_after_return: bool,
    alloc: Global,
}

impl Reading {
    /// Ends a line.
    fn end_line(&mut self) -> Result<(), AllocError> {
        let line = Vec::from_slice(self.alloc, without_spaces(self.line.as_slice()))?;
        self.lines.push(line)?;
        self.line = Vec::new(self.alloc);
        Ok(())
    }

    /// Takes a byte. Form feeds are left out.
    fn take(&mut self, byte: u8) -> Result<(), AllocError> {
        let was_return = self.is_after_return;
        if byte == FORM_FEED {
            return Ok(());
        }
        self.is_after_return = byte == CARRIAGE_RETURN;
        match byte {
            LINE_FEED if was_return => Ok(()),
            LINE_FEED | CARRIAGE_RETURN => self.end_line(),
            b'\t' => {
                let end = (self.line.len() / TAB)
                    .saturating_add(1)
                    .saturating_mul(TAB);
                self.line.resize(end, b' ')
            }
            _ => {
                self.line.push(byte)?;
                Ok(())
            }
        }
    }
}

/// A text up to a ^Z, and without the NULs at its end.
fn text_of(bytes: &[u8]) -> &[u8] {
    let text = match bytes.iter().position(|byte| *byte == CTRL_Z) {
        Some(end) => before(bytes, end),
        None => bytes,
    };
    match text.iter().rposition(|byte| *byte != 0) {
        Some(last) => before(text, last.saturating_add(1)),
        None => b"",
    }
}

/// The lines of a text, without the blanks at their ends, with blanks for tabs. What comes after the last end is one if it is not blank.
pub fn lines_of(alloc: Global, bytes: &[u8]) -> Result<Vec<Vec<u8>>, AllocError> {
    let mut reading = Reading {
        lines: Vec::new(alloc),
        line: Vec::new(alloc),
        is_after_return: false,
        alloc,
    };
    for byte in text_of(bytes) {
        reading.take(*byte)?;
    }
    if !without_spaces(reading.line.as_slice()).is_empty() {
        reading.end_line()?;
    }
    Ok(reading.lines)
}
