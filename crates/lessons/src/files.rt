//! What a file is that a pupil hands in: blocks, or a text of screens.

use crate::bytes::{SCREEN, begins, first_line, trimmed_start};
use screen_text::{Cause, TextFault, put_screens, read_text};
use std::alloc::{AllocError, Global};
use thiserror::Error;

/// The most bytes that a file may have, and its blocks.
const MOST: usize = 8_000_000;

const HEX: [u8; 16] = *b"0123456789ABCDEF";

/// Why a file is no blocks.
#[derive(Clone, Copy, Debug, PartialEq, Eq, Drop, Error)]
pub enum FileFault {
    #[error("it is empty")]
    Empty,
    #[error("it has more than 8,000,000 bytes")]
    Large,
    #[error("it has {0} bytes, which is not a whole number of blocks, and it is no text of screens")]
    Part(usize),
    #[error("screen {0} is too far")]
    Far(u16),
    #[error("line {0} has a byte that is no text: {1}")]
    BadByte(usize, u8),
    #[error("line {0} has a ~ without two digits, 0 to 9 and A to F")]
    BadEscape(usize),
    #[error("line {0} has more than 64 bytes")]
    LongLine(usize),
    #[error("line {0} is the 17th of its screen")]
    FullScreen(usize),
    #[error("line {0} begins with % and is no heading: % screen N, with N from 0 to 65535")]
    BadHeading(usize),
    #[error("line {0} names a screen a second time")]
    NamedTwice(usize),
    #[error("out of memory")]
    OutOfMemory,
}

impl From<AllocError> for FileFault {
    fn from(_error: AllocError) -> FileFault {
        FileFault::OutOfMemory
    }
}

impl From<TextFault> for FileFault {
    fn from(fault: TextFault) -> FileFault {
        let line = fault.line;
        match fault.cause {
            Cause::BadByte(byte) => FileFault::BadByte(line, byte),
            Cause::BadEscape => FileFault::BadEscape(line),
            Cause::LongLine => FileFault::LongLine(line),
            Cause::FullScreen | Cause::NoScreen => FileFault::FullScreen(line),
            Cause::BadHeading | Cause::LateHeading => FileFault::BadHeading(line),
            Cause::NamedTwice => FileFault::NamedTwice(line),
            Cause::OutOfMemory => FileFault::OutOfMemory,
        }
    }
}

/// Adds a byte of a line as a text has it after `%~`.
fn put_escaped(text: &mut Vec<u8>, byte: u8) -> Result<(), AllocError> {
    if byte != b'~' && byte < 127 {
        text.push(byte)?;
        return Ok(());
    }
    let (high, low) = (usize::from(byte / 16), usize::from(byte % 16));
    text.extend_from_slice(&[b'~', HEX[high], HEX[low]])
}

/// Adds a line of a text: one that has letters beyond ASCII, and is no heading and no line after `%~`, is written after `%~`.
fn put_line(text: &mut Vec<u8>, line: &[u8]) -> Result<(), AllocError> {
    if begins(line, b"%") || line.iter().all(|byte| *byte < 127) {
        text.extend_from_slice(line)?;
    } else {
        text.extend_from_slice(b"%~")?;
        for byte in line {
            put_escaped(text, *byte)?;
        }
    }
    text.extend_from_slice(b"\n")
}

/// A text of screens in which letters beyond ASCII are escaped.
fn escaped(alloc: Global, text: &[u8]) -> Result<Vec<u8>, AllocError> {
    let mut made = Vec::new(alloc);
    let mut rest = text;
    for _ in 0..text.len() {
        if rest.is_empty() {
            break;
        }
        let line = first_line(rest);
        put_line(&mut made, line.piece)?;
        rest = line.rest;
    }
    Ok(made)
}

/// The blocks of a text of screens.
fn blocks_of_text(alloc: Global, text: &[u8]) -> Result<Vec<u8>, FileFault> {
    let screens = read_text(alloc, escaped(alloc, text)?.as_slice())?;
    for number in screens.numbers.iter() {
        if usize::from(*number) * SCREEN > MOST {
            return Err(FileFault::Far(*number));
        }
    }
    Ok(put_screens(Vec::new(alloc), &screens)?)
}

/// A file as blocks: it has these, or a text of screens that begins with `% screen`.
pub fn blocks_of(alloc: Global, file: &[u8]) -> Result<Vec<u8>, FileFault> {
    if file.is_empty() {
        return Err(FileFault::Empty);
    }
    if file.len() > MOST {
        return Err(FileFault::Large);
    }
    let text = trimmed_start(file);
    if begins(text, b"% screen ") {
        return blocks_of_text(alloc, text);
    }
    if file.len() % SCREEN != 0 {
        return Err(FileFault::Part(file.len()));
    }
    Ok(Vec::from_slice(alloc, file)?)
}
