//! Bytes of texts: blanks, words and lines.

use std::alloc::{AllocError, Global};

/// How many bytes a screen has.
pub const SCREEN: usize = 1024;

/// How many bytes a line of a screen has.
pub const LINE: usize = 64;

/// How many lines a screen has.
pub const LINES: usize = 16;

/// Whether a byte is between words: a blank, the end of a line, or another control byte.
pub fn is_blank(byte: u8) -> bool {
    byte <= b' '
}

/// The bytes from a place on; none after the end.
pub fn after(text: &[u8], at: usize) -> &[u8] {
    text.get(at..).unwrap_or(b"")
}

/// The bytes up to a place; all of them if it is after the end.
pub fn front(text: &[u8], end: usize) -> &[u8] {
    text.get(..end).unwrap_or(text)
}

/// A text without the blanks at its beginning.
pub fn trimmed_start(text: &[u8]) -> &[u8] {
    match text.iter().position(|byte| !is_blank(*byte)) {
        Some(first) => after(text, first),
        None => b"",
    }
}

/// A text without the blanks at its end.
pub fn trimmed_end(text: &[u8]) -> &[u8] {
    match text.iter().rposition(|byte| !is_blank(*byte)) {
        Some(last) => front(text, last.saturating_add(1)),
        None => b"",
    }
}

/// A text without the blanks at both ends.
pub fn trimmed(text: &[u8]) -> &[u8] {
    trimmed_start(trimmed_end(text))
}

/// Whether a text begins so.
pub fn begins(text: &[u8], beginning: &[u8]) -> bool {
    match text.get(..beginning.len()) {
        Some(begun) => begun == beginning,
        None => false,
    }
}

/// What comes after a beginning of a text; nothing if it begins otherwise.
pub fn after_beginning<'a>(text: &'a [u8], beginning: &[u8]) -> Option<&'a [u8]> {
    if begins(text, beginning) {
        text.get(beginning.len()..)
    } else {
        None
    }
}

/// The first place of a part in a text.
pub fn find(text: &[u8], part: &[u8]) -> Option<usize> {
    for at in 0..text.len() {
        if begins(after(text, at), part) {
            return Some(at);
        }
    }
    None
}

/// The first place of a byte in a text, or the text's end.
pub fn place_of(text: &[u8], byte: u8) -> usize {
    text.iter()
        .position(|one| *one == byte)
        .unwrap_or(text.len())
}

/// A piece of a text, and what comes after it.
#[derive(Clone, Copy)]
pub struct Parted<'a> {
    pub piece: &'a [u8],
    pub rest: &'a [u8],
}

/// A text in two pieces, of which the first one has so many bytes.
pub fn split(text: &[u8], at: usize) -> Parted<'_> {
    Parted {
        piece: front(text, at),
        rest: after(text, at),
    }
}

/// The first word of a text, which is empty if the text is blank.
pub fn first_word(text: &[u8]) -> Parted<'_> {
    let begun = trimmed_start(text);
    let end = begun
        .iter()
        .position(|byte| is_blank(*byte))
        .unwrap_or(begun.len());
    split(begun, end)
}

/// The first line of a text, and what comes after its end.
pub fn first_line(text: &[u8]) -> Parted<'_> {
    let end = place_of(text, b'\n');
    Parted {
        piece: front(text, end),
        rest: after(text, end.saturating_add(1)),
    }
}

/// The number that digits spell: one with other bytes, or more than 4,294,967,295, is none.
pub fn number_of(digits: &[u8]) -> Option<u32> {
    let mut number = 0u32;
    for byte in digits {
        if !byte.is_ascii_digit() {
            return None;
        }
        let digit = u32::from(*byte).saturating_sub(48);
        number = number.checked_mul(10)?.checked_add(digit)?;
    }
    if digits.is_empty() {
        None
    } else {
        Some(number)
    }
}

/// Adds a number.
pub fn put_number(text: &mut Vec<u8>, alloc: Global, number: i64) -> Result<(), AllocError> {
    let digits = format!(in alloc; "{number}")?;
    text.extend_from_slice(digits.as_bytes())
}

/// Adds the words of a text, with one blank between them.
pub fn put_words(text: &mut Vec<u8>, words: &[u8]) -> Result<(), AllocError> {
    let mut rest = words;
    for index in 0..words.len() {
        let found = first_word(rest);
        if found.piece.is_empty() {
            break;
        }
        if index > 0 {
            text.extend_from_slice(b" ")?;
        }
        text.extend_from_slice(found.piece)?;
        rest = found.rest;
    }
    Ok(())
}

/// The words of a text, with one blank between them.
pub fn one_line(alloc: Global, words: &[u8]) -> Result<Vec<u8>, AllocError> {
    let mut text = Vec::new(alloc);
    put_words(&mut text, words)?;
    Ok(text)
}
