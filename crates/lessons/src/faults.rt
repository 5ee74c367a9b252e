//! Faults in words, by a text that has a line for each: its number or name, and what is said.

use crate::bytes::{
    after, after_beginning, find, first_line, first_word, front, is_blank, one_line, place_of,
    put_number, trimmed, trimmed_end,
};
use advice::{MISSING, UNKNOWN, is_too_large};
use std::alloc::{AllocError, Global};

/// The fault whose text the program has shown.
pub const SAID: u16 = 17;

/// What was interpreted: the block, or 0 for a line that was typed, how far, and the bytes.
#[derive(Clone, Copy)]
pub struct Interpreted<'a> {
    pub block: u16,
    pub offset: usize,
    pub text: &'a [u8],
}

/// Where a fault happened, and what was interpreted there.
#[derive(Clone, Copy)]
pub struct Place<'a> {
    pub block: u16,
    pub line: u8,
    /// The word that the fault is about.
    pub word: &'a [u8],
    /// What comes after it.
    pub rest: &'a [u8],
}

/// The line of a screen that has a byte.
fn line_at(at: usize) -> u8 {
    u8::try_from(at / 64).unwrap_or(15).min(15)
}

/// The place of a fault: that of the word before the place up to which was interpreted; of an unknown name, which is not taken yet, of the
/// one after it.
pub fn place_of_fault<'a>(fault: u16, given: Interpreted<'a>) -> Place<'a> {
    let done = trimmed_end(front(given.text, given.offset));
    let begins_at = match done.iter().rposition(|byte| is_blank(*byte)) {
        Some(blank) => blank.saturating_add(1),
        None => 0,
    };
    let from = if fault == UNKNOWN || done.is_empty() {
        given.offset
    } else {
        begins_at
    };
    let found = first_word(after(given.text, from));
    let start = given
        .text
        .len()
        .saturating_sub(found.rest.len())
        .saturating_sub(found.piece.len());
    Place {
        block: given.block,
        line: line_at(start),
        word: found.piece,
        rest: found.rest,
    }
}

/// What is said of a name, by a text with a line for each; nothing if it has none.
fn said_of<'a>(texts: &'a [u8], name: &[u8]) -> &'a [u8] {
    let mut rest = texts;
    for _ in 0..texts.len() {
        let line = first_line(rest);
        let word = first_word(line.piece);
        if word.piece == name {
            return trimmed(word.rest);
        }
        if line.rest.is_empty() {
            break;
        }
        rest = line.rest;
    }
    b""
}

/// Adds what is said, with a word in place of `{word}`.
fn put_said(text: &mut Vec<u8>, said: &[u8], word: &[u8]) -> Result<(), AllocError> {
    let mark: &[u8] = b"{word}";
    match find(said, mark) {
        Some(at) => {
            text.extend_from_slice(front(said, at))?;
            text.extend_from_slice(word)?;
            text.extend_from_slice(after_beginning(after(said, at), mark).unwrap_or(b""))
        }
        None => text.extend_from_slice(said),
    }
}

/// The name of what is said of a fault at this place, if it isn't its number.
fn name_of(fault: u16, place: &Place<'_>, base: u16) -> &'static [u8] {
    match fault {
        UNKNOWN if is_too_large(place.word, base) => b"large",
        UNKNOWN => b"unknown",
        MISSING
            if place.word.last().copied() == Some(b'"')
                && place_of(place.rest, b'"') == place.rest.len() => { b"unquoted" }
        MISSING if place.rest.iter().all(|byte| is_blank(*byte)) => b"follows",
        _ => b"",
    }
}

/// What is said of a fault at this place, without its number. Of fault 17 nothing is said: the program has shown it.
fn put_cause(
    text: &mut Vec<u8>,
    alloc: Global,
    texts: &[u8],
    fault: u16,
    place: &Place<'_>,
    base: u16,
) -> Result<(), AllocError> {
    let name = name_of(fault, place, base);
    let mut number = Vec::new(alloc);
    put_number(&mut number, alloc, i64::from(fault))?;
    let by_name = said_of(texts, name);
    if !name.is_empty() && !by_name.is_empty() {
        return put_said(text, by_name, place.word);
    }
    let by_number = said_of(texts, number.as_slice());
    if by_number.is_empty() && fault != SAID {
        return put_said(text, said_of(texts, b"own"), place.word);
    }
    put_said(text, by_number, place.word)
}

/// Adds the number of a fault, as `(fault 5)`.
fn put_fault(text: &mut Vec<u8>, alloc: Global, fault: u16) -> Result<(), AllocError> {
    text.extend_from_slice(b" (fault ")?;
    put_number(text, alloc, i64::from(fault))?;
    text.extend_from_slice(b")")
}

/// Adds a fault in words, with its number.
pub fn put_described(
    text: &mut Vec<u8>,
    alloc: Global,
    texts: &[u8],
    fault: u16,
    place: &Place<'_>,
    base: u16,
) -> Result<(), AllocError> {
    put_cause(text, alloc, texts, fault, place, base)?;
    put_fault(text, alloc, fault)
}

/// Adds the place of a fault: a line of its own for a screen, and of a line that was typed the word.
pub fn put_place(
    text: &mut Vec<u8>,
    alloc: Global,
    fault: u16,
    place: &Place<'_>,
) -> Result<(), AllocError> {
    if place.block == 0 {
        if fault != UNKNOWN && !place.word.is_empty() {
            text.extend_from_slice(b" at ")?;
            text.extend_from_slice(place.word)?;
        }
        return Ok(());
    }
    text.extend_from_slice(b"\nscreen ")?;
    put_number(text, alloc, i64::from(place.block))?;
    text.extend_from_slice(b" line ")?;
    put_number(text, alloc, i64::from(place.line))
}

/// Adds what a program has said of fault 17, which is the last line that it showed, and the number.
pub fn put_own_words(
    text: &mut Vec<u8>,
    alloc: Global,
    shown: &[u8],
    fault: u16,
) -> Result<(), AllocError> {
    let last = match shown.iter().rposition(|byte| *byte == b'\n') {
        Some(end) => after(shown, end.saturating_add(1)),
        None => shown,
    };
    let said = one_line(alloc, last)?;
    text.extend_from_slice(b"\n")?;
    text.extend_from_slice(said.as_slice())?;
    put_fault(text, alloc, fault)
}
