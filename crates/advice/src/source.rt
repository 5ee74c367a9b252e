//! The words of a source, without comments and texts, and without what other words take.

use crate::case::Piece;
use std::alloc::{AllocError, Global};

/// Where a word is in a line.
#[derive(Clone, Copy)]
struct Span {
    start: usize,
    end: usize,
}

/// What one word leaves for the next.
#[derive(Clone, Copy)]
struct Reading {
    /// The mark at which a comment or a text ends, if one is open.
    closing: Option<u8>,
    /// Whether the word before takes the next one.
    skips: bool,
}

/// Whether a byte is between words.
fn is_blank(byte: u8) -> bool {
    matches!(byte, b' ' | 9..=13)
}

/// The first word from a place on.
fn word_from(text: &[u8], at: usize) -> Option<Span> {
    let rest = text.get(at..)?;
    let before = rest.iter().position(|byte| !is_blank(*byte))?;
    let found = rest.get(before..)?;
    let length = found
        .iter()
        .position(|byte| is_blank(*byte))
        .unwrap_or(found.len());
    let start = at.saturating_add(before);
    Some(Span {
        start,
        end: start.saturating_add(length),
    })
}

/// The place after the first such mark from a place on.
fn place_after(text: &[u8], mark: u8, at: usize) -> Option<usize> {
    let found = text.get(at..)?.iter().position(|byte| *byte == mark)?;
    Some(at.saturating_add(found).saturating_add(1))
}

/// The mark at which what a word takes ends.
fn closing_of(name: &[u8]) -> Option<u8> {
    match name {
        b"(" | b".(" => Some(b')'),
        b".\"" | b"S\"" | b"ABORT\"" => Some(b'"'),
        _ => None,
    }
}

/// Whether a word takes the next one.
fn takes_word(name: &[u8]) -> bool {
    matches!(
        name,
        b"CHAR" | b"[CHAR]" | b"[']" | b"[COMPILE]" | b"COMPILE" | b"TO" | b"IS"
    )
}

impl Reading {
    /// Takes the next word of a line from a place on, and adds it, unless another word takes it. Answers the place after it; none at the line's end.
    fn step<'a>(
        &mut self,
        found: &mut Vec<Piece<'a>>,
        line: Piece<'a>,
        at: usize,
    ) -> Result<Option<usize>, AllocError> {
        if let Some(mark) = self.closing {
            let after = place_after(line.text, mark, at);
            if after.is_some() {
                self.closing = None;
            }
            return Ok(after);
        }
        let Some(span) = word_from(line.text, at) else {
            return Ok(None);
        };
        let name = line.text.get(span.start..span.end).unwrap_or(b"");
        if self.skips {
            self.skips = false;
        } else if matches!(name, b"\\") {
            return Ok(None);
        } else {
            self.closing = closing_of(name);
            self.skips = takes_word(name);
            found.push(Piece {
                text: name,
                line: line.line,
            })?;
        }
        Ok(Some(span.end.saturating_add(1)))
    }

    /// Adds the words of a line.
    fn read<'a>(&mut self, found: &mut Vec<Piece<'a>>, line: Piece<'a>) -> Result<(), AllocError> {
        let mut at = 0;
        for _ in 0..=line.text.len() {
            match self.step(found, line, at)? {
                Some(after) => at = after,
                None => return Ok(()),
            }
        }
        Ok(())
    }
}

/// The words of these lines.
pub fn words_of<'a>(alloc: Global, lines: &[Piece<'a>]) -> Result<Vec<Piece<'a>>, AllocError> {
    let mut found = Vec::new(alloc);
    let mut reading = Reading {
        closing: None,
        skips: false,
    };
    for line in lines {
        reading.read(&mut found, *line)?;
    }
    Ok(found)
}
