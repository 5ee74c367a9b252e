//! What is added to the message that a word is unknown: what was probably meant.

use crate::case::{Case, Spelled};
use crate::filling::{Value, put_filled};
use crate::near::is_near;
use crate::texts;
use std::alloc::{AllocError, Global};
use survey_tables::{DIALECTS, has};

/// The word after which a blank is probably forgotten: one of those that a word in capitals begins with, and goes on.
fn front_of(upper: &[u8]) -> Option<&'static [u8]> {
    match upper {
        [b':', _, ..] => Some(b":"),
        [b'.', b'"', _, ..] => Some(b".\""),
        [b'S', b'"', _, ..] => Some(b"S\""),
        [b'(', _, ..] => Some(b"("),
        [b'\\', _, ..] => Some(b"\\"),
        [b'\'', .., b'\''] => None,
        [b'\'', _, ..] => Some(b"'"),
        _ => None,
    }
}

/// A sum of two numbers, written without blanks.
#[derive(Clone, Copy)]
struct Sum<'a> {
    first: &'a [u8],
    sign: &'a [u8],
    second: &'a [u8],
}

/// Whether these are decimal digits, and there are some.
fn is_decimal(digits: &[u8]) -> bool {
    !digits.is_empty() && digits.iter().all(|byte| byte.is_ascii_digit())
}

/// The sum that a word is.
fn sum_of(word: &[u8]) -> Option<Sum<'_>> {
    let at = word.iter().position(|byte| !byte.is_ascii_digit())?;
    let (first, sign, second) = (word.get(..at)?, word.get(at..at + 1)?, word.get(at + 1..)?);
    if is_decimal(first) && matches!(sign, b"-" | b"+" | b"*" | b"/") && is_decimal(second) {
        Some(Sum {
            first,
            sign,
            second,
        })
    } else {
        None
    }
}

/// The name that was probably meant: the word in other letters, or the first name that is near to it.
fn meant<'a>(names: &[Spelled<'a>], upper: &[u8]) -> Option<&'a [u8]> {
    let same = names.iter().find(|name| name.upper == upper);
    match same {
        Some(name) => Some(name.typed),
        None => match names.iter().find(|name| is_near(upper, name.upper)) {
            Some(name) => Some(name.typed),
            None => None,
        },
    }
}

/// The names of files: the last one, and those before it, with commas between them.
#[derive(Drop)]
struct Files {
    others: Vec<u8>,
    last: Vec<u8>,
}

impl Files {
    /// Adds the name of a dialect's text.
    fn push(&mut self, key: &[u8]) -> Result<(), AllocError> {
        if !self.others.is_empty() {
            self.others.extend_from_slice(b", ")?;
        }
        self.others.extend_from_slice(self.last.as_slice())?;
        self.last.clear();
        self.last.extend_from_slice(key)?;
        self.last.extend_from_slice(b".txt")
    }
}

/// The names of the dialects' texts that have a word.
fn dialects_with(alloc: Global, upper: &[u8]) -> Result<Files, AllocError> {
    let mut files = Files {
        others: Vec::new(alloc),
        last: Vec::new(alloc),
    };
    for dialect in &DIALECTS {
        if has(dialect.names(), upper) {
            files.push(dialect.key())?;
        }
    }
    Ok(files)
}

/// Adds that dialects have a word, if one does. Answers whether it is so.
fn put_dialects(page: &mut Vec<u8>, alloc: Global, upper: &[u8]) -> Result<bool, AllocError> {
    let files = dialects_with(alloc, upper)?;
    if files.last.is_empty() {
        return Ok(false);
    }
    let text = if files.others.is_empty() {
        texts::DIALECT
    } else {
        texts::DIALECTS
    };
    let values = [
        Value {
            name: b"others",
            text: files.others.as_slice(),
        },
        Value {
            name: b"last",
            text: files.last.as_slice(),
        },
    ];
    put_filled(page, text, &values)?;
    Ok(true)
}

/// Adds that the text of later Forths' words has a word, if it does. Answers whether it is so.
fn put_library(page: &mut Vec<u8>, upper: &[u8]) -> Result<bool, AllocError> {
    let is_there = has(texts::LATER, upper);
    if is_there {
        let file = Value {
            name: b"file",
            text: b"later.fs",
        };
        put_filled(page, texts::LIBRARY, &[file])?;
    }
    Ok(is_there)
}

/// Adds how a word is written that lacks a blank, if it is one. Answers whether it is so.
fn put_blanks(page: &mut Vec<u8>, word: Spelled<'_>) -> Result<bool, AllocError> {
    if let Some(front) = front_of(word.upper) {
        let front = Value {
            name: b"front",
            text: front,
        };
        put_filled(page, texts::PARTED, &[front])?;
        return Ok(true);
    }
    let Some(sum) = sum_of(word.typed) else {
        return Ok(false);
    };
    let values = [
        Value {
            name: b"first",
            text: sum.first,
        },
        Value {
            name: b"sign",
            text: sum.sign,
        },
        Value {
            name: b"second",
            text: sum.second,
        },
    ];
    put_filled(page, texts::SUM, &values)?;
    Ok(true)
}

/// Adds which texts have a word. Answers whether one has it.
fn put_texts(page: &mut Vec<u8>, alloc: Global, upper: &[u8]) -> Result<bool, AllocError> {
    let has_dialect = put_dialects(page, alloc, upper)?;
    let has_library = put_library(page, upper)?;
    Ok(has_dialect || has_library)
}

/// Adds what was probably meant by the unknown word of a case, with a semicolon before it; nothing if that is not known.
pub fn put_advice(page: &mut Vec<u8>, alloc: Global, case: &Case<'_>) -> Result<(), AllocError> {
    let word = case.word;
    if case.defining == Some(word.upper) {
        return page.extend_from_slice(texts::UNDONE);
    }
    if matches!(word.upper, b"PRIM") {
        return page.extend_from_slice(texts::PRIM);
    }
    if case.marks.has_texts && put_texts(page, alloc, word.upper)? || put_blanks(page, word)? {
        return Ok(());
    }
    match meant(case.names.as_slice(), word.upper) {
        Some(name) => {
            let name = Value {
                name: b"name",
                text: name,
            };
            put_filled(page, texts::NEAR, &[name])
        }
        None => Ok(()),
    }
}
