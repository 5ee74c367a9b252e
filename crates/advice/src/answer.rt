//! The answer to a case.

use crate::case::{AdviceRefused, Asked, Case};
use crate::choice::{Known, Message, choose};
use crate::filling::{Value, put_filled};
use crate::numbers::is_too_large;
use crate::source::words_of;
use crate::structures::{end_of, exit_in_loop, unfinished};
use crate::texts;
use crate::unknown::put_advice;
use std::alloc::{AllocError, Global};

/// The fault that says what the program itself has said.
const SAID: u16 = 17;

/// Characters of the longest name.
const LONGEST_NAME: usize = 31;

/// What is known of the fault of a case.
fn known_of(case: &Case<'_>) -> Known {
    let word = case.word.typed;
    Known {
        is_name: case.marks.is_name,
        is_hidden: case.marks.is_hidden,
        has_dialect: case.marks.has_dialect,
        is_open_text: case.marks.is_open_text,
        is_too_large: is_too_large(word, case.base),
        is_too_long: word.len().max(case.follows.len()) > LONGEST_NAME,
        has_next: !case.follows.is_empty(),
    }
}

/// The text of a message.
fn text_of(message: Message, fault: u16) -> &'static [u8] {
    match message {
        Message::Hidden => texts::HIDDEN,
        Message::Large => texts::LARGE,
        Message::Elsewhere => texts::ELSEWHERE,
        Message::Unknown => texts::UNKNOWN,
        Message::Full => texts::FULL,
        Message::Unquoted => texts::UNQUOTED,
        Message::Long => texts::LONG,
        Message::Follows => texts::FOLLOWS,
        Message::Plain => texts::of_fault(fault),
    }
}

/// Adds what the fault of a case means.
fn put_meaning(page: &mut Vec<u8>, alloc: Global, case: &Case<'_>) -> Result<(), AllocError> {
    let message = choose(case.fault, known_of(case));
    let values = [
        Value {
            name: b"word",
            text: case.word.typed,
        },
        Value {
            name: b"message",
            text: texts::of_fault(case.fault),
        },
        Value {
            name: b"left",
            text: case.left,
        },
        Value {
            name: b"needs",
            text: if case.marks.has_dialect {
                texts::NEEDS
            } else {
                b""
            },
        },
        Value {
            name: b"most",
            text: b"31",
        },
    ];
    put_filled(page, text_of(message, case.fault), &values)?;
    if message == Message::Unknown {
        put_advice(page, alloc, case)?;
    }
    Ok(())
}

/// Adds which structure of the source of a case has no end.
fn put_unfinished(page: &mut Vec<u8>, alloc: Global, case: &Case<'_>) -> Result<(), AllocError> {
    let words = words_of(alloc, case.lines.as_slice())?;
    let Some(open) = unfinished(alloc, words.as_slice())? else {
        return Ok(());
    };
    let values = [
        Value {
            name: b"word",
            text: open.text,
        },
        Value {
            name: b"line",
            text: open.line,
        },
        Value {
            name: b"end",
            text: end_of(open.text).unwrap_or(b""),
        },
    ];
    put_filled(page, texts::OPEN, &values)
}

/// Adds what the word and the source say of fault 17.
fn put_hint(page: &mut Vec<u8>, alloc: Global, case: &Case<'_>) -> Result<(), AllocError> {
    match (case.word.upper, case.defining) {
        (b";", Some(_)) => put_unfinished(page, alloc, case),
        (b"EXIT", _) => page.extend_from_slice(texts::LEAVING),
        (b"WHILE", Some(_)) => page.extend_from_slice(texts::SEVERAL),
        _ => Ok(()),
    }
}

/// Adds what the source of a case says of its fault, and what the fault means, unless that was said.
fn put_report(page: &mut Vec<u8>, alloc: Global, case: &Case<'_>) -> Result<(), AllocError> {
    if case.fault == SAID {
        put_hint(page, alloc, case)?;
    }
    if case.marks.is_said {
        return Ok(());
    }
    put_meaning(page, alloc, case)
}

/// A text with the number of its fault.
fn numbered<'a>(alloc: Global, said: &'a [u8], number: &'a [u8]) -> Result<Vec<u8>, AllocError> {
    let mut page = Vec::new(alloc);
    let values = [
        Value {
            name: b"said",
            text: said,
        },
        Value {
            name: b"fault",
            text: number,
        },
    ];
    put_filled(&mut page, texts::NUMBERED, &values)?;
    Ok(page)
}

/// The message of the fault of a case, with its number.
fn message(alloc: Global, case: &Case<'_>) -> Result<Vec<u8>, AllocError> {
    let mut said = Vec::new(alloc);
    match case.asked {
        Asked::Report => put_report(&mut said, alloc, case)?,
        _ => put_meaning(&mut said, alloc, case)?,
    }
    numbered(alloc, said.as_slice(), case.number)
}

/// What is said of the last EXIT that is in a counted loop of the source of a case, whose cells stay; nothing if there is none, if its line has no name, or
/// after a dialect, which refuses such a word.
fn loop_message(alloc: Global, case: &Case<'_>) -> Result<Vec<u8>, AllocError> {
    let mut page = Vec::new(alloc);
    let words = words_of(alloc, case.lines.as_slice())?;
    let line = exit_in_loop(words.as_slice()).unwrap_or(b"");
    if case.marks.has_dialect || line.is_empty() {
        return Ok(page);
    }
    let mut place = Vec::new(alloc);
    if !matches!(line, b"this line") {
        place.extend_from_slice(b", in ")?;
        place.extend_from_slice(line)?;
    }
    let value = Value {
        name: b"where",
        text: place.as_slice(),
    };
    put_filled(&mut page, texts::LOOPED, &[value])?;
    Ok(page)
}

/// A text with capitals in place of lower case.
fn capitals(alloc: Global, text: &[u8]) -> Result<Vec<u8>, AllocError> {
    text.iter()
        .map(|byte| byte.to_ascii_uppercase())
        .collect(alloc)
}

/// What is said of a case: a fault's message with its number, or what is said of EXIT in a counted loop, which may be nothing. docs/FORMATS.md says what
/// lines a case has.
///
/// # Errors
///
/// `OutOfMemory`; `UnknownLine`, `BadNumber` and `NoRequest` of a text that is no case.
pub fn advise(alloc: Global, case: &[u8]) -> Result<Vec<u8>, AdviceRefused> {
    let upper = capitals(alloc, case)?;
    let case = Case::read(alloc, case, upper.as_slice())?;
    let answer = match case.asked {
        Asked::Loop => loop_message(alloc, &case)?,
        _ => message(alloc, &case)?,
    };
    Ok(answer)
}
