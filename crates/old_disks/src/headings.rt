//! What is before a screen and before its lines in a listing: headings and numbers.

use crate::bytes::{before, from, is_space};

/// A line from its first byte on that is not blank.
fn past_spaces(line: &[u8]) -> &[u8] {
    match line.iter().position(|byte| !is_space(*byte)) {
        Some(at) => from(line, at),
        None => b"",
    }
}

/// What comes after a word, in capitals or not, if the line begins with it.
fn after_word<'a>(line: &'a [u8], word: &[u8]) -> Option<&'a [u8]> {
    if before(line, word.len()).eq_ignore_ascii_case(word) {
        Some(from(line, word.len()))
    } else {
        None
    }
}

/// A line without a sign that it may begin with.
fn past_sign(line: &[u8], sign: u8) -> &[u8] {
    match line {
        [first, rest @ ..] if *first == sign => rest,
        _ => line,
    }
}

/// Whether a byte of Latin-1 is a letter, a digit or what counts as one.
fn is_letter(byte: u8) -> bool {
    byte.is_ascii_alphanumeric()
        || matches!(
            byte,
            b'_' | 0xaa | 0xb2 | 0xb3 | 0xb5 | 0xb9 | 0xba | 0xbc..=0xbe | 0xc0..=0xd6 | 0xd8..=0xf6 | 0xf8..=0xff
        )
}

/// What comes after the word that a heading begins with, and after its `#`.
fn after_heading(line: &[u8]) -> Option<&[u8]> {
    if let Some(rest) = after_word(line, b"% screen") {
        return Some(rest);
    }
    for word in [
        b"screen".as_slice(),
        b"scr".as_slice(),
        b"blocks".as_slice(),
        b"block".as_slice(),
        b"blk".as_slice(),
    ] {
        if let Some(rest) = after_word(line, word) {
            return Some(past_sign(past_spaces(rest), b'#'));
        }
    }
    None
}

/// How many digits a text begins with.
fn count_digits(text: &[u8]) -> usize {
    text.iter()
        .position(|byte| !byte.is_ascii_digit())
        .unwrap_or(text.len())
}

/// The number that digits are, or the greatest one.
fn value(digits: &[u8]) -> usize {
    digits.iter().fold(0usize, |made, digit| {
        made.saturating_mul(10)
            .saturating_add(usize::from(digit.saturating_sub(b'0')))
    })
}

/// The number of the screen whose heading a line is: `SCR # 6`, `screen 6`, `Block 6: title`, `% screen 6`.
pub fn heading(line: &[u8]) -> Option<usize> {
    let rest = past_spaces(after_heading(past_spaces(line))?);
    let rest = past_spaces(past_sign(rest, b':'));
    let count = count_digits(rest);
    let is_whole = match from(rest, count) {
        [next, ..] => !is_letter(*next),
        [] => true,
    };
    if count > 0 && is_whole {
        Some(value(before(rest, count)))
    } else {
        None
    }
}

/// The number that a line begins with, of one or two digits, and what comes after it and a blank: ` 3 : SQUARE`, `3: text`.
pub fn numbered(line: &[u8]) -> Option<(usize, &[u8])> {
    let line = past_spaces(line);
    let count = count_digits(line);
    if count == 0 || count > 2 {
        return None;
    }
    let number = value(before(line, count));
    let rest = from(line, count);
    let rest = match rest {
        [b':' | b'|' | b'.' | b')', after @ ..] => after,
        _ => rest,
    };
    match rest {
        [b' ', text @ ..] => Some((number, text)),
        [] => Some((number, b"")),
        _ => None,
    }
}
