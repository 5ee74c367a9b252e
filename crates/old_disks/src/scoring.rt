//! How much bytes look like source: titles are on the first line of a screen, each `:` has its `;`, and no word goes over the end of a line.

use crate::bytes::{LINE, SCREEN, before, from};
use std::alloc::{AllocError, Global};

/// A score of 1, of at most 2.
pub const ONE: i32 = 10_000;

/// What fills screens that have nothing.
fn is_empty(screen: &[u8]) -> bool {
    screen.iter().all(|byte| matches!(*byte, b' ' | 0 | 0xe5))
}

/// Whether a byte is a character that is seen, or a blank.
fn is_plain(byte: u8) -> bool {
    matches!(byte, b' '..=b'~')
}

/// Whether a byte is a character that is seen.
fn is_ink(byte: u8) -> bool {
    matches!(byte, b'!'..=b'~')
}

/// How many of some bytes are characters.
fn count_plain(bytes: &[u8]) -> usize {
    bytes.iter().filter(|byte| is_plain(**byte)).count()
}

/// Whether a screen has something, and most of it is text.
fn is_source(screen: &[u8]) -> bool {
    screen.len() == SCREEN && !is_empty(screen) && count_plain(screen) > SCREEN / 4 * 3
}

/// Whether a title begins with these bytes.
pub fn is_title(line: &[u8]) -> bool {
    line.starts_with(b"( ") || line.starts_with(b"\\ ")
}

/// How many lines of a screen begin with a title if none should be: each second one but the first.
fn count_astray(screen: &[u8]) -> usize {
    screen
        .chunks(2 * LINE)
        .skip(1)
        .filter(|lines| is_title(lines))
        .count()
}

/// At how many ends of lines a word goes on in the next line.
fn count_torn(screen: &[u8]) -> usize {
    let mut torn = 0usize;
    let mut was_ink = false;
    for line in screen.chunks(LINE) {
        let begins_with_ink = line.first().is_some_and(|byte| is_ink(*byte));
        if was_ink && begins_with_ink {
            torn = torn.saturating_add(1);
        }
        was_ink = line.last().is_some_and(|byte| is_ink(*byte));
    }
    torn
}

/// How many words `:` and `;` a text has, and how many of them are a `:` with the `;` that comes next.
#[derive(Clone, Copy)]
pub struct Definitions {
    pub signs: usize,
    pub ended: usize,
}

impl Definitions {
    /// Those of a text whose words have blanks between them.
    pub fn of(text: &[u8]) -> Definitions {
        let mut found = Definitions { signs: 0, ended: 0 };
        let mut is_open = false;
        for word in text.split(|byte| *byte == b' ') {
            match word {
                [b':'] => {
                    found.signs = found.signs.saturating_add(1);
                    is_open = true;
                }
                [b';'] => {
                    found.signs = found.signs.saturating_add(1);
                    found.ended = found.ended.saturating_add(if is_open { 2 } else { 0 });
                    is_open = false;
                }
                _ => {}
            }
        }
        found
    }

    /// Both together.
    fn with(self, other: Definitions) -> Definitions {
        Definitions {
            signs: self.signs.saturating_add(other.signs),
            ended: self.ended.saturating_add(other.ended),
        }
    }

    /// Which part of the signs belong together.
    fn score(self) -> i32 {
        part(self.ended, self.signs)
    }
}

/// A number of these, as a score.
fn scored(number: usize) -> i32 {
    i32::try_from(number)
        .unwrap_or(i32::MAX)
        .saturating_mul(ONE)
}

/// Which part of the whole something is; 0 of nothing.
fn part(some: usize, whole: usize) -> i32 {
    let whole = i32::try_from(whole).unwrap_or(i32::MAX);
    scored(some).checked_div(whole).unwrap_or(0)
}

/// How much screens look like source.
pub fn score(screens: &[u8]) -> i32 {
    let (mut count, mut titled, mut wrong) = (0usize, 0usize, 0usize);
    let mut definitions = Definitions { signs: 0, ended: 0 };
    for screen in screens.chunks(SCREEN).filter(|screen| is_source(screen)) {
        count = count.saturating_add(1);
        titled = titled.saturating_add(if is_title(screen) { 2 } else { 0 });
        wrong = wrong
            .saturating_add(count_astray(screen))
            .saturating_add(count_torn(screen).saturating_mul(2));
        definitions = definitions.with(Definitions::of(screen));
    }
    let halves = i32::try_from(count).unwrap_or(i32::MAX).saturating_mul(2);
    let places = scored(titled).saturating_sub(scored(wrong));
    places
        .checked_div(halves)
        .unwrap_or(0)
        .saturating_add(definitions.score())
}

/// The bytes up to the first ^Z.
fn up_to_ctrl_z(bytes: &[u8]) -> &[u8] {
    match bytes.iter().position(|byte| *byte == 0x1a) {
        Some(end) => before(bytes, end),
        None => bytes,
    }
}

/// How much a file looks like source: as screens, or as a text up to its ^Z.
pub fn likeness(alloc: Global, file: &[u8]) -> Result<i32, AllocError> {
    let text = up_to_ctrl_z(file);
    if !text.iter().any(|byte| matches!(*byte, b'\r' | b'\n')) {
        return Ok(score(file));
    }
    let mut words = Vec::from_slice(alloc, text)?;
    let mut ends = 0usize;
    for byte in words.iter_mut() {
        if matches!(*byte, b'\r' | b'\n' | b'\t') {
            *byte = b' ';
            ends = ends.saturating_add(1);
        }
    }
    let plain = part(count_plain(words.as_slice()), words.len());
    Ok(plain.saturating_add(Definitions::of(words.as_slice()).score()))
}

/// The screen that shows best what a file has: the first with a title or with definitions, or else the first.
pub fn shown(screens: &[u8]) -> &[u8] {
    for screen in screens.chunks(SCREEN) {
        let is_whole = screen.len() == SCREEN;
        if is_whole && (is_title(screen) || Definitions::of(screen).signs > 3) {
            return screen;
        }
    }
    before(from(screens, 0), SCREEN)
}
