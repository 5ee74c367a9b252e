//! The trials of a checker's screen.

use crate::bytes::{
    Parted, after, find, first_word, front, is_blank, number_of, one_line, place_of, split,
    trimmed, trimmed_start,
};
use std::alloc::{AllocError, Global};

/// What a trial wants of what its line leaves.
#[derive(Clone, Copy, Debug, PartialEq, Eq, Drop)]
pub enum Kind {
    /// `}T`: these numbers.
    Numbers,
    /// `}YES`: one number, and not 0.
    Yes,
    /// `}NO`: one number, 0.
    No,
    /// `}SEALED`: the numbers of which these are the seals.
    Sealed,
    /// Anything: a line between the trials, or a trial whose numbers are spelled by words that only CHECK knows.
    Anything,
}

/// A trial: the word that it is about, the lines to type, what they must leave, and what they must show. A line between the trials is one
/// that is about no numbers.
#[derive(Drop)]
pub struct Trial<'a> {
    pub word: &'a [u8],
    /// What is typed, with the ends of its lines.
    pub lines: &'a [u8],
    /// Whether `T{` begins it.
    pub is_tested: bool,
    pub kind: Kind,
    pub wanted: Vec<u16>,
    /// What must be shown; nothing if there is no SHOWS.
    pub shows: &'a [u8],
}

impl<'a> Trial<'a> {
    /// What is typed, as one line: so CHECK shows it.
    pub fn text(&self, alloc: Global) -> Result<Vec<u8>, AllocError> {
        one_line(alloc, self.lines)
    }
}

/// What comes next in a checker's screen.
#[derive(Clone, Copy)]
enum Item<'a> {
    Nothing,
    Needs(&'a [u8]),
    Line(&'a [u8]),
    Test(Test<'a>),
}

/// A trial as it is written.
#[derive(Clone, Copy)]
struct Test<'a> {
    lines: &'a [u8],
    wanted: &'a [u8],
    kind: Kind,
    shows: &'a [u8],
}

/// An item, and what comes after it.
#[derive(Clone, Copy)]
struct Taken<'a> {
    item: Item<'a>,
    rest: &'a [u8],
}

/// The kind of a trial that ends so.
fn kind_of(end: &[u8]) -> Option<Kind> {
    match end {
        b"}T" => Some(Kind::Numbers),
        b"}YES" => Some(Kind::Yes),
        b"}NO" => Some(Kind::No),
        b"}SEALED" => Some(Kind::Sealed),
        _ => None,
    }
}

/// A comment at the beginning of a text: what comes after it.
fn after_comment(text: &[u8]) -> Option<&[u8]> {
    if !matches!(first_word(text).piece, b"(") {
        return None;
    }
    let end = place_of(text, b')');
    text.get(end.saturating_add(1)..)
}

/// Whether a word begins an item.
fn begins_item(word: &[u8]) -> bool {
    matches!(word, b"T{" | b"NEEDS" | b"ALL-RIGHT" | b"(")
}

/// A line between items: it ends before a word that begins one.
fn take_line(text: &[u8]) -> Taken<'_> {
    let mut rest = first_word(text).rest;
    for _ in 0..text.len() {
        let next = first_word(rest);
        if next.piece.is_empty() || begins_item(next.piece) {
            break;
        }
        rest = next.rest;
    }
    let end = text.len().saturating_sub(rest.len());
    Taken {
        item: Item::Line(trimmed(front(text, end))),
        rest,
    }
}

/// Whether a text has a blank at this place.
fn is_blank_at(text: &[u8], at: usize) -> bool {
    match text.get(at) {
        Some(byte) => is_blank(*byte),
        None => false,
    }
}

/// The place of the next arrow, which has blanks on both sides, from a place on.
fn arrow_from(text: &[u8], from: usize) -> Option<usize> {
    let mut at = from;
    for _ in 0..text.len() {
        at = at.saturating_add(find(after(text, at), b"->")?);
        if at > 0
            && is_blank_at(text, at.saturating_sub(1))
            && is_blank_at(text, at.saturating_add(2))
        {
            return Some(at);
        }
        at = at.saturating_add(2);
    }
    None
}

/// What SHOWS wants at the beginning of a text, up to a bar.
fn shown_after(text: &[u8]) -> Parted<'_> {
    let next = first_word(text);
    let bar = place_of(next.rest, b'|');
    if !matches!(next.piece, b"SHOWS") || bar == next.rest.len() {
        return Parted {
            piece: b"",
            rest: text,
        };
    }
    Parted {
        piece: front(next.rest, bar),
        rest: after(next.rest, bar.saturating_add(1)),
    }
}

/// A trial at the beginning of a text, of which the arrow is at this place.
fn test_at(text: &[u8], arrow: usize) -> Option<Taken<'_>> {
    let wanted = split(
        after(text, arrow.saturating_add(2)),
        place_of(after(text, arrow.saturating_add(2)), b'}'),
    );
    let end = first_word(wanted.rest);
    let shown = shown_after(end.rest);
    Some(Taken {
        item: Item::Test(Test {
            lines: trimmed(text.get(2..arrow)?),
            wanted: wanted.piece,
            kind: kind_of(end.piece)?,
            shows: shown.piece,
        }),
        rest: shown.rest,
    })
}

/// A trial at the beginning of a text, after `T{`.
fn take_test(text: &[u8]) -> Option<Taken<'_>> {
    let mut from = 0;
    for _ in 0..text.len() {
        let arrow = arrow_from(text, from)?;
        if let Some(taken) = test_at(text, arrow) {
            return Some(taken);
        }
        from = arrow.saturating_add(2);
    }
    None
}

/// The item at the beginning of a text.
fn take_item(text: &[u8]) -> Taken<'_> {
    if let Some(rest) = after_comment(text) {
        return Taken {
            item: Item::Nothing,
            rest,
        };
    }
    let word = first_word(text);
    match word.piece {
        b"ALL-RIGHT" => Taken {
            item: Item::Nothing,
            rest: word.rest,
        },
        b"NEEDS" => {
            let needed = first_word(word.rest);
            Taken {
                item: Item::Needs(needed.piece),
                rest: needed.rest,
            }
        }
        b"T{" => match take_test(text) {
            Some(taken) => taken,
            None => take_line(text),
        },
        _ => take_line(text),
    }
}

/// The cell that a word of digits spells, as -5 or 40000.
fn cell_of(word: &[u8]) -> Option<u16> {
    let (digits, is_negative) = match word {
        [b'-', digits @ ..] => (digits, true),
        _ => (word, false),
    };
    let cell = number_of(digits)? % 65536;
    let left = if is_negative { 65536 - cell } else { cell };
    Some((left % 65536) as u16)
}

/// The numbers that words spell; `None` if one of them is no number.
fn cells_of(alloc: Global, words: &[u8]) -> Result<Option<Vec<u16>>, AllocError> {
    let mut cells = Vec::new(alloc);
    let mut rest = words;
    for _ in 0..words.len() {
        let word = first_word(rest);
        if word.piece.is_empty() {
            break;
        }
        match cell_of(word.piece) {
            Some(cell) => cells.push(cell)?,
            None => return Ok(None),
        }
        rest = word.rest;
    }
    Ok(Some(cells))
}

/// A trial about a word, as it is written.
fn trial_of<'a>(alloc: Global, word: &'a [u8], test: Test<'a>) -> Result<Trial<'a>, AllocError> {
    let (kind, wanted) = match cells_of(alloc, test.wanted)? {
        Some(cells) => (test.kind, cells),
        None => (Kind::Anything, Vec::new(alloc)),
    };
    Ok(Trial {
        word,
        lines: test.lines,
        is_tested: true,
        kind,
        wanted,
        shows: test.shows,
    })
}

/// The trials of a checker's screen, whose lines this text has.
pub fn trials_of(alloc: Global, text: &[u8]) -> Result<Vec<Trial<'_>>, AllocError> {
    let mut found = Vec::new(alloc);
    let mut word: &[u8] = b"";
    let mut rest = trimmed_start(text);
    for _ in 0..text.len() {
        if rest.is_empty() {
            break;
        }
        let taken = take_item(rest);
        match taken.item {
            Item::Nothing => {}
            Item::Needs(needed) => word = needed,
            Item::Line(lines) => found.push(Trial {
                word,
                lines,
                is_tested: false,
                kind: Kind::Anything,
                wanted: Vec::new(alloc),
                shows: b"",
            })?,
            Item::Test(test) => found.push(trial_of(alloc, word, test)?)?,
        }
        rest = trimmed_start(taken.rest);
    }
    Ok(found)
}
