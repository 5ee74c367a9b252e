//! What screens look like.

ghost use Rattle.std.specs.Prelude.{◌≡◌, ◌↔◌, All, IsTrue};

use crate::names::Names;
use crate::numbers::is_number;
use crate::reader::Reader;
use std::alloc::{AllocError, Global};
use survey_tables::{SUMS, has};

/// How many bytes a screen has.
pub const BLOCK: usize = 1024;

/// How many bytes of a screen may be no text.
const MOST_BAD: usize = 32;

/// Words that only a source has.
const SOURCE_WORDS: &[u8] = b": ; LOAD THRU CONSTANT VARIABLE CREATE (";

/// What a screen looks like.
#[derive(Clone, Copy, Debug, PartialEq, Eq, Drop)]
pub enum Kind {
    Source,
    /// The comments on a source, half a file after it.
    Shadow,
    Text,
    Data,
    /// A screen of a dialect of this Forth.
    Dialect,
    Blank,
}

/// A screen: its bytes, its text with blanks for what isn't any, the same in capitals, and what it looks like.
#[derive(Clone, Copy)]
pub struct Screen<'a> {
    pub number: usize,
    pub bytes: &'a [u8],
    pub text: &'a [u8],
    pub capitals: &'a [u8],
    pub kind: Kind,
}

/// Whether a byte is no text.
pub fn is_bad(byte: u8) -> bool {
    !(32..=126).contains(&byte)
}

/// Whether a byte is neither text, nor what files of text have between it, nor a letter of a larger character set.
fn is_odd(byte: u8) -> bool {
    is_bad(byte) && !matches!(byte, 0 | 9 | 10 | 13 | 26) && !(161..=254).contains(&byte)
}

/// Whether a text is all blanks.
pub fn is_blank(text: &[u8]) -> bool
    ensures { IsTrue result ↔ All (λ b. b ≡ 32) text.now }
{
    text.iter().all(|byte| *byte == b' ')
}

/// Whether all bytes are the same.
fn is_filled(bytes: &[u8]) -> bool {
    match bytes {
        [first, rest @ ..] => rest.iter().all(|byte| *byte == *first),
        [] => true,
    }
}

/// A sum of bytes by which the screens of dialects are known: FNV-1a with 64 bits.
fn sum_of(bytes: &[u8]) -> u64 {
    bytes.iter().fold(0xcbf2_9ce4_8422_2325, |sum: u64, byte| {
        (sum ^ u64::from(*byte)).wrapping_mul(0x0000_0100_0000_01b3)
    })
}

/// Whether these are the bytes of a dialect's screen.
pub fn is_of_dialect(bytes: &[u8]) -> bool {
    SUMS.binary_search(&sum_of(bytes)).is_ok()
}

/// How many words a text has; how many of them are known, or numbers; and how many only a source has.
fn counts(capitals: &[u8], names: &Names<'_>) -> (usize, usize, usize) {
    let mut reader = Reader::new(capitals, false);
    let (mut words, mut hits, mut marks) = (0usize, 0usize, 0usize);
    for _ in 0..capitals.len() {
        let Some(word) = reader.next() else {
            break;
        };
        let bytes = reader.bytes(word);
        words = words.saturating_add(1);
        if names.has(bytes) || is_number(bytes, false) {
            hits = hits.saturating_add(1);
        }
        if has(SOURCE_WORDS, bytes) {
            marks = marks.saturating_add(1);
        }
    }
    (words, hits, marks)
}

/// Twice as many.
pub fn twice(count: usize) -> usize {
    count.saturating_add(count)
}

/// Whether a text looks like source: half of its words are known, or a quarter and some of them are those of a source.
fn is_source(capitals: &[u8], names: &Names<'_>) -> bool {
    let (words, hits, marks) = counts(capitals, names);
    words <= twice(hits) || marks >= 2 && words <= twice(twice(hits))
}

/// What a screen looks like, by itself.
pub fn kind_of(bytes: &[u8], text: &[u8], capitals: &[u8], names: &Names<'_>) -> Kind {
    if is_of_dialect(bytes) {
        return Kind::Dialect;
    }
    if is_blank(text) || is_filled(bytes) {
        return Kind::Blank;
    }
    if bytes.iter().filter(|byte| is_odd(**byte)).count() > MOST_BAD {
        return Kind::Data;
    }
    if is_source(capitals, names) {
        Kind::Source
    } else {
        Kind::Text
    }
}

/// Whether a screen is text half a file after a source.
fn is_shadow(screens: &[Screen<'_>], at: usize, half: usize) -> bool {
    let is_kind =
        |at: usize, kind: Kind| matches!(screens.get(at), Some(screen) if screen.kind == kind);
    at >= half && is_kind(at, Kind::Text) && is_kind(at - half, Kind::Source)
}

/// Makes shadows of the texts, if most of them are half a file after a source.
fn find_shadows(screens: &mut Vec<Screen<'_>>) {
    let count = screens.len();
    let half = count / 2 + count % 2;
    let all = screens.as_slice();
    let shadows = (0..count).filter(|at| is_shadow(all, *at, half)).count();
    let texts = all
        .iter()
        .filter(|screen| screen.kind == Kind::Text)
        .count();
    if shadows <= 1 || twice(shadows) <= texts {
        return;
    }
    for at in half..screens.len() {
        if is_shadow(screens.as_slice(), at, half) {
            screens[at].kind = Kind::Shadow;
        }
    }
}

/// The bytes of screens, their text, and the same in capitals; a last screen may be short.
#[derive(Drop)]
pub struct Texts {
    pub text: Vec<u8>,
    pub capitals: Vec<u8>,
}

impl Texts {
    /// Of these bytes.
    pub fn new(alloc: Global, bytes: &[u8]) -> Result<Texts, AllocError> {
        let mut text = Vec::from_slice(alloc, bytes)?;
        containers::clean(text.as_mut_slice());
        let capitals = text
            .iter()
            .map(|byte| byte.to_ascii_uppercase())
            .collect(alloc)?;
        Ok(Texts { text, capitals })
    }
}

/// The screens from `first` to `last` of these bytes, and what they look like.
pub fn screens_of<'a>(
    alloc: Global,
    bytes: &'a [u8],
    texts: &'a Texts,
    first: usize,
    last: usize,
    names: &Names<'_>,
) -> Result<Vec<Screen<'a>>, AllocError> {
    let mut screens = Vec::new(alloc);
    let both = texts
        .text
        .as_slice()
        .chunks(BLOCK)
        .zip(texts.capitals.as_slice().chunks(BLOCK));
    for (number, (bytes, (text, capitals))) in bytes.chunks(BLOCK).zip(both).enumerate() {
        if number >= first && number <= last {
            let kind = kind_of(bytes, text, capitals, names);
            screens.push(Screen {
                number,
                bytes,
                text,
                capitals,
                kind,
            })?;
        }
    }
    find_shadows(&mut screens);
    Ok(screens)
}
