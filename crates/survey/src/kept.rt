//! What no dialect can keep.

use crate::source::{Place, Source};
use std::alloc::{AllocError, Global};
use survey_tables::has;

/// What no dialect can keep: how many words it is written with, beginning at which place, and why; or what it is called.
#[derive(Clone, Copy)]
pub struct NotKept<'a> {
    pub name: &'static [u8],
    pub words: [&'a [u8]; 3],
    pub why: &'static [u8],
    pub place: Place<'a>,
}

/// Whether two words compare with the high bit of a name's last letter.
fn is_last_letter(a: &[u8], b: &[u8]) -> bool {
    matches!(
        (a, b),
        (b"128", b"<")
            | (b"127", b">")
            | (b"80", b"<")
            | (b"7F", b">")
            | (b"128", b"AND")
            | (b"80", b"AND")
    )
}

/// Whether three words compile the distance of a branch.
fn is_distance(a: &[u8], b: &[u8], c: &[u8]) -> bool {
    matches!(
        (a, b, c),
        (b"HERE", b"-", b",") | (b"-", b"SWAP", b"!") | (b"OVER", b"-", b"SWAP")
    )
}

/// What else a source does that makes its words mean something.
#[derive(Clone, Copy)]
struct Habits {
    /// It reads names of headers.
    reads_names: bool,
    /// It compiles branches.
    compiles_branches: bool,
}

impl Habits {
    fn of(source: &Source<'_>) -> Habits {
        let places = source.places.as_slice();
        Habits {
            reads_names: places
                .iter()
                .any(|place| has(b"NFA LATEST ID.", place.word)),
            compiles_branches: places.iter().zip(places.iter().skip(1)).any(|(a, b)| matches!(
                a.word, b"COMPILE"
            ) && has(b"BRANCH 0BRANCH", b.word)),
        }
    }

    /// Why this can't be kept.
    fn why(self, a: &[u8], b: &[u8], c: &[u8]) -> Option<&'static [u8]> {
        match (a, b) {
            (b"BLOCK", b"2-") => Some(
                b"there is no block number before a buffer: keep it in a variable",
            ),
            (b"BLOCK", b"2") if matches!(c, b"-") => Some(
                b"there is no block number before a buffer: keep it in a variable",
            ),
            (b"LFA", b"!") => Some(b"links can be read, not written"),
            (b"COMPILE", b"(DO)" | b"(?DO)" | b"(LOOP)" | b"(+LOOP)") => Some(
                b"loops differ inside: write [COMPILE] DO and [COMPILE] LOOP",
            ),
            (b"PAD", b"HERE") | (b"HERE", b"PAD") => Some(
                b"PAD is 340 bytes after HERE here; elsewhere it is 64 to 84",
            ),
            _ if self.compiles_branches && is_distance(a, b, c) => Some(
                b"branches hold addresses, not distances: write BACK or [COMPILE] THEN",
            ),
            _ if self.reads_names && matches!(a, b"C@") && is_last_letter(b, c) => {
                Some(b"a name's last letter has no high bit here: use TRAVERSE or COUNT")
            }
            _ => None,
        }
    }
}

/// What is written with words of the source.
fn written<'a>(alloc: Global, source: &Source<'a>) -> Result<Vec<NotKept<'a>>, AllocError> {
    let mut found = Vec::new(alloc);
    let habits = Habits::of(source);
    for (index, place) in source.places.iter().enumerate() {
        let (next, third) = (
            source.at(index.saturating_add(1)),
            source.at(index.saturating_add(2)),
        );
        if let Some(why) = habits.why(place.word, next.word, third.word) {
            let is_long = matches!(next.word, b"2") || is_last_letter(next.word, third.word);
            let last = if is_long { third.word } else { b"" };
            found.push(NotKept {
                name: b"",
                words: [place.word, next.word, last],
                why,
                place: *place,
            })?;
        }
    }
    Ok(found)
}

/// Adds where the number of a block is computed for one of eight parts.
fn add_parts<'a>(found: &mut Vec<NotKept<'a>>, source: &Source<'a>) -> Result<(), AllocError> {
    for (index, place) in source.places.iter().enumerate() {
        let (next, third) = (
            source.at(index.saturating_add(1)),
            source.at(index.saturating_add(2)),
        );
        let fourth = source.at(index.saturating_add(3));
        let is_block = matches!(third.word, b"BLOCK") && !fourth.word.is_empty()
            || matches!(fourth.word, b"BLOCK");
        if matches!((place.word, next.word), (b"8", b"*"))
            && is_block
            && !source.defines(b"BLOCK")
        {
            found.push(NotKept {
                name: b"8 * .. BLOCK",
                words: [b"", b"", b""],
                why: b"a block is a whole screen here: write BLOCK with the screen's number",
                place: *place,
            })?;
        }
    }
    Ok(())
}

/// Adds where SMUDGE shows a name that CREATE made: it is machine code.
fn add_smudged<'a>(found: &mut Vec<NotKept<'a>>, source: &Source<'a>) -> Result<(), AllocError> {
    let has_smudge = !source.defines(b"SMUDGE");
    let mut is_create = false;
    for place in source.places.iter() {
        if !place.is_inside && has(b": CREATE", place.word) {
            is_create = matches!(place.word, b"CREATE");
        }
        if is_create && has_smudge && matches!(place.word, b"SMUDGE") {
            found.push(NotKept {
                name: b"CREATE .. SMUDGE",
                words: [b"", b"", b""],
                why: b"machine code: write the word with :",
                place: *place,
            })?;
        }
    }
    Ok(())
}

/// What no dialect can keep.
pub fn not_kept<'a>(alloc: Global, source: &Source<'a>) -> Result<Vec<NotKept<'a>>, AllocError> {
    let mut found = written(alloc, source)?;
    add_parts(&mut found, source)?;
    add_smudged(&mut found, source)?;
    Ok(found)
}
