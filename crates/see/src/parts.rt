//! The words of a thread while they are looked for: a text is known by its place, so that their room can be used again.

ghost use Rattle.std.specs.Prelude.{◌≡◌, take, drop};
ghost use Rattle.colon_bodies.specs.Draft.{token};
ghost use Rattle.see.specs.Parts.{token_in};

use crate::front::{head, tail};
use colon_bodies::BodyWord;

/// A word of a thread.
#[derive(Clone, Copy)]
pub enum Part {
    /// A word without a text.
    Word(BodyWord<'static>),
    /// A text, or one of ABORT", by its place in the bytes of the thread and its length.
    Text {
        aborts: bool,
        place: usize,
        length: usize,
    },
}

/// So many bytes from a place on.
fn cut(bytes: &[u8], place: usize, length: usize) -> &[u8]
    ensures { result.now ≡ take length (drop place bytes.now) }
{
    head(tail(bytes, place), length)
}

/// A word of the thread of these bytes.
pub fn word_in<'a>(bytes: &'a [u8], part: Part) -> BodyWord<'a>
    ensures { token result ≡ token_in bytes.now part }
{
    match part {
        Part::Word(word) => word,
        Part::Text {
            aborts,
            place,
            length,
        } => BodyWord::Text(aborts, cut(bytes, place, length)),
    }
}
