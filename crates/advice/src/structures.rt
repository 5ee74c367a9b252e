//! Which structure of a definition has no end, and EXIT in a counted loop, by the definition's source.

use crate::case::Piece;
use std::alloc::{AllocError, Global};

/// What ends the structure that a word opens; none if the word opens none.
pub fn end_of(name: &[u8]) -> Option<&'static [u8]> {
    match name {
        b"IF" => Some(b"THEN"),
        b"BEGIN" => Some(b"UNTIL, AGAIN or REPEAT"),
        b"WHILE" => Some(b"REPEAT"),
        b"DO" | b"?DO" => Some(b"LOOP"),
        b"CASE" => Some(b"ENDCASE"),
        b"OF" => Some(b"ENDOF"),
        _ => None,
    }
}

/// Whether a word closes a structure.
fn closes(name: &[u8]) -> bool {
    matches!(
        name,
        b"THEN" | b"UNTIL" | b"AGAIN" | b"REPEAT" | b"LOOP" | b"+LOOP" | b"ENDCASE" | b"ENDOF"
    )
}

/// Whether a word closes the structure that another one opens.
fn is_closed_by(open: &[u8], name: &[u8]) -> bool {
    matches!(
        (open, name),
        (b"IF", b"THEN")
            | (b"BEGIN", b"UNTIL" | b"AGAIN")
            | (b"WHILE", b"REPEAT")
            | (b"DO" | b"?DO", b"LOOP" | b"+LOOP")
            | (b"CASE", b"ENDCASE")
            | (b"OF", b"ENDOF")
    )
}

/// Closes the innermost structure by this word. Answers whether the word closes that one.
fn close(open: &mut Vec<Piece<'_>>, name: &[u8]) -> bool {
    let Some(last) = open.pop() else {
        return false;
    };
    if matches!(name, b"REPEAT") {
        open.pop();
    }
    is_closed_by(last.text, name)
}

/// The word that opens the innermost structure without an end in the last definition of these words; none if there is none, or if a word closes another
/// structure than the innermost one.
pub fn unfinished<'a>(alloc: Global, words: &[Piece<'a>]) -> Result<Option<Piece<'a>>, AllocError> {
    let mut open: Vec<Piece<'a>> = Vec::new(alloc);
    for word in words {
        if matches!(word.text, b":") {
            open.clear();
        } else if end_of(word.text).is_some() {
            open.push(*word)?;
        } else if closes(word.text) && !close(&mut open, word.text) {
            return Ok(None);
        }
    }
    Ok(open.pop())
}

/// How many counted loops are open, and whether their cells are still on the return stack.
#[derive(Clone, Copy)]
struct Loops {
    depth: i64,
    has_dropped: bool,
}

impl Loops {
    /// The loops after a word.
    fn after(self, name: &[u8]) -> Loops {
        let Loops { depth, has_dropped } = self;
        match name {
            b":" => Loops {
                depth: 0,
                has_dropped: false,
            },
            b"UNLOOP" | b"R>" => Loops {
                depth,
                has_dropped: true,
            },
            b"DO" | b"?DO" => Loops {
                depth: depth.saturating_add(1),
                has_dropped,
            },
            b"LOOP" | b"+LOOP" => Loops {
                depth: depth.saturating_sub(1),
                has_dropped,
            },
            _ => self,
        }
    }
}

/// The name of the line with the last EXIT that is in a counted loop whose cells stay.
pub fn exit_in_loop<'a>(words: &[Piece<'a>]) -> Option<&'a [u8]> {
    let mut loops = Loops {
        depth: 0,
        has_dropped: false,
    };
    let mut found = None;
    for word in words {
        loops = loops.after(word.text);
        if matches!(word.text, b"EXIT") && loops.depth > 0 && !loops.has_dropped {
            found = Some(word.line);
        }
    }
    found
}
