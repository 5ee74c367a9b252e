//! Texts with places for what a message is about.

use std::alloc::AllocError;

/// What is put if a text has this name between braces.
#[derive(Clone, Copy)]
pub struct Value<'a> {
    pub name: &'static [u8],
    pub text: &'a [u8],
}

/// The text of the value with this name; an empty one if there is none.
fn value_of<'a>(values: &[Value<'a>], name: &[u8]) -> &'a [u8] {
    match values.iter().find(|value| value.name == name) {
        Some(value) => value.text,
        None => b"",
    }
}

/// Adds a piece of a text, which begins with a name and the brace after it.
fn put_piece(page: &mut Vec<u8>, piece: &[u8], values: &[Value<'_>]) -> Result<(), AllocError> {
    let Some(end) = piece.iter().position(|byte| *byte == b'}') else {
        return Ok(());
    };
    page.extend_from_slice(value_of(values, piece.get(..end).unwrap_or(b"")))?;
    page.extend_from_slice(piece.get(end + 1..).unwrap_or(b""))
}

/// Adds a text, with these values in the places that have their names.
pub fn put_filled(page: &mut Vec<u8>, text: &[u8], values: &[Value<'_>]) -> Result<(), AllocError> {
    for (index, piece) in text.split(|byte| *byte == b'{').enumerate() {
        if index == 0 {
            page.extend_from_slice(piece)?;
        } else {
            put_piece(page, piece, values)?;
        }
    }
    Ok(())
}
