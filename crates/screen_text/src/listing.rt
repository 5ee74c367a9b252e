//! Which lines of a text are headings.

ghost use Rattle.std.specs.Prelude.{◌≡◌, ◌++◌, IfOk, OnOk, map};
ghost use Rattle.screen_text.specs.Headings.{heading_line, listed_headings, listed_line, listed_lines};

use crate::bytes::{spread, trimmed};
use crate::headings::named;
use crate::reading::lines_of;
use std::alloc::{AllocError, Global};

/// Adds what is listed of a heading: the number of its screen, and that of its line.
#[tactic(auto, unfolding(crate::specs::Headings::heading_line))]
fn push_heading(
    alloc: Global,
    listing: &mut Vec<u8>,
    number: u16,
    line: usize,
) -> Result<(), AllocError>
    ensures { OnOk result (listing.new.items ≡ listing.old.items ++ heading_line number line) }
{
    let entry = format!(in alloc; "{number} {line}\n")?;
    listing.extend_from_slice(entry.as_str().as_bytes())
}

/// Adds what is listed of a line of a text: something if it is a heading.
#[tactic(auto, unfolding(crate::specs::Headings::listed_line))]
fn push_line(
    alloc: Global,
    listing: &mut Vec<u8>,
    text: &[u8],
    line: usize,
) -> Result<(), AllocError>
    ensures { OnOk result (listing.new.items ≡ listing.old.items ++ listed_line line text.now) }
{
    let plain = spread(alloc, text)?;
    match named(alloc, trimmed(plain.as_slice()))? {
        Some(number) => push_heading(alloc, listing, number, line),
        None => Ok(()),
    }
}

/// What is listed of lines, of which the first is line 1.
fn list_lines(alloc: Global, lines: &[&[u8]]) -> Result<Vec<u8>, AllocError>
    ensures { IfOk result (λ v. v.items ≡ listed_lines 1 (map (λ x. x.now) lines.now)) }
{
    let mut listing = Vec::new(alloc);
    for (index, line) in lines.iter().enumerate() {
        push_line(alloc, &mut listing, line, index + 1)?;
    }
    Ok(listing)
}

/// The headings of a text, as lines: the number of each screen, a blank, and the number of its line, counted from 1. Lines that can't be read are no
/// headings, and nothing is wrong with two headings of the same screen.
#[tactic(auto, unfolding(crate::specs::Headings::listed_headings))]
pub fn list_headings(alloc: Global, text: &[u8]) -> Result<Vec<u8>, AllocError>
    ensures { IfOk result (λ v. v.items ≡ listed_headings text.now) }
{
    let lines = lines_of(alloc, text)?;
    list_lines(alloc, lines.as_slice())
}
