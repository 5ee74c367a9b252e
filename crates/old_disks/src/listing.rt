//! Texts and listings as screens.

use crate::bytes::{LINE, LINES, MOST_SCREENS, SCREEN, push_padded};
use crate::headings::{heading, numbered};
use crate::lines::lines_of;
use crate::refusal::Refusal;
use std::alloc::{AllocError, Global};

/// A screen of a text: its number, and which lines it has.
#[derive(Clone, Copy, PartialEq, Eq, PartialOrd, Ord)]
struct Part {
    number: usize,
    begin: usize,
    end: usize,
}

/// The screens that have headings.
fn headed(alloc: Global, lines: &[Vec<u8>]) -> Result<Vec<Part>, AllocError> {
    let mut parts: Vec<Part> = Vec::new(alloc);
    for (at, line) in lines.iter().enumerate() {
        let end = at.saturating_add(1);
        if let Some(number) = heading(line.as_slice()) {
            parts.push(Part {
                number,
                begin: end,
                end,
            })?;
        } else if let Some(part) = parts.last_mut() {
            part.end = end;
        }
    }
    Ok(parts)
}

/// The screens of a text without headings: 16 lines each.
fn unheaded(alloc: Global, count: usize) -> Result<Vec<Part>, AllocError> {
    let mut parts = Vec::new(alloc);
    for number in 0..(count.saturating_sub(1) / LINES).saturating_add(1) {
        let begin = number.saturating_mul(LINES);
        parts.push(Part {
            number,
            begin,
            end: begin.saturating_add(LINES).min(count),
        })?;
    }
    Ok(parts)
}

/// Whether each line that has something begins with a number, each above the one before.
fn is_numbered(lines: &[Vec<u8>]) -> bool {
    let mut least = 0;
    for line in lines.iter().filter(|line| !line.is_empty()) {
        match numbered(line.as_slice()) {
            Some((number, _)) if number >= least => least = number.saturating_add(1),
            _ => return false,
        }
    }
    least > 0
}

/// Adds a line.
fn push_line(made: &mut Vec<u8>, text: &[u8], screen: usize, line: usize) -> Result<(), Refusal> {
    if text.len() > LINE {
        let length = text.len();
        return Err(Refusal::LongLine {
            screen,
            line,
            length,
        });
    }
    push_padded(made, text, LINE).map_err(|_| Refusal::OutOfMemory)
}

/// Adds lines, each at the place of the number before it.
fn push_numbered(made: &mut Vec<u8>, lines: &[Vec<u8>], screen: usize) -> Result<(), Refusal> {
    let begin = made.len();
    for line in lines {
        if let Some((number, text)) = numbered(line.as_slice()) {
            if number >= LINES {
                return Err(Refusal::FarLine {
                    screen,
                    line: number,
                });
            }
            made.resize(begin.saturating_add(number * LINE), b' ')
                .map_err(|_| Refusal::OutOfMemory)?;
            push_line(made, text, screen, number)?;
        }
    }
    Ok(())
}

/// Adds lines, one after the other. Blank ones after the last are left out.
fn push_plain(made: &mut Vec<u8>, lines: &[Vec<u8>], screen: usize) -> Result<(), Refusal> {
    let more = lines
        .iter()
        .skip(LINES)
        .filter(|line| !line.is_empty())
        .count();
    if more > 0 {
        let lines = more.saturating_add(LINES);
        return Err(Refusal::ManyLines { screen, lines });
    }
    for (at, line) in lines.iter().take(LINES).enumerate() {
        push_line(made, line.as_slice(), screen, at)?;
    }
    Ok(())
}

/// Adds a screen.
fn push_screen(made: &mut Vec<u8>, lines: &[Vec<u8>], screen: usize) -> Result<(), Refusal> {
    let end = made.len().saturating_add(SCREEN);
    if is_numbered(lines) {
        push_numbered(made, lines, screen)?;
    } else {
        push_plain(made, lines, screen)?;
    }
    made.resize(end, b' ').map_err(|_| Refusal::OutOfMemory)
}

/// The screens of these parts, which are in order, from the first one on, with blank ones between them.
fn screens_of(
    alloc: Global,
    lines: &[Vec<u8>],
    parts: &[Part],
    first: usize,
) -> Result<Vec<u8>, Refusal> {
    let mut made = Vec::new(alloc);
    for part in parts {
        let begin = part.number.saturating_sub(first).saturating_mul(SCREEN);
        if made.len() > begin {
            return Err(Refusal::Twice {
                screen: part.number,
            });
        }
        made.resize(begin, b' ').map_err(|_| Refusal::OutOfMemory)?;
        let own = lines.get(part.begin..part.end).unwrap_or(&[]);
        push_screen(&mut made, own, part.number)?;
    }
    Ok(made)
}

/// The screens of a text or a listing, and the number of the first one.
pub fn screens_of_text(alloc: Global, text: &[u8]) -> Result<(usize, Vec<u8>), Refusal> {
    let lines = lines_of(alloc, text)?;
    let lines = lines.as_slice();
    let mut parts = headed(alloc, lines)?;
    if parts.is_empty() {
        parts = unheaded(alloc, lines.len())?;
    }
    parts.sort_unstable();
    let (Some(first), Some(last)) = (parts.first(), parts.last()) else {
        return Err(Refusal::NoScreen);
    };
    if last.number >= MOST_SCREENS {
        return Err(Refusal::TooLarge);
    }
    let first = first.number;
    Ok((first, screens_of(alloc, lines, parts.as_slice(), first)?))
}

/// Whether the first line of a text that has something is a heading.
pub fn is_listing(alloc: Global, text: &[u8]) -> Result<bool, AllocError> {
    for line in &lines_of(alloc, text)? {
        if !line.is_empty() {
            return Ok(heading(line.as_slice()).is_some());
        }
    }
    Ok(false)
}
