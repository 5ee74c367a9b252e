//! Screens written as text.

ghost use Rattle.std.specs.Prelude.{◌≡◌, ◌++◌, flat_map, IfOk, OnOk};
ghost use Rattle.screen_text.specs.Screens.{line_text, screen_lines, screen_text, written};

use crate::bytes::{LINE, are_text, first_line, is_blank, trimmed};
use crate::escapes::push_escaped;
use crate::headings::{behind, has_mark, heading};
use std::alloc::{AllocError, Global};

/// Adds a line of a screen as it is written.
#[tactic(auto, unfolding(crate::specs::Screens::written, crate::specs::Screens::marked))]
fn push_written(text: &mut Vec<u8>, line: &[u8]) -> Result<(), AllocError>
    ensures { OnOk result (text.new.items ≡ text.old.items ++ written line.now) }
{
    if !are_text(line) {
        return push_escaped(text, line);
    }
    if has_mark(line) {
        text.push(b'%')?;
    }
    text.extend_from_slice(line)
}

/// Adds a line of a screen.
#[tactic(auto, unfolding(crate::specs::Screens::line_text))]
fn push_line(text: &mut Vec<u8>, line: &[u8]) -> Result<(), AllocError>
    ensures { OnOk result (text.new.items ≡ text.old.items ++ line_text line.now) }
{
    push_written(text, line)?;
    text.push(b'\n')?;
    Ok(())
}

/// Adds the lines of a screen, up to the last that isn't blank.
fn push_lines(text: &mut Vec<u8>, bytes: &[u8; 1024]) -> Result<(), AllocError>
    ensures { OnOk result (text.new.items ≡ text.old.items ++ flat_map line_text (screen_lines 16 bytes.now)) }
{
    for row in 0..16usize {
        let rest = behind(bytes, LINE * row);
        if is_blank(rest) {
            return Ok(());
        }
        push_line(text, trimmed(first_line(rest)))?;
    }
    Ok(())
}

/// A screen as text: its heading, then its lines without the blanks at their ends, up to the last that isn't blank. A line
/// that begins with `%` has one `%` more; one with bytes that are no text is written by escapes.
#[tactic(auto, unfolding(crate::specs::Screens::screen_text))]
pub fn screen_text(alloc: Global, number: u16, bytes: &[u8; 1024]) -> Result<Vec<u8>, AllocError>
    ensures { IfOk result (λ v. v.items ≡ screen_text number bytes.now) }
{
    let title = heading(alloc, number)?;
    let mut text = Vec::new(alloc);
    text.extend_from_slice(title.as_str().as_bytes())?;
    text.push(b'\n')?;
    push_lines(&mut text, bytes)?;
    Ok(text)
}
