//! Headings of screens.

ghost use Rattle.std.specs.Prelude.{◌≡◌, ◌≤◌, IfOk, MatchOption, Some, None, drop, string_bytes, true, false};
ghost use Rattle.screen_text.specs.Screens.{has_mark, heading};
ghost use Rattle.screen_text.specs.Reading.{is_heading, number_of};

use std::alloc::{AllocError, Global};

/// How many bytes are before the number of a heading.
const BEFORE_NUMBER: usize = 9;

/// The heading of a screen.
#[tactic(auto, unfolding(crate::specs::Screens::heading))]
pub fn heading(alloc: Global, number: u16) -> Result<String, AllocError>
    ensures { IfOk result (λ s. string_bytes s ≡ heading number) }
{
    format!(in alloc; "% screen {number}")
}

/// Whether a line begins with `%`.
#[tactic(auto, unfolding(crate::specs::Screens::has_mark))]
pub fn has_mark(line: &[u8]) -> bool
    ensures { result ≡ has_mark line.now }
{
    match line.first() {
        Some(byte) => *byte == b'%',
        None => false,
    }
}

/// What digits come to, or 65,536 if that is above.
#[tactic(auto, unfolding(crate::specs::Reading::number_of))]
fn number_of(digits: &[u8]) -> u32
    ensures value { result ≡ number_of digits.now }
    ensures bound { result ≤ 65536 }
{
    let mut number: u32 = 0;
    for digit in digits {
        number = (10 * number + u32::from(digit.saturating_sub(48))).min(65536);
    }
    number
}

/// What comes after the first bytes of a line.
pub fn behind(line: &[u8], count: usize) -> &[u8]
    ensures { result.now ≡ drop count line.now }
{
    if count < line.len() {
        &line[count..]
    } else {
        &[]
    }
}

/// The number of the screen that a heading names. `None`: the line is no heading.
#[tactic(auto, unfolding(crate::specs::Reading::is_heading))]
pub fn named(alloc: Global, line: &[u8]) -> Result<Option<u16>, AllocError>
    ensures { IfOk result
        (λ r. MatchOption r (is_heading line.now ≡ false)
        (λ n. (is_heading line.now ≡ true) × (n ≡ number_of (drop 9 line.now)))) }
{
    let number = number_of(behind(line, BEFORE_NUMBER));
    let Ok(number) = u16::try_from(number) else {
        return Ok(None);
    };
    let text = heading(alloc, number)?;
    if text.as_str().as_bytes() == line {
        Ok(Some(number))
    } else {
        Ok(None)
    }
}
