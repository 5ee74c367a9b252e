//! Blanks, tabs, and bytes that are text.

ghost use Rattle.std.specs.Prelude.{◌≡◌, ◌||◌, ◌==◌, ◌∷◌, [], List, ℕ, length, IfOk, OnOk, ◌++◌, take};
ghost use Rattle.std.specs.List.{list_all};
ghost use Rattle.screen_text.specs.Bytes.{bad_byte, blanks, is_blank, is_text, padded, spread, trimmed};

use std::alloc::{AllocError, Global};

/// How many bytes a line of a screen has.
pub const LINE: usize = 64;

/// Whether a text can carry this byte.
#[tactic(auto, unfolding(crate::specs::Bytes::is_text))]
pub fn is_text(byte: u8) -> bool
    ensures { result ≡ is_text byte }
{
    byte >= 32 && byte <= 126
}

/// Whether a text can carry all these bytes as they are.
pub fn are_text(bytes: &[u8]) -> bool
    ensures { result ≡ list_all is_text bytes.now }
{
    bytes.iter().all(|byte| is_text(*byte))
}

/// Whether a line of a text has nothing but text and tabs.
pub fn is_line(line: &[u8]) -> bool
    ensures { result ≡ list_all (λ b. b == 9 || is_text b) line.now }
{
    line.iter().all(|byte| *byte == b'\t' || is_text(*byte))
}

/// Whether a byte may be in a line of a text: it is text, or a tab.
fn may_stand(byte: u8) -> bool
    ensures { result ≡ (byte == 9 || is_text byte) }
{
    byte == b'\t' || is_text(byte)
}

/// A line's first byte that is neither a tab nor text, 0 if there is none.
pub fn bad_byte(line: &[u8]) -> u8
    ensures { result ≡ bad_byte line.now }
{
    for byte in line {
        if !may_stand(*byte) {
            return *byte;
        }
    }
    0
}

/// Whether there is nothing but blanks.
#[tactic(auto, unfolding(crate::specs::Bytes::is_blank))]
pub fn is_blank(bytes: &[u8]) -> bool
    ensures { result ≡ is_blank bytes.now }
{
    bytes.iter().all(|byte| *byte == b' ')
}

/// A line without the blanks at its end.
#[tactic(auto, using(crate::proofs::Blanks::trimmed_less, crate::proofs::Blanks::trimmed_whole, crate::proofs::Blanks::trimmed_none))]
pub fn trimmed(line: &[u8]) -> &[u8]
    ensures { result.now ≡ trimmed line.now }
{
    let mut end = line.len();
    while end > 0 {
        if line[end - 1] != b' ' {
            return &line[..end];
        }
        end -= 1;
    }
    &[]
}

/// The first line of a screen: 64 bytes, or all if there are fewer.
#[tactic(auto, using(crate::proofs::Lines::taken_front, crate::proofs::Lines::taken_all))]
pub fn first_line(bytes: &[u8]) -> &[u8]
    ensures { result.now ≡ take 64 bytes.now }
{
    if bytes.len() > LINE {
        &bytes[..LINE]
    } else {
        bytes
    }
}

/// Fills bytes with blanks, up to this length.
#[tactic(auto, unfolding(crate::specs::Bytes::padded, crate::specs::Bytes::blanks))]
pub fn pad(bytes: &mut Vec<u8>, length: usize) -> Result<(), AllocError>
    ensures { OnOk result (bytes.new.items ≡ padded length bytes.old.items) }
{
    if bytes.len() < length {
        bytes.resize(length, b' ')?;
    }
    Ok(())
}

/// A line with blanks for its tabs, each up to the next column of eight.
pub fn spread(alloc: Global, line: &[u8]) -> Result<Vec<u8>, AllocError>
    ensures { IfOk result (λ v. v.items ≡ spread 0 line.now) }
{
    let mut plain = Vec::new(alloc);
    for byte in line {
        push_spread(&mut plain, *byte)?;
    }
    Ok(plain)
}

/// Adds a byte of a line, or blanks for a tab.
#[tactic(auto, using(crate::proofs::Blanks::spread_tab, crate::proofs::Blanks::spread_other))]
fn push_spread(plain: &mut Vec<u8>, byte: u8) -> Result<(), AllocError>
    ensures { OnOk result ((rest : List ℕ) →
        plain.new.items ++ spread (length plain.new.items) rest ≡ plain.old.items ++ spread (length plain.old.items)
        (byte ∷ rest)) }
{
    if byte != b'\t' {
        plain.push(byte)?;
        return Ok(());
    }
    let blanks = 8 - plain.len() % 8;
    pad(plain, plain.len().saturating_add(blanks))
}
