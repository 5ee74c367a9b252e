//! Screens in the bytes of a block file.

ghost use Rattle.std.specs.Prelude.{◌≡◌, ◌≤◌, ◌+◌, ◌*◌, ◌++◌, IfOk, OnOk, drop, length, take};
ghost use Rattle.screen_text.specs.Blocks.{with_screen, with_screens};
ghost use Rattle.screen_text.specs.Screens.{screens_of};

use crate::bytes::pad;
use crate::reading::{SCREEN, Screens};
use std::alloc::AllocError;

/// Bytes take the place of the first bytes.
fn put_first(bytes: &mut [u8], part: &[u8])
    requires { length part.now ≤ length bytes.old }
    ensures { bytes.new ≡ part.now ++ drop (length part.now) bytes.old }
{
    bytes[..part.len()].copy_from_slice(part);
}

/// Bytes take the place of those from `start` on.
#[tactic(auto, using(crate::proofs::Placing::behind_start))]
fn put_at(bytes: &mut [u8], start: usize, part: &[u8])
    requires { start + length part.now ≤ length bytes.old }
    ensures { bytes.new ≡ take start bytes.old ++ (part.now ++ drop (start + length part.now) bytes.old) }
{
    put_first(&mut bytes[start..], part);
}

/// Writes a screen into a block file, which grows with blanks if it must.
fn put_screen(file: &mut Vec<u8>, number: u16, bytes: &[u8]) -> Result<(), AllocError>
    requires { length bytes.now ≡ 1024 }
    ensures { OnOk result
        (file.new.items ≡ with_screen file.old.items (record { number = number; bytes = bytes.now })) }
{
    let start = SCREEN * usize::from(number);
    pad(file, start + SCREEN)?;
    put_at(file, start, bytes);
    Ok(())
}

/// A block file with the screens of a text written into it.
pub fn put_screens(file: Vec<u8>, screens: &Screens) -> Result<Vec<u8>, AllocError>
    requires { length screens.now.bytes.items ≡ 1024 * length screens.now.numbers.items }
    ensures { IfOk result
        (λ written. written.items ≡ with_screens file.items
        (screens_of screens.now.numbers.items screens.now.bytes.items)) }
{
    let mut written = file;
    for (index, number) in screens.numbers.iter().enumerate() {
        let start = SCREEN * index;
        put_screen(&mut written, *number, &screens.bytes[start..start + SCREEN])?;
    }
    Ok(written)
}
