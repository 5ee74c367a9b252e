//! The bytes that are written, and the marks.

ghost use Rattle.std.specs.Prelude.{◌≡◌, ℕ, ◌+◌, ◌<◌, ◌≤◌, ◌^◌, ◌++◌, length, vec_capacity, IsOk, IsSome, OnOk, OnErr, IfErr};
ghost use Rattle.memory.specs.Bytes.{cell_bytes};
ghost use Rattle.colon_bodies.specs.Open.{Outer};
ghost use Rattle.colon_bodies.specs.Draft.{marks_of, top_mark, outside, Patches};
ghost use Rattle.colon_bodies.specs.declared.fault.BodyCause.TheVariants.{Memory};

use crate::draft::Mark;
use crate::fault::BodyCause;
use memory::cell_bytes;

/// Writes a cell after the bytes; the only refusal is lack of memory.
pub fn lay_cell(image: &mut Vec<u8>, x: u16) -> Result<(), BodyCause>
    ensures bytes { OnOk result (image.new.items ≡ image.old.items ++ cell_bytes x) }
    ensures longer { OnOk result (length image.new.items ≡ length image.old.items + 2) }
    ensures memory { IfErr result (λ e. e ≡ Memory) }
    ensures kept { OnErr result (image.new.items ≡ image.old.items) }
    ensures capacity { vec_capacity image.old ≤ vec_capacity image.new }
    ensures room { length image.old.items + 2 ≤ vec_capacity image.old → IsOk result }
{
    image.extend_from_slice(&cell_bytes(x))?;
    Ok(())
}

/// Writes a cell over the two bytes at a place.
pub fn patch(image: &mut Vec<u8>, place: usize, x: u16)
    requires { place + 1 < length image.old.items }
    ensures patched { Patches image.old.items image.new.items place x }
    ensures capacity { vec_capacity image.new ≡ vec_capacity image.old }
    ensures long { length image.new.items ≡ length image.old.items }
{
    image[place] = (x % 256) as u8;
    image[place + 1] = (x / 256) as u8;
}

/// The address after the bytes, of which the first is at `at`.
pub fn here(at: u16, image: &Vec<u8>) -> u16
    requires { at + length image.now.items < 2 ^ 16 }
    ensures { result ≡ at + length image.now.items }
{
    at + image.len() as u16
}

/// Takes off the mark of the innermost open structure.
pub fn pop_mark(marks: &mut Vec<Mark>) -> Option<Mark>
    ensures top { (at : ℕ) (o : Outer) → marks.old.items ≡ marks_of at o →
        (result ≡ top_mark at o) × (marks.new.items ≡ marks_of at (outside o)) }
    ensures capacity { vec_capacity marks.new ≡ vec_capacity marks.old }
    ensures room { IsSome result → length marks.new.items < vec_capacity marks.new }
{
    marks.pop()
}
