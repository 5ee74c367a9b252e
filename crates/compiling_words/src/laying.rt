//! Bytes at HERE.

ghost use Rattle.std.specs.Prelude.{◌≡◌, [], ◌∷◌, IfOk};
ghost use Rattle.memory.specs.Bytes.{cell, cell_bytes};
ghost use Rattle.memory.specs.Mirrored.{stored};
ghost use Rattle.compiling_words.specs.Code.{literal_code};
ghost use Rattle.compiling_words.specs.Laying.{IsLaid, IsAllotted, can_allot};

use crate::control::literal_code;
use dictionary::{fits, lay_at};
use memory::system::DP;
use memory::{Memory, cell_bytes};
use thiserror::Error;

/// The dictionary has no room for the bytes: they would end after the limit, where the block buffers begin.
#[derive(Clone, Copy, Debug, PartialEq, Eq, Error)]
#[error("Full")]
pub struct Full;

/// Writes bytes, and answers where they begin: HERE as it was.
pub fn lay(memory: &mut Memory, bytes: &[u8], limit: u16) -> Result<u16, Full>
    ensures laid { IsLaid limit (stored memory.old) (stored memory.new) bytes.now result }
    ensures place { IfOk result (λ a. a ≡ cell (stored memory.old) DP) }
{
    if !fits(memory, bytes.len(), limit) {
        return Err(Full);
    }
    let here = memory.cell(DP);
    lay_at(memory, here, bytes);
    Ok(here)
}

/// Writes a cell (Forth-83 `,`).
pub fn comma(memory: &mut Memory, x: u16, limit: u16) -> Result<(), Full>
    ensures { IsLaid limit (stored memory.old) (stored memory.new) (cell_bytes x) result }
{
    lay(memory, &cell_bytes(x), limit)?;
    Ok(())
}

/// Writes a byte (Forth-83 `C,`).
pub fn comma_byte(memory: &mut Memory, byte: u8, limit: u16) -> Result<(), Full>
    ensures { IsLaid limit (stored memory.old) (stored memory.new) (byte ∷ []) result }
{
    lay(memory, &[byte], limit)?;
    Ok(())
}

/// Writes a literal (Forth-83 LITERAL): `(LIT)` and the cell.
pub fn literal(memory: &mut Memory, x: u16, limit: u16) -> Result<(), Full>
    ensures { IsLaid limit (stored memory.old) (stored memory.new) (literal_code (stored memory.old) x) result }
{
    let code = literal_code(memory, x);
    lay(memory, &code, limit)?;
    Ok(())
}

/// Whether HERE moved by `n`, a signed cell, is from 0 to the limit.
#[tactic(auto, unfolding(crate::specs::Laying::can_allot))]
pub fn can_allot(memory: &Memory, n: u16, limit: u16) -> bool
    ensures { result ≡ can_allot limit (stored memory.now) n }
{
    let end = i32::from(memory.cell(DP)) + i32::from(n.cast_signed());
    if end < 0 {
        return false;
    }
    end <= i32::from(limit)
}

/// Moves HERE by `n`, a signed cell (Forth-83 ALLOT). `Full` if it would be below 0 or above the limit.
pub fn allot(memory: &mut Memory, n: u16, limit: u16) -> Result<(), Full>
    ensures { IsAllotted limit (stored memory.old) (stored memory.new) n result }
{
    if !can_allot(memory, n, limit) {
        return Err(Full);
    }
    let here = memory.cell(DP);
    memory.set_cell(DP, here.wrapping_add(n));
    Ok(())
}
