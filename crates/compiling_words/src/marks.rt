//! The places of branches: those left open until their target is known, and those known as targets.

ghost use Rattle.std.specs.Prelude.{◌≡◌, IfOk};
ghost use Rattle.memory.specs.Bytes.{cell, cell_bytes};
ghost use Rattle.memory.specs.Mirrored.{stored};
ghost use Rattle.compiling_words.specs.Laying.{IsLaid, resolved};

use crate::laying::{Full, comma, lay};
use memory::system::DP;
use memory::{Memory, cell_bytes};

/// Leaves a cell open, which is 0 until it is resolved, and answers where it is (Forth-83 `>MARK`).
pub fn mark_forward(memory: &mut Memory, limit: u16) -> Result<u16, Full>
    ensures laid { IsLaid limit (stored memory.old) (stored memory.new) (cell_bytes 0) result }
    ensures place { IfOk result (λ a. a ≡ cell (stored memory.old) DP) }
{
    lay(memory, &cell_bytes(0), limit)
}

/// Makes HERE the target of the cell at `a` that was left open (Forth-83 `>RESOLVE`).
pub fn resolve_forward(memory: &mut Memory, a: u16)
    ensures { stored memory.new ≡ resolved (stored memory.old) a }
{
    let here = mark_back(memory);
    memory.set_cell(a, here);
}

/// HERE, as the target of a branch that comes later (Forth-83 `<MARK`).
pub fn mark_back(memory: &Memory) -> u16
    ensures { result ≡ cell (stored memory.now) DP }
{
    memory.cell(DP)
}

/// Writes the target `a` of a branch back (Forth-83 `<RESOLVE`).
pub fn resolve_back(memory: &mut Memory, a: u16, limit: u16) -> Result<(), Full>
    ensures { IsLaid limit (stored memory.old) (stored memory.new) (cell_bytes a) result }
{
    comma(memory, a, limit)
}
