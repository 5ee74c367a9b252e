//! Bytes written at HERE.

ghost use Rattle.std.specs.Prelude.{◌≡◌, ◌≤◌, length, IsTrue};
ghost use Rattle.memory.specs.Mirrored.{stored};
ghost use Rattle.dictionary.specs.Laying.{fits, laid_at};

use memory::Memory;
use memory::system::DP;

/// Whether `n` bytes fit at HERE: they end at `limit` at the latest, where the block buffers begin.
#[tactic(auto, unfolding(crate::specs::Laying::fits))]
pub fn fits(memory: &Memory, n: usize, limit: u16) -> bool
    ensures value { result ≡ fits limit (stored memory.now) n }
    ensures bound { IsTrue result → n ≤ limit }
{
    let here = memory.cell(DP);
    if here > limit {
        return false;
    }
    n <= usize::from(limit - here)
}

/// Writes bytes at an address, and sets DP after them.
#[tactic(auto, unfolding(crate::specs::Laying::laid_at))]
pub fn lay_at(memory: &mut Memory, here: u16, bytes: &[u8])
    requires { length bytes.now ≤ 65535 }
    ensures { stored memory.new ≡ laid_at here (stored memory.old) bytes.now }
{
    memory.set_bytes(here, bytes);
    memory.set_cell(DP, here.wrapping_add(bytes.len() as u16));
}
