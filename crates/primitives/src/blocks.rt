//! A block that a row needs.

ghost use Rattle.std.specs.Prelude.{◌≡◌};
ghost use Rattle.primitives.specs.Blocks.{IsFetched, write_of, without_block};

use block_buffers::entry::Entry;
use machine_parts::faults::NO_BLOCK;
use machine_parts::parts::{Outcome, Parts, Request};

/// References block `u`, and gives its slot; or says what stops the row, which is then unchanged: fault 7, or the
/// request that comes first.
#[tactic(auto, unfolding(crate::specs::Blocks::has_block, crate::specs::Blocks::without_block))]
pub fn fetch(parts: &mut Parts, u: u16) -> Result<usize, Outcome>
    ensures { IsFetched parts.old parts.new u result }
{
    match parts.buffers.find(u) {
        Some(slot) if u32::from(u) < parts.block_count => {
            parts.buffers.touch(u);
            Ok(slot)
        }
        _ => Err(without_block(parts, u)),
    }
}

/// What stops a row that needs block `u`, which no buffer has: fault 7 if it isn't available, else the request that
/// comes first.
#[tactic(auto, unfolding(crate::specs::Blocks::without_block))]
pub fn without_block(parts: &Parts, u: u16) -> Outcome
    ensures { result ≡ without_block parts.now u }
{
    if u32::from(u) >= parts.block_count {
        return Outcome::Fault(NO_BLOCK);
    }
    let victim = parts.buffers.victim();
    if victim.updated {
        return write_of(&victim);
    }
    Outcome::Ask(Request::Read { block: u })
}

/// Asks that the block of an entry be written.
pub fn write_of(entry: &Entry) -> Outcome
    ensures { result ≡ write_of entry.now }
{
    Outcome::Ask(Request::Write {
        block: entry.block.unwrap_or(0),
    })
}
