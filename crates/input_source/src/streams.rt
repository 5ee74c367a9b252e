//! Where the stream is.

ghost use Rattle.std.specs.Prelude.{◌≤◌, IfOk};
ghost use Rattle.memory.specs.Mirrored.{stored};
ghost use Rattle.input_source.specs.Streams.{IsStream};

use crate::words::Stream;
use block_buffers::{BLOCK_SIZE, Buffers};
use memory::Memory;
use memory::system::{BLK, NUMBER_TIB, TIB, TO_IN};
use thiserror::Error;

/// No buffer has the block that BLK names.
#[derive(Clone, Copy, Debug, PartialEq, Eq, Error)]
#[error("no buffer has the block that BLK names")]
pub struct NeedsBlock;

/// The input stream: if BLK is 0 the #TIB bytes of the terminal's buffer, else the 1,024 bytes of block BLK.
///
/// Its place is >IN, which past the size counts as the size. `NeedsBlock` if BLK isn't 0 and no buffer has that block.
#[tactic(auto, unfolding(crate::specs::Streams::needs_block, crate::specs::Streams::stream_at, crate::specs::Streams::stream_size))]
pub fn stream(memory: &Memory, buffers: &Buffers) -> Result<Stream, NeedsBlock>
    ensures value { IsStream (stored memory.now) buffers.now result }
    ensures within { IfOk result (λ s. s.place ≤ s.size) }
{
    let place = memory.cell(TO_IN);
    let block = memory.cell(BLK);
    if block == 0 {
        let size = memory.cell(NUMBER_TIB);
        return Ok(Stream {
            at: TIB,
            size,
            place: place.min(size),
        });
    }
    let Some(slot) = buffers.find(block) else {
        return Err(NeedsBlock);
    };
    Ok(Stream {
        at: buffers.address_of(slot),
        size: BLOCK_SIZE as u16,
        place: place.min(BLOCK_SIZE as u16),
    })
}
