//! Devices of blocks.
ghost use Rattle.std.specs.Prelude.{◌≡◌, ◌++◌, ◌∷◌, [], ◌<◌, ◌≤◌, ℕ, List, Option, length, IfSome, OnErr, OnOk};

use thiserror::Error;

/// How many bytes a block has.
pub const BLOCK_SIZE: usize = 1024;

/// A block can't be read or written.
#[derive(Clone, Copy, Debug, PartialEq, Eq, Error)]
#[error("the block can't be read or written")]
pub struct DeviceFault;

/// Blocks of 1,024 bytes, numbered from 0. A device may report its blocks to contracts, as a
/// [`crate::MemoryDevice`] does; a file does not. Every device keeps its calls for contracts, with their pages.
pub trait Device {
    ghost use Rattle.block_buffers.specs.Disks.{Disk};
    ghost use Rattle.block_buffers.specs.Calls.{Reads, Writes, KeepsBlocks, read_call, write_call};
    ghost use Rattle.block_buffers.specs.DeviceCalls.{DeviceCall};

    // its blocks and its coming results, if it reports them
    ghost disk: { Self → Option Disk };

    // its calls so far, in order
    ghost calls: { Self → List DeviceCall };

    // how many blocks it has, which no call changes
    ghost block_count: { Self → ℕ };

    /// How many blocks there are, at most 65,536.
    fn count(&self) -> u32
        ensures value { result ≡ block_count self.now }
        ensures bound { result ≤ 65536 }
        ensures told { IfSome (disk self.now) (λ d. result ≡ length d.blocks) };

    /// Reads a block into `page`. If it fails, no block has changed, and `page` may hold any bytes.
    fn read(&mut self, block: u16, page: &mut [u8; BLOCK_SIZE]) -> Result<(), DeviceFault>
        ensures told { IfSome (disk self.old) (λ d. Reads d block (disk self.new) page.new result) }
        ensures kept { KeepsBlocks (disk self.old) (disk self.new) }
        ensures counted { block_count self.new ≡ block_count self.old }
        ensures there { OnOk result (block < block_count self.old) }
        ensures logged { calls self.new ≡ calls self.old ++ read_call block page.new result ∷ [] };

    /// Writes `page` to a block. If it fails, no block has changed.
    fn write(&mut self, block: u16, page: &[u8; BLOCK_SIZE]) -> Result<(), DeviceFault>
        ensures told { IfSome (disk self.old) (λ d. Writes d block page.now (disk self.new) result) }
        ensures kept { OnErr result (KeepsBlocks (disk self.old) (disk self.new)) }
        ensures counted { block_count self.new ≡ block_count self.old }
        ensures there { OnOk result (block < block_count self.old) }
        ensures logged { calls self.new ≡ calls self.old ++ write_call block page.now result ∷ [] };
}
