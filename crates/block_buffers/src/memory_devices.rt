//! A device in memory, whose coming faults are chosen.
ghost use Rattle.std.specs.Prelude.{◌≡◌, ◌≤◌, Some, [], drop, vec_len, IsSomeAnd};
ghost use Rattle.block_buffers.specs.Disks.{next_fails};

use crate::devices::{BLOCK_SIZE, Device, DeviceFault};
use crate::page_log::{Called, PageLog};

/// The results of the coming calls. `true` fails; if none is left, a call doesn't fail.
#[derive(Drop)]
struct Coming {
    results: Vec<bool>,
    next: usize,
}

impl Coming {
    /// Takes the next result.
    fn take(&mut self) -> bool
        ensures result { result ≡ next_fails (drop self.old.next self.old.results.items) }
        ensures rest { drop self.new.next self.new.results.items ≡ drop 1 (drop self.old.next self.old.results.items) }
    {
        let at = self.next;
        if at < self.results.len() {
            self.next = at + 1;
            self.results[at]
        } else {
            false
        }
    }
}

/// Blocks in memory, the coming calls of which may fail.
#[derive(Drop)]
pub struct MemoryDevice {
    blocks: Vec<[u8; BLOCK_SIZE]>,
    coming: Coming,
    log: PageLog,
    ghost few: { vec_len blocks ≤ 65536 },
}

impl MemoryDevice {
    /// A device of at most 65,536 blocks, perhaps of none. Call `i`, reads and writes counted
    /// together from 0, fails if `coming[i]`; a call for a block that doesn't exist fails always.
    pub fn new(blocks: Vec<[u8; BLOCK_SIZE]>, coming: Vec<bool>) -> MemoryDevice
        requires { vec_len blocks ≤ 65536 }
        ensures told { ⟦<MemoryDevice as Device>⟧.disk result ≡ Some
            (record { blocks = blocks.items; coming = coming.items }) }
        ensures uncalled { ⟦<MemoryDevice as Device>⟧.calls result ≡ [] }
    {
        MemoryDevice {
            blocks,
            coming: Coming {
                results: coming,
                next: 0,
            },
            log: PageLog::new(),
        }
    }

    /// The blocks as they are now.
    pub fn blocks(&self) -> &[[u8; BLOCK_SIZE]]
        ensures { IsSomeAnd (⟦<MemoryDevice as Device>⟧.disk self.now) (λ d. result.now ≡ d.blocks) }
    {
        &self.blocks
    }
}

impl Device for MemoryDevice {
    ghost disk = { λ d. Some (record { blocks = d.blocks.items; coming = drop d.coming.next d.coming.results.items }) };

    ghost calls = { λ d. d.log.calls };

    ghost block_count = { λ d. vec_len d.blocks };

    fn count(&self) -> u32 {
        self.blocks.len() as u32
    }

    fn read(&mut self, block: u16, page: &mut [u8; BLOCK_SIZE]) -> Result<(), DeviceFault> {
        let fails = self.coming.take();
        let at = block as usize;
        if fails || at >= self.blocks.len() {
            self.log = self.log.then(&Called::ReadFailed { block });
            return Err(DeviceFault);
        }
        *page = self.blocks[at];
        self.log = self.log.then(&Called::Read { block, page });
        Ok(())
    }

    fn write(&mut self, block: u16, page: &[u8; BLOCK_SIZE]) -> Result<(), DeviceFault> {
        let fails = self.coming.take();
        let at = block as usize;
        if fails || at >= self.blocks.len() {
            self.log = self.log.then(&Called::WriteFailed { block, page });
            return Err(DeviceFault);
        }
        self.blocks[at] = *page;
        self.log = self.log.then(&Called::Written { block, page });
        Ok(())
    }
}
