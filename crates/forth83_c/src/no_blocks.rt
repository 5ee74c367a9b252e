//! A device without blocks: a machine's host is asked for each.

ghost use Rattle.std.specs.Prelude.{◌≡◌, []};

use block_buffers::{BLOCK_SIZE, Called, Device, DeviceFault, PageLog};

/// A device without blocks.
#[derive(Drop)]
pub struct NoBlocks {
    log: PageLog,
}

impl NoBlocks {
    /// A device that was given no call.
    pub fn new() -> NoBlocks
        ensures { result.log.calls ≡ [] }
    {
        NoBlocks {
            log: PageLog::new(),
        }
    }
}

impl Device for NoBlocks {
    ghost use Rattle.std.specs.Prelude.{None};

    ghost disk = { λ d. None };

    ghost calls = { λ d. d.log.calls };

    ghost block_count = { λ d. 0 };

    fn count(&self) -> u32 {
        0
    }

    fn read(&mut self, block: u16, _page: &mut [u8; BLOCK_SIZE]) -> Result<(), DeviceFault> {
        self.log = self.log.then(&Called::ReadFailed { block });
        Err(DeviceFault)
    }

    fn write(&mut self, block: u16, page: &[u8; BLOCK_SIZE]) -> Result<(), DeviceFault> {
        self.log = self.log.then(&Called::WriteFailed { block, page });
        Err(DeviceFault)
    }
}
