//! A device over a file, or over none.

ghost use Rattle.std.specs.Prelude.{◌≡◌, ◌≤◌, None, [], IfOk, IfSome};
ghost use Rattle.std.specs.Option.{ForNone, ForSome};
ghost use Rattle.file_access.specs.Streams.{IsApart};
ghost use Rattle.file_access.specs.Told.{told};

use crate::guards::{Unopened, is_in_use};
use crate::opening::open_apart;
use block_buffers::{Called, Device, DeviceFault, PageLog};
use std::fs::{File, OpenOptions};
use std::io;
use std::io::{Read, Seek, SeekFrom, Write};

/// A device over an open file, which takes the place of no standard stream, or over no file: then it has no blocks.
#[derive(Drop)]
pub struct FileDevice {
    file: Option<File>,
    count: u32,
    log: PageLog,
    ghost few: { count ≤ 65536 },
    ghost apart: { ForSome file IsApart },
    ghost empty: { ForNone file (count ≡ 0) },
}

impl FileDevice {
    /// The device of a run without a file of blocks.
    pub fn without_file() -> FileDevice
        ensures told { ⟦<FileDevice as Device>⟧.disk result ≡ told None }
        ensures uncalled { ⟦<FileDevice as Device>⟧.calls result ≡ [] }
    {
        FileDevice {
            file: None,
            count: 0,
            log: PageLog::new(),
        }
    }

    /// The calls that it was given.
    pub fn log(&self) -> &PageLog
        ensures { result.now.calls ≡ ⟦<FileDevice as Device>⟧.calls self.now }
    {
        &self.log
    }
}

/// Opens a file of blocks for reading and writing, and holds it against other runs. `CannotOpen`: the system refuses it;
/// `InUse`: another run has it.
pub fn open_device(rt: &HostRuntime, name: &str) -> Result<FileDevice, Unopened>
    ensures uncalled { IfOk result (λ device. ⟦<FileDevice as Device>⟧.calls device ≡ []) }
{
    match open_blocks(rt, OpenOptions::new().read(true).write(true), name) {
        Some(device) => {
            if device.file.as_ref().is_some_and(is_in_use) {
                return Err(Unopened::InUse);
            }
            Ok(device)
        }
        None => Err(Unopened::CannotOpen),
    }
}

/// Opens a file of blocks for reading alone: each write fails. `None`: it can't be opened.
pub fn open_to_read(rt: &HostRuntime, name: &str) -> Option<FileDevice>
    ensures uncalled { IfSome result (λ device. ⟦<FileDevice as Device>⟧.calls device ≡ []) }
{
    open_blocks(rt, OpenOptions::new().read(true), name)
}

fn open_blocks(rt: &HostRuntime, options: &OpenOptions, name: &str) -> Option<FileDevice>
    ensures uncalled { IfSome result (λ device. ⟦<FileDevice as Device>⟧.calls device ≡ []) }
{
    let file = open_apart(rt, options, name).ok()?;
    let length = file.metadata().ok()?.len();
    let blocks = length / 1024;
    let count = if blocks > 65536 { 65536 } else { blocks as u32 };
    Some(FileDevice {
        file: Some(file),
        count,
        log: PageLog::new(),
    })
}

/// Reads the page at an offset.
fn read_page(mut file: &File, at: u64, page: &mut [u8; 1024]) -> io::Result<()> {
    file.seek(SeekFrom::Start(at))?;
    file.read_exact(page)
}

/// Writes the page at an offset.
fn write_page(mut file: &File, at: u64, page: &[u8; 1024]) -> io::Result<()> {
    file.seek(SeekFrom::Start(at))?;
    file.write_all(page)
}

impl Device for FileDevice {
    ghost disk = { λ d. told d.file };

    ghost calls = { λ d. d.log.calls };

    ghost block_count = { λ d. d.count };

    fn count(&self) -> u32 {
        self.count
    }

    fn read(&mut self, block: u16, page: &mut [u8; 1024]) -> Result<(), DeviceFault> {
        if let (Some(file), true) = (&self.file, u32::from(block) < self.count) {
            let done = read_page(file, u64::from(block) * 1024, page);
            if let Ok(()) = done {
                self.log = self.log.then(&Called::Read { block, page });
                return Ok(());
            }
        }
        self.log = self.log.then(&Called::ReadFailed { block });
        Err(DeviceFault)
    }

    fn write(&mut self, block: u16, page: &[u8; 1024]) -> Result<(), DeviceFault> {
        if let (Some(file), true) = (&self.file, u32::from(block) < self.count) {
            let done = write_page(file, u64::from(block) * 1024, page);
            if let Ok(()) = done {
                self.log = self.log.then(&Called::Written { block, page });
                return Ok(());
            }
        }
        self.log = self.log.then(&Called::WriteFailed { block, page });
        Err(DeviceFault)
    }
}
