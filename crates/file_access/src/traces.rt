//! The file of a trace, which keeps what it had until the run begins.

ghost use Rattle.std.specs.Io.{WritesAtMost};
ghost use Rattle.file_access.specs.Streams.{IsApart};

use crate::opening::open_apart;
use std::fs::{File, OpenOptions};
use std::io;
use std::io::{IsTerminal, Write};

/// A file that is emptied by the first write or flush, and then written from its beginning on. It is in for no standard
/// stream.
#[derive(Drop)]
pub struct TraceFile {
    file: File,
    is_empty: bool,
    ghost apart: { IsApart file },
}

impl TraceFile {
    /// Opens the file of this name for writing, or makes it; what it has stays for now. What is no plain file has nothing to
    /// be emptied. An error: it can't be opened.
    pub fn open(rt: &HostRuntime, name: &str) -> io::Result<TraceFile> {
        let file = open_apart(rt, OpenOptions::new().write(true).create(true), name)?;
        let is_empty = match file.metadata() {
            Ok(metadata) => !metadata.is_file(),
            Err(_) => true,
        };
        Ok(TraceFile { file, is_empty })
    }

    /// Whether what is written is shown at once.
    pub fn is_terminal(&self) -> bool {
        self.file.is_terminal()
    }

    fn clear(&mut self) -> io::Result<()> {
        if !self.is_empty {
            self.file.set_len(0)?;
            self.is_empty = true;
        }
        Ok(())
    }
}

fn write_some(mut file: &File, bytes: &[u8]) -> io::Result<usize>
    ensures { WritesAtMost result bytes.now }
{
    file.write(bytes)
}

impl Write for TraceFile {
    fn write(&mut self, bytes: &[u8]) -> io::Result<usize> {
        self.clear()?;
        write_some(&self.file, bytes)
    }

    fn flush(&mut self) -> io::Result<()> {
        self.clear()
    }
}
