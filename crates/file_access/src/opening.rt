//! Opening files.

ghost use Rattle.std.specs.Prelude.{IfOk};
ghost use Rattle.file_access.specs.Streams.{IsApart};

use std::alloc::{AllocError, Global};
use std::fs::{File, OpenOptions};
use std::io;
use std::io::{ErrorKind, Read};
use std::os::fd::{AsRawFd, RawFd};

/// The greatest number that a standard stream has: standard error's.
const LAST_STREAM: RawFd = 2;

const MOST_BYTES: usize = 65536;

/// Opens a file that takes the place of no standard stream. If one of these is closed, the system gives its number to the
/// file that is opened next; such a file is moved to a number of its own, so that the stream stays closed, and reading
/// or writing it fails. An error: the file can't be opened, or can't be moved.
pub fn open_apart(rt: &HostRuntime, options: &OpenOptions, name: &str) -> io::Result<File>
    ensures { IfOk result IsApart }
{
    let file = options.open(rt, name)?;
    if file.as_raw_fd() > LAST_STREAM {
        return Ok(file);
    }
    let moved = file.try_clone()?;
    if moved.as_raw_fd() > LAST_STREAM {
        return Ok(moved);
    }
    Err(ErrorKind::Other.into())
}

/// Reads at most 65,536 bytes of a file that takes the place of no standard stream. `None`: it can't be read.
fn read_bytes(alloc: Global, file: File) -> Result<Option<Vec<u8>>, AllocError>
    requires apart { IsApart file }
{
    let mut file = file;
    let mut bytes = vec![in alloc; 0; MOST_BYTES]?;
    let mut length = 0;
    for _ in 0..u64::MAX {
        if length >= bytes.len() {
            break;
        }
        match file.read(&mut bytes.as_mut_slice()[length..]) {
            Ok(0) => break,
            Ok(count) => length += count,
            Err(error) => {
                if error.kind() != ErrorKind::Interrupted {
                    return Ok(None);
                }
            }
        }
    }
    bytes.truncate(length);
    Ok(Some(bytes))
}

/// Reads at most 65,536 bytes of a file. `None`: it can't be opened or read.
pub fn read_image(rt: &HostRuntime, name: &str) -> Result<Option<Vec<u8>>, AllocError> {
    let Ok(file) = open_apart(rt, OpenOptions::new().read(true), name) else {
        return Ok(None);
    };
    read_bytes(rt.alloc(), file)
}
