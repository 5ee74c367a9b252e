//! Files that exist and are to be used or written over: what they hold, and whether another run has them.

use crate::opening::open_apart;
use std::fs::{File, OpenOptions, TryLockError};
use std::io::{ErrorKind, Read};
use std::{fs, io};
use thiserror::Error;

/// What a file that exists holds, as far as it matters before it is written over.
#[derive(Clone, Copy, Debug, PartialEq, Eq)]
pub enum Holding {
    /// It begins as an image's file does.
    Image,
    /// It is no image, isn't empty, and has whole blocks of 1,024 bytes.
    Blocks,
    /// It doesn't exist, is no plain file, can't be read, or holds something else.
    Other,
}

/// Why a block file can't be used.
#[derive(Clone, Copy, Debug, PartialEq, Eq, Error)]
pub enum Unopened {
    /// The system refuses it.
    #[error("cannot open")]
    CannotOpen,
    /// Another run has it.
    #[error("in use")]
    InUse,
    /// There is no memory left.
    #[error("out of memory")]
    OutOfMemory,
}

/// How many bytes an image's file begins with, whatever its version is.
const MAGIC_SIZE: usize = 8;

/// What an image's file begins with.
const MAGIC: [u8; MAGIC_SIZE] = *b"FTH83IMG";

/// Whether a file begins as an image's does.
fn begins_as_image(file: File) -> bool {
    let mut file = file;
    let mut start = [0; MAGIC_SIZE];
    file.read_exact(&mut start).is_ok() && start == MAGIC
}

/// What is held if the system refuses to say; lack of memory stays the error.
fn untold(error: io::Error) -> io::Result<Holding> {
    if error.kind() == ErrorKind::OutOfMemory {
        return Err(error);
    }
    Ok(Holding::Other)
}

/// What the file of this name holds. An error: memory ran out.
pub fn look_into(rt: &HostRuntime, name: &str) -> io::Result<Holding> {
    let metadata = match fs::metadata(rt, name) {
        Ok(metadata) => metadata,
        Err(error) => return untold(error),
    };
    if !metadata.is_file() {
        return Ok(Holding::Other);
    }
    let length = metadata.len();
    let file = match open_apart(rt, OpenOptions::new().read(true), name) {
        Ok(file) => file,
        Err(error) => return untold(error),
    };
    if begins_as_image(file) {
        return Ok(Holding::Image);
    }
    Ok(if length > 0 && length % 1024 == 0 {
        Holding::Blocks
    } else {
        Holding::Other
    })
}

/// Whether another run has this file; if not, this one has it for as long as the file is open. What is no plain file, or is
/// if the system has no locks, is nobody's.
pub fn is_in_use(file: &File) -> bool {
    match file.metadata() {
        Ok(metadata) => metadata.is_file()
            && matches!(file.try_lock(), Err(TryLockError::WouldBlock)),
        Err(_) => false,
    }
}

/// The file of this name, held against other runs for as long as it is open; none if it doesn't exist, or can't be read and
/// written. `InUse`: another run has it.
pub fn hold(rt: &HostRuntime, name: &str) -> Result<Option<File>, Unopened> {
    match open_apart(rt, OpenOptions::new().read(true).write(true), name) {
        Ok(file) => {
            if is_in_use(&file) {
                return Err(Unopened::InUse);
            }
            Ok(Some(file))
        }
        Err(error) => {
            if error.kind() == ErrorKind::OutOfMemory {
                return Err(Unopened::OutOfMemory);
            }
            Ok(None)
        }
    }
}
