//! What is seen to before a file is written: that nothing that is to be kept is lost.

ghost use Rattle.std.specs.Prelude.{◌<◌, IfErr};

use crate::refusals::{out_of_memory, refuse_file, refuse_use};
use file_access::{Holding, look_into};
use std::io::ErrorKind;
use std::{fs, io};

/// What a file holds. Lack of memory is printed, and the status is the error.
fn found_in(rt: &HostRuntime, name: &str) -> Result<Holding, u8>
    ensures { IfErr result (λ status. 0 < status) }
{
    match look_into(rt, name) {
        Ok(holding) => Ok(holding),
        Err(_) => Err(out_of_memory(rt)),
    }
}

/// Sees to it that an image isn't taken for a file of blocks. If it would be that is printed, and the status is the error.
pub fn keep_blocks(rt: &HostRuntime, blocks: &str) -> Result<(), u8>
    ensures { IfErr result (λ status. 0 < status) }
{
    match found_in(rt, blocks)? {
        Holding::Image => Err(refuse_use(rt, blocks, "is an image, not a block file")),
        Holding::Blocks | Holding::Other => Ok(()),
    }
}

/// Sees to it that an image isn't written over blocks. If it would be that is printed, and the status is the error.
pub fn keep_image(rt: &HostRuntime, image: &str) -> Result<(), u8>
    ensures { IfErr result (λ status. 0 < status) }
{
    match found_in(rt, image)? {
        Holding::Blocks => Err(refuse_use(rt, image, "already exists, and isn't an image")),
        Holding::Image | Holding::Other => Ok(()),
    }
}

/// Sees to it that a trace isn't written over blocks or an image. If it would be that is printed, and the status is the
/// error.
pub fn keep_trace(rt: &HostRuntime, trace: &str) -> Result<(), u8>
    ensures { IfErr result (λ status. 0 < status) }
{
    match found_in(rt, trace)? {
        Holding::Blocks | Holding::Image => Err(refuse_use(
            rt,
            trace,
            "already exists, and isn't a trace",
        )),
        Holding::Other => Ok(()),
    }
}

/// Sees to it that a new file isn't written over one that exists. If it would be that is printed, and the status is the
/// error.
pub fn keep_absent(rt: &HostRuntime, name: &str) -> Result<(), u8>
    ensures { IfErr result (λ status. 0 < status) }
{
    match fs::exists(rt, name) {
        Ok(false) => Ok(()),
        Ok(true) => Err(refuse_use(rt, name, "already exists")),
        Err(error) => Err(refuse_file(rt, &error, name)),
    }
}

/// Whether two names are known to mean one file. An error: memory ran out.
fn is_one_file(rt: &HostRuntime, name: &str, other: &str) -> io::Result<bool> {
    match (fs::canonicalize(rt, name), fs::canonicalize(rt, other)) {
        (Ok(path), Ok(other)) => Ok(path.into_string().as_str() == other.into_string().as_str()),
        (Err(error), _) | (_, Err(error)) => {
            if error.kind() == ErrorKind::OutOfMemory {
                return Err(error);
            }
            Ok(false)
        }
    }
}

/// Sees to it that a file isn't written over one that is read. If they are the same file that is printed, with what they are,
/// and the status is the error.
pub fn keep_apart(rt: &HostRuntime, read: &str, written: &str, files: &str) -> Result<(), u8>
    ensures { IfErr result (λ status. 0 < status) }
{
    match is_one_file(rt, read, written) {
        Ok(false) => Ok(()),
        Ok(true) => Err(refuse_use(rt, files, "are the same file")),
        Err(_) => Err(out_of_memory(rt)),
    }
}
