//! Files that are opened, read and written as they are named.

ghost use Rattle.std.specs.Prelude.{◌≡◌, ◌<◌, [], Some, false, IfErr, IfOk};

use crate::keeping::keep_blocks;
use crate::refusals::{cannot_open, out_of_memory, refuse_blocks, refuse_file};
use crate::streams::trace_file;
use block_buffers::Device;
use file_access::{
    FileDevice, TraceFile, hold, open_device, open_to_read, read_blocks, read_file, read_image,
    write_file,
};
use inner_interpreter::{Output, Writing};
use std::fs;
use std::fs::File;
use std::io::BufWriter;

/// The bytes of an image's file. If there are none it is printed why, and the status is the error.
pub fn image_bytes(rt: &HostRuntime, image: &str) -> Result<Vec<u8>, u8>
    ensures { IfErr result (λ status. 0 < status) }
{
    match read_image(rt, image) {
        Ok(Some(bytes)) => Ok(bytes),
        Ok(None) => Err(cannot_open(rt, image)),
        Err(_) => Err(out_of_memory(rt)),
    }
}

/// The blocks of a run's file, or none if it has no file. If it can't be opened that is printed, and the status is the error.
pub fn run_blocks(rt: &HostRuntime, blocks: Option<&str>) -> Result<FileDevice, u8>
    ensures uncalled { IfOk result (λ device. ⟦<FileDevice as Device>⟧.calls device ≡ []) }
    ensures refused { IfErr result (λ status. 0 < status) }
{
    let Some(blocks) = blocks else {
        return Ok(FileDevice::without_file());
    };
    keep_blocks(rt, blocks)?;
    match open_device(rt, blocks) {
        Ok(device) => Ok(device),
        Err(why) => Err(refuse_blocks(rt, blocks, why)),
    }
}

/// The blocks of a run that is traced, and the file of its trace. If one can't be opened that is printed, and the status is the error.
pub fn run_traced(
    rt: &HostRuntime,
    blocks: Option<&str>,
    trace: &str,
) -> Result<(FileDevice, Writing<BufWriter<TraceFile>>), u8>
    ensures uncalled { IfOk result (λ ends. ⟦<FileDevice as Device>⟧.calls ends.0 ≡ []) }
    ensures empty { IfOk result (λ ends. (⟦<Writing<BufWriter<TraceFile>> as Output>⟧.sent ends.1 ≡ Some [])
        × (⟦<Writing<BufWriter<TraceFile>> as Output>⟧.failed ends.1 ≡ false)) }
    ensures refused { IfErr result (λ status. 0 < status) }
{
    let device = run_blocks(rt, blocks)?;
    let lines = trace_file(rt, trace)?;
    Ok((device, lines))
}

/// The file of blocks that is only read. If it can't be opened that is printed, and the status is the error.
pub fn read_alone(rt: &HostRuntime, blocks: &str) -> Result<FileDevice, u8>
    ensures uncalled { IfOk result (λ device. ⟦<FileDevice as Device>⟧.calls device ≡ []) }
    ensures refused { IfErr result (λ status. 0 < status) }
{
    keep_blocks(rt, blocks)?;
    match open_to_read(rt, blocks) {
        Some(device) => Ok(device),
        None => Err(cannot_open(rt, blocks)),
    }
}

/// The bytes of a file. If it can't be read that is printed, and the status is the error.
pub fn file_bytes(rt: &HostRuntime, name: &str) -> Result<Vec<u8>, u8>
    ensures { IfErr result (λ status. 0 < status) }
{
    match read_file(rt, name) {
        Ok(bytes) => Ok(bytes),
        Err(error) => Err(refuse_file(rt, &error, name)),
    }
}

/// The bytes of a file, if it exists. If they can't be read that is printed, and the status is the error.
pub fn old_file(rt: &HostRuntime, name: &str) -> Result<Option<Vec<u8>>, u8>
    ensures { IfErr result (λ status. 0 < status) }
{
    match fs::exists(rt, name) {
        Ok(false) => Ok(None),
        Ok(true) => Ok(Some(file_bytes(rt, name)?)),
        Err(error) => Err(refuse_file(rt, &error, name)),
    }
}

/// The bytes of a file of blocks that is to be replaced; none if it doesn't exist. If they can't be read that is printed,
/// and the status is the error.
pub fn old_blocks(rt: &HostRuntime, blocks: &str) -> Result<Vec<u8>, u8>
    ensures { IfErr result (λ status. 0 < status) }
{
    match read_blocks(rt, blocks) {
        Ok(old) => Ok(old),
        Err(error) => Err(refuse_file(rt, &error, blocks)),
    }
}

/// A file that is to be replaced, held against other runs for as long as it is open; none if it doesn't exist. If another
/// run has it that is printed, and the status is the error.
pub fn held(rt: &HostRuntime, name: &str) -> Result<Option<File>, u8>
    ensures { IfErr result (λ status. 0 < status) }
{
    match hold(rt, name) {
        Ok(file) => Ok(file),
        Err(why) => Err(refuse_blocks(rt, name, why)),
    }
}

/// Writes a file whole, or makes it. If that fails it is as it was, that is printed, and the status is the error.
pub fn write(rt: &HostRuntime, name: &str, bytes: &[u8]) -> Result<(), u8>
    ensures { IfErr result (λ status. 0 < status) }
{
    match write_file(rt, name, bytes) {
        Ok(()) => Ok(()),
        Err(error) => Err(refuse_file(rt, &error, name)),
    }
}
