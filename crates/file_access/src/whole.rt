//! Files that are read whole, and written whole.

ghost use Rattle.std.specs.Prelude.{IfOk};
ghost use Rattle.file_access.specs.Streams.{IsApart};

use crate::opening::open_apart;
use std::alloc::Global;
use std::fs::{File, Metadata, OpenOptions};
use std::io::{ErrorKind, Read, Write};
use std::os::unix::fs::{MetadataExt, OpenOptionsExt, fchown};
use std::{fs, io};

/// Reads a file that takes the place of no standard stream. An error: it can't be read, or memory ran out.
fn read_whole(alloc: Global, file: File) -> io::Result<Vec<u8>>
    requires apart { IsApart file }
{
    let mut file = file;
    let mut bytes = Vec::new(alloc);
    file.read_to_end(&mut bytes)?;
    Ok(bytes)
}

/// Reads a file. An error: it can't be opened or read, or memory ran out.
pub fn read_file(rt: &HostRuntime, name: &str) -> io::Result<Vec<u8>> {
    let file = open_apart(rt, OpenOptions::new().read(true), name)?;
    read_whole(rt.alloc(), file)
}

/// Reads a file of blocks that is to be replaced; if there is none, it has no bytes. An error: it is no plain file, can't
/// be opened for reading and writing, or can't be read, or memory ran out.
pub fn read_blocks(rt: &HostRuntime, name: &str) -> io::Result<Vec<u8>> {
    match open_apart(rt, OpenOptions::new().read(true).write(true), name) {
        Ok(file) => {
            if !file.metadata()?.is_file() {
                return Err(ErrorKind::Other.into());
            }
            read_whole(rt.alloc(), file)
        }
        Err(error) => {
            if error.kind() == ErrorKind::NotFound {
                return Ok(Vec::new(rt.alloc()));
            }
            Err(error)
        }
    }
}

/// How many names are tried for a new file.
const NEW_NAMES: u32 = 10;

/// Gives a new file the owner, the group and the permissions of another. Only root may give a file to someone else; otherwise the new
/// one stays the user's own, with the group of the other if the user belongs to it. An error: it can't have these permissions.
fn make_like(file: &File, other: &Metadata) -> io::Result<()> {
    if fchown(file, Some(other.uid()), Some(other.gid())).is_err() {
        let _group = fchown(file, None, Some(other.gid()));
    }
    file.set_permissions(other.permissions())
}

/// Makes a new file beside the one at `place`: `PLACE.forth83-new`, or if that exists `PLACE.forth83-new1`, and so on to 9. A file that
/// exists isn't touched. Only the user may open one that is to be like another before it is so. An error, `AlreadyExists`: each of these
/// names is taken; or the file can't be made, or memory ran out.
fn new_beside(rt: &HostRuntime, place: &str, is_like_another: bool) -> io::Result<(File, String)>
    ensures { IfOk result (λ made. IsApart made.0) }
{
    let mut options = OpenOptions::new();
    options.write(true).create_new(true);
    if is_like_another {
        options.mode(0o600);
    }
    for number in 0..NEW_NAMES {
        let name = if number == 0 {
            format!(in rt.alloc(); "{place}.forth83-new")?
        } else {
            format!(in rt.alloc(); "{place}.forth83-new{number}")?
        };
        match open_apart(rt, &options, name.as_str()) {
            Ok(file) => return Ok((file, name)),
            Err(error) => {
                if error.kind() != ErrorKind::AlreadyExists {
                    return Err(error);
                }
            }
        }
    }
    Err(ErrorKind::AlreadyExists.into())
}

/// Writes a new file, which is like another, if that exists, before it has a byte. An error: it can't be written whole.
fn write_like(file: File, bytes: &[u8], other: Option<&Metadata>) -> io::Result<()>
    requires apart { IsApart file }
{
    let mut file = file;
    if let Some(other) = other {
        make_like(&file, other)?;
    }
    file.write_all(bytes)?;
    file.sync_all()
}

/// The file that a name means, after symbolic links; if there is none, the name itself. An error: it can't be found out,
/// or memory ran out.
fn meant(rt: &HostRuntime, name: &str) -> io::Result<String> {
    match fs::canonicalize(rt, name) {
        Ok(path) => Ok(path.into_string()),
        Err(error) => {
            if error.kind() != ErrorKind::NotFound {
                return Err(error);
            }
            Ok(String::from_str(rt.alloc(), name)?)
        }
    }
}

/// Replaces a file whole, or makes it: its bytes are written into a new file beside it (`new_beside`), which then takes its place.
/// If that fails the file is as it was, and the one beside it is removed. An error: it can't be written or placed, or memory ran out.
fn replace_file(rt: &HostRuntime, name: &str, bytes: &[u8]) -> io::Result<()> {
    let place = meant(rt, name)?;
    let old = fs::metadata(rt, place.as_str()).ok();
    let (file, beside) = new_beside(rt, place.as_str(), old.is_some())?;
    let done = match write_like(file, bytes, old.as_ref()) {
        Ok(()) => fs::rename(rt, beside.as_str(), place.as_str()),
        Err(error) => Err(error),
    };
    if done.is_err() {
        let _gone = fs::remove_file(rt, beside.as_str());
    }
    done
}

/// Writes bytes into a file that takes the place of no standard stream.
fn write_bytes(file: File, bytes: &[u8]) -> io::Result<()>
    requires apart { IsApart file }
{
    let mut file = file;
    file.write_all(bytes)
}

/// Writes a file whole, or makes it. A plain file is replaced, so that it is as it was if that fails; what is none (a
/// pipe, a device) is written as it is. An error: it can't be opened for writing, written or placed, or memory ran out.
pub fn write_file(rt: &HostRuntime, name: &str, bytes: &[u8]) -> io::Result<()> {
    match open_apart(rt, OpenOptions::new().write(true), name) {
        Ok(file) => {
            if file.metadata()?.is_file() {
                return replace_file(rt, name, bytes);
            }
            write_bytes(file, bytes)
        }
        Err(error) => {
            if error.kind() == ErrorKind::NotFound {
                return replace_file(rt, name, bytes);
            }
            Err(error)
        }
    }
}
