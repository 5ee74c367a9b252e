//! What is read of a disk's file: its sectors, or a file that its directory names.

ghost use Rattle.std.specs.Prelude.{◌≡◌, IfOk, IsNone, IsSome};

use crate::directory::{Directory, File};
use crate::kinds::{Kind, kind_of};
use crate::tracks::{Sectors, sectors_of};
use crate::unreadable::Unreadable;
use std::alloc::{AllocError, Global};

/// What is asked for of a disk's file.
#[derive(Clone, Copy)]
pub struct Asked<'a> {
    /// The name of a file in it, if not all of it is asked for.
    pub file: Option<&'a str>,
    /// Whether it is said how screens lie in it, so that it is read so, whatever it is.
    pub is_told: bool,
}

/// Why a disk has no directory that is read here.
fn without_directory(sectors: &Sectors, kind: Option<Kind>) -> Unreadable {
    match (kind, sectors.tracks) {
        (Some(kind), _) => Unreadable::NoDirectory {
            kind,
            advice: kind.advice(),
        },
        (None, Some(tracks)) => Unreadable::Tracks(tracks),
        (None, None) => Unreadable::Unknown,
    }
}

/// The directory of a disk.
fn directory_of(alloc: Global, sectors: &Sectors) -> Result<Directory, Unreadable> {
    let bytes = sectors.bytes.as_slice();
    let kind = kind_of(alloc, bytes)?;
    let directory = match kind {
        Some(kind) => Directory::of_disk(alloc, kind, bytes)?,
        None => None,
    };
    directory.ok_or(without_directory(sectors, kind))
}

/// The names of files, with something between them.
fn joined(alloc: Global, files: &[File], between: &str) -> Result<String, AllocError> {
    let mut text = String::new(alloc);
    for (at, file) in files.iter().enumerate() {
        text.push_str(if at == 0 { "" } else { between })?;
        text.push_str(file.name.as_str())?;
    }
    Ok(text)
}

/// Why a directory does not have this name: the sentence has those that it has.
fn no_file(alloc: Global, directory: &Directory, name: &str) -> Result<Unreadable, AllocError> {
    let mut names = joined(alloc, directory.files(), ", ")?;
    if names.is_empty() {
        names.push_str("none")?;
    }
    Ok(Unreadable::NoFile {
        name: String::from_str(alloc, name)?,
        names,
    })
}

/// The bytes of the file of this name.
fn read_file(alloc: Global, sectors: &Sectors, name: &str) -> Result<Vec<u8>, Unreadable> {
    let directory = directory_of(alloc, sectors)?;
    match directory.file_named(alloc, name)? {
        Some(file) => Ok(directory.content(alloc, file.place)?),
        None => Err(no_file(alloc, &directory, name)?),
    }
}

/// The sectors of a file, if nothing is known of it but that it has them.
fn read_sectors(alloc: Global, sectors: Sectors, is_told: bool) -> Result<Sectors, Unreadable>
    ensures { IfOk result (λ s. s ≡ sectors) }
{
    if !is_told {
        if let Some(kind) = kind_of(alloc, sectors.bytes.as_slice())? {
            return Err(Unreadable::Known {
                kind,
                advice: kind.advice(),
            });
        }
    }
    Ok(sectors)
}

/// What is read of a disk's file: the bytes of the file of this name in it, or else its sectors. Refused if it is known to be something
/// else, and nothing says how it is to be read; if it has no such file; if it is damaged; or if memory runs out.
pub fn read_disk(alloc: Global, disk: &[u8], asked: Asked<'_>) -> Result<Sectors, Unreadable>
    ensures same { IfOk result (λ s. IsNone asked.entry.file → IsNone s.tracks → s.bytes.items ≡ disk.now) }
    ensures named { IfOk result (λ s. IsSome asked.entry.file → IsNone s.tracks) }
{
    let sectors = sectors_of(alloc, disk)?;
    match asked.file {
        Some(name) => Ok(Sectors {
            tracks: None,
            bytes: read_file(alloc, &sectors, name)?,
        }),
        None => read_sectors(alloc, sectors, asked.is_told),
    }
}

/// What a disk is, and the names of its files, a line each. FAT and CP/M are known here, but not read: they have no names.
pub fn list_files(alloc: Global, disk: &[u8]) -> Result<String, Unreadable> {
    let sectors = sectors_of(alloc, disk)?;
    let kind = kind_of(alloc, sectors.bytes.as_slice())?;
    let Some(kind) = kind.filter(|kind| kind.has_directory()) else {
        return Err(without_directory(&sectors, kind));
    };
    let mut text = format!(in alloc; "{kind}\n")?;
    if let Some(directory) = Directory::of_disk(alloc, kind, sectors.bytes.as_slice())? {
        for file in directory.files() {
            text.push_str(file.name.as_str())?;
            text.push('\n')?;
        }
    }
    Ok(text)
}
