//! The files of a disk's directory.

ghost use Rattle.disk_volumes.specs.declared.directory.Place.TheVariants as places;
ghost use Rattle.std.specs.Char.{to_ascii_uppercase};
ghost use Rattle.std.specs.List.{All, Contains};
ghost use Rattle.std.specs.Prelude.{◌≡◌, ◌≢◌, ◌⊎◌, ℕ, IfNone, IfOk, IfSome, drop, map, take};
ghost use Rattle.std.specs.String.{string_bytes};

use crate::apple::{apple_content, apple_files};
use crate::bytes::piece;
use crate::commodore::{commodore_content, commodore_files};
use crate::kinds::Kind;
use crate::lif::lif_files;
use crate::rt11::{rt11_files, volume_of};
use std::alloc::{AllocError, Global};

/// Where a file's bytes are.
#[derive(Clone, Copy)]
pub enum Place {
    /// One after the other.
    Bytes { at: usize, count: usize },
    /// In the sectors that a chain of lists names, from this one on; `kind` says how its bytes are read.
    Listed { track: u8, sector: u8, kind: u8 },
    /// In a chain of sectors from this one on.
    Chained { track: u8, sector: u8 },
}

/// A file: its name, and where its bytes are.
#[derive(Drop)]
pub struct File {
    pub name: String,
    pub place: Place,
}

/// A disk's directory, with the disk's sectors in the order in which they are read.
#[derive(Drop)]
pub struct Directory {
    disk: Vec<u8>,
    files: Vec<File>,
}

/// Adds a file. It replaces one of the same name, which nobody could name any more.
pub fn put_file(files: &mut Vec<File>, name: String, place: Place) -> Result<(), AllocError> {
    for file in files.iter_mut() {
        if file.name.as_str() == name.as_str() {
            file.place = place;
            return Ok(());
        }
    }
    files.push(File { name, place })?;
    Ok(())
}

/// The file of this name.
fn named<'a>(files: &'a [File], name: &str) -> Option<&'a File>
    ensures found { IfSome result (λ f. (string_bytes f.now.name ≡ name.now) × Contains files.now f.now) }
    ensures none { IfNone result (All (λ f. string_bytes f.name ≢ name.now) files.now) }
{
    files.iter().find(|file| file.name.as_str() == name)
}

/// The directory of a volume of RT-11.
fn rt11_directory(alloc: Global, sectors: &[u8]) -> Result<Option<Directory>, AllocError> {
    let Some(disk) = volume_of(alloc, sectors)? else {
        return Ok(None);
    };
    let files = rt11_files(alloc, disk.as_slice())?;
    Ok(Some(Directory { disk, files }))
}

impl Directory {
    /// The directory of a disk of this kind; none if it has none that is read here.
    pub fn of_disk(
        alloc: Global,
        kind: Kind,
        sectors: &[u8],
    ) -> Result<Option<Directory>, AllocError> {
        if kind == Kind::Rt11 {
            return rt11_directory(alloc, sectors);
        }
        let files = match kind {
            Kind::Lif => lif_files(alloc, sectors)?,
            Kind::AppleDos => apple_files(alloc, sectors)?,
            Kind::Commodore => commodore_files(alloc, sectors)?,
            _ => return Ok(None),
        };
        let disk = Vec::from_slice(alloc, sectors)?;
        Ok(Some(Directory { disk, files }))
    }

    /// Its files, each name once.
    pub fn files(&self) -> &[File]
        ensures { result.now ≡ self.now.files.items }
    {
        self.files.as_slice()
    }

    /// The file of this name, or else of this name in capitals.
    pub fn file_named(&self, alloc: Global, name: &str) -> Result<Option<&File>, AllocError>
        ensures listed { IfOk result (λ found. IfSome found (λ f. Contains self.now.files.items f.now)) }
        ensures named { IfOk result (λ found. IfSome found (λ f. (string_bytes f.now.name ≡ name.now)
            ⊎ (string_bytes f.now.name ≡ map to_ascii_uppercase name.now))) }
        ensures none { IfOk result (λ found. IfNone found (All (λ f. string_bytes f.name ≢ name.now) self.now.files.items)) }
    {
        if let Some(file) = named(self.files(), name) {
            return Ok(Some(file));
        }
        let capitals = name.to_ascii_uppercase(alloc)?;
        Ok(named(self.files(), capitals.as_str()))
    }

    /// The bytes of a file.
    pub fn content(&self, alloc: Global, place: Place) -> Result<Vec<u8>, AllocError>
        ensures bytes { (at count : ℕ) → place ≡ places.Bytes at count → IfOk result (λ v. v.items ≡ take count (drop at self.now.disk.items)) }
    {
        let disk = self.disk.as_slice();
        match place {
            Place::Bytes { at, count } => Vec::from_slice(alloc, piece(disk, at, count)),
            Place::Listed {
                track,
                sector,
                kind,
            } => apple_content(alloc, disk, (track, sector), kind),
            Place::Chained { track, sector } => commodore_content(alloc, disk, (track, sector)),
        }
    }
}
