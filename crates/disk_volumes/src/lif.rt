//! Volumes of HP's Logical Interchange Format.

use crate::bytes::{big, big_long, piece};
use crate::directory::{File, Place, put_file};
use crate::names::latin_trimmed;
use std::alloc::{AllocError, Global};

/// How many bytes a sector has.
const SECTOR: usize = 256;

/// How many bytes an entry of the directory has.
const ENTRY: usize = 32;

/// Where the kind of an entry is, its first sector, and how many it has.
const KIND: usize = 10;

const START: usize = 12;

const SIZE: usize = 16;

/// The kind of the entry after the last one.
const END: u16 = 0xffff;

/// The directory of a volume, if it has one that is not too long.
fn directory_of(volume: &[u8]) -> Option<&[u8]> {
    if !volume.starts_with(b"\x80\0") || volume.len() < 1024 {
        return None;
    }
    let (first, count) = (big_long(volume, 8), big_long(volume, 16));
    if !(1..256).contains(&first) || !(1..256).contains(&count) {
        return None;
    }
    volume.get(first * SECTOR..(first + count) * SECTOR)
}

/// Whether a volume has the head of this format.
pub fn is_lif(volume: &[u8]) -> bool {
    directory_of(volume).is_some()
}

/// The files of a volume.
pub fn lif_files(alloc: Global, volume: &[u8]) -> Result<Vec<File>, AllocError> {
    let mut files = Vec::new(alloc);
    for entry in directory_of(volume).unwrap_or(b"").chunks(ENTRY) {
        let kind = big(entry, KIND);
        if kind == END {
            break;
        }
        if kind == 0 {
            continue;
        }
        let place = Place::Bytes {
            at: big_long(entry, START).saturating_mul(SECTOR),
            count: big_long(entry, SIZE).saturating_mul(SECTOR),
        };
        put_file(
            &mut files,
            latin_trimmed(alloc, piece(entry, 0, 10))?,
            place,
        )?;
    }
    Ok(files)
}
