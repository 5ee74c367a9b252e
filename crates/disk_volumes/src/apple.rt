//! Disks of Apple DOS 3.3: 35 tracks of 16 sectors, and a directory in track 17.

ghost use Rattle.std.specs.Prelude.{◌≡◌, ◌+◌, ◌*◌};

use crate::bytes::{byte_at, filled, from, little, piece, without_high_bits};
use crate::directory::{File, Place, put_file};
use crate::names::latin_trimmed;
use std::alloc::{AllocError, Global};

/// How many bytes a disk has.
const DISK: usize = 143_360;

/// How many bytes a sector has.
const SECTOR: usize = 256;

/// How many sectors a chain has at most, so that a damaged one ends.
const CHAINED: usize = 2000;

/// Where the first entry of a sector of the directory begins.
const FIRST_ENTRY: usize = 11;

/// How many bytes an entry has.
const ENTRY: usize = 35;

/// Where the first pair of a list of sectors is.
const FIRST_PAIR: usize = 12;

/// Where the sector of a track begins.
fn place_of(track: u8, sector: u8) -> usize
    ensures { result ≡ (track * 16 + sector) * 256 }
{
    (usize::from(track) * 16 + usize::from(sector)) * SECTOR
}

/// Whether a disk has the table of DOS 3.3 in track 17.
pub fn is_apple(disk: &[u8]) -> bool {
    let table = piece(disk, place_of(17, 0), SECTOR);
    disk.len() == DISK
        && byte_at(table, 1) == 17
        && byte_at(table, 0x35) == 16
        && byte_at(table, 0x36) == 0
        && byte_at(table, 0x37) == 1
}

/// The sectors of a chain one after the other, from this one on; each names the next one in its second and third byte, and a track 0 ends it.
fn chain(alloc: Global, disk: &[u8], first: (u8, u8)) -> Result<Vec<u8>, AllocError> {
    let mut made = Vec::new(alloc);
    let (mut track, mut sector) = first;
    for _ in 0..CHAINED {
        if track == 0 {
            break;
        }
        let body = filled(alloc, disk, place_of(track, sector), SECTOR)?;
        track = byte_at(body.as_slice(), 1);
        sector = byte_at(body.as_slice(), 2);
        made.extend_from_slice(body.as_slice())?;
    }
    Ok(made)
}

/// Adds the file of an entry, if it has one that is not deleted.
fn put_entry(alloc: Global, files: &mut Vec<File>, entry: &[u8]) -> Result<(), AllocError> {
    let [track, sector, kind, rest @ ..] = entry else {
        return Ok(());
    };
    if !(1..35).contains(track) || rest.len() < 32 {
        return Ok(());
    }
    let bytes = without_high_bits(alloc, piece(rest, 0, 30))?;
    let place = Place::Listed {
        track: *track,
        sector: *sector,
        kind: *kind,
    };
    put_file(files, latin_trimmed(alloc, bytes.as_slice())?, place)
}

/// Adds the files of a sector of the directory.
fn put_entries(alloc: Global, files: &mut Vec<File>, sector: &[u8]) -> Result<(), AllocError> {
    for entry in from(sector, FIRST_ENTRY).chunks(ENTRY) {
        put_entry(alloc, files, entry)?;
    }
    Ok(())
}

/// The files of a disk.
pub fn apple_files(alloc: Global, disk: &[u8]) -> Result<Vec<File>, AllocError> {
    let table = piece(disk, place_of(17, 0), SECTOR);
    let directory = chain(alloc, disk, (byte_at(table, 1), byte_at(table, 2)))?;
    let mut files = Vec::new(alloc);
    for sector in directory.as_slice().chunks(SECTOR) {
        put_entries(alloc, &mut files, sector)?;
    }
    Ok(files)
}

/// The pairs of track and sector that the lists of a file name, without the empty ones at their end.
fn pairs_of(alloc: Global, lists: &[u8]) -> Result<Vec<u8>, AllocError> {
    let mut pairs = Vec::new(alloc);
    for list in lists.chunks(SECTOR) {
        pairs.extend_from_slice(from(list, FIRST_PAIR))?;
    }
    let last = pairs.iter().rposition(|byte| *byte != 0);
    pairs.truncate(last.map_or(0, |at| at.saturating_add(1)));
    if pairs.len() % 2 == 1 {
        pairs.push(0)?;
    }
    Ok(pairs)
}

/// The sectors that pairs name, with a sector of bytes 0 for an empty pair.
fn sectors_of_pairs(alloc: Global, disk: &[u8], pairs: &[u8]) -> Result<Vec<u8>, AllocError> {
    let mut made = Vec::new(alloc);
    for pair in pairs.chunks(2) {
        let (track, sector) = (byte_at(pair, 0), byte_at(pair, 1));
        if track == 0 && sector == 0 {
            let end = made.len().saturating_add(SECTOR);
            made.resize(end, 0)?;
        } else {
            made.extend_from_slice(piece(disk, place_of(track, sector), SECTOR))?;
        }
    }
    Ok(made)
}

/// The bytes before the first byte 0.
fn before_nul(bytes: &[u8]) -> &[u8] {
    let end = bytes.iter().position(|byte| *byte == 0);
    piece(bytes, 0, end.unwrap_or(bytes.len()))
}

/// The bytes of a file whose first list of sectors is here: a text up to its first byte 0, without high bits; a program up to its length.
pub fn apple_content(
    alloc: Global,
    disk: &[u8],
    first: (u8, u8),
    kind: u8,
) -> Result<Vec<u8>, AllocError> {
    let lists = chain(alloc, disk, first)?;
    let pairs = pairs_of(alloc, lists.as_slice())?;
    let body = sectors_of_pairs(alloc, disk, pairs.as_slice())?;
    match kind & 127 {
        0 => without_high_bits(alloc, before_nul(body.as_slice())),
        4 => {
            let count = usize::from(little(body.as_slice(), 2));
            Vec::from_slice(alloc, piece(body.as_slice(), 4, count))
        }
        _ => Ok(body),
    }
}
