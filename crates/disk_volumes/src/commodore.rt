//! Disks of a Commodore 1541: 35 tracks or 40, of 21 to 17 sectors, and a directory in track 18.

ghost use Rattle.std.specs.Prelude.{◌≤◌};

use crate::bytes::{byte_at, filled, piece};
use crate::directory::{File, Place, put_file};
use crate::names::latin;
use std::alloc::{AllocError, Global};

/// How many bytes a sector has.
const SECTOR: usize = 256;

/// How many sectors a chain has at most, so that a damaged one ends.
const CHAINED: usize = 2000;

/// How many bytes an entry of the directory has, counted from its kind on.
const ENTRY: usize = 32;

/// What fills a name.
const SHIFTED_BLANK: u8 = 0xa0;

/// How many sectors come before a track.
fn sectors_before(track: usize) -> usize
    ensures { result ≤ 768 }
{
    match track {
        0..=17 => track.saturating_sub(1) * 21,
        18..=24 => 357 + (track - 18) * 19,
        25..=30 => 490 + (track - 25) * 18,
        31..=41 => 598 + (track - 31) * 17,
        _ => 768,
    }
}

/// Where the sector of a track begins.
fn place_of(track: u8, sector: u8) -> usize {
    (sectors_before(usize::from(track)) + usize::from(sector)) * SECTOR
}

/// Whether a disk has the size of one, and the table of free sectors in track 18.
pub fn is_commodore(disk: &[u8]) -> bool {
    matches!(disk.len(), 174848 | 175531 | 196608)
        && matches!(disk.get(0x16500..0x16503), Some([0x12, 1, b'A']))
}

/// What a sector has: all after its first two bytes, or if it is the last one of its chain, up to the place that its second byte names.
fn content_of(sector: &[u8]) -> &[u8] {
    match sector {
        [0, last, rest @ ..] => piece(rest, 0, usize::from(*last).saturating_sub(1)),
        [_, _, rest @ ..] => rest,
        _ => b"",
    }
}

/// Adds the entries of a sector of the directory.
fn put_entries(alloc: Global, files: &mut Vec<File>, content: &[u8]) -> Result<(), AllocError> {
    for entry in content.chunks(ENTRY) {
        let [kind, track, sector, rest @ ..] = entry else {
            continue;
        };
        if kind & 0x80 == 0 || !(1..41).contains(track) || rest.len() < 16 {
            continue;
        }
        let name = piece(rest, 0, 16);
        let last = name.iter().rposition(|byte| *byte != SHIFTED_BLANK);
        let end = last.map_or(0, |at| at.saturating_add(1));
        let place = Place::Chained {
            track: *track,
            sector: *sector,
        };
        put_file(files, latin(alloc, piece(name, 0, end))?, place)?;
    }
    Ok(())
}

/// The files of a disk.
pub fn commodore_files(alloc: Global, disk: &[u8]) -> Result<Vec<File>, AllocError> {
    let mut files = Vec::new(alloc);
    let (mut track, mut sector) = (18, 1);
    for _ in 0..CHAINED {
        if track == 0 {
            break;
        }
        let body = filled(alloc, disk, place_of(track, sector), SECTOR)?;
        put_entries(alloc, &mut files, content_of(body.as_slice()))?;
        track = byte_at(body.as_slice(), 0);
        sector = byte_at(body.as_slice(), 1);
    }
    Ok(files)
}

/// The bytes of a file whose chain begins here.
pub fn commodore_content(
    alloc: Global,
    disk: &[u8],
    first: (u8, u8),
) -> Result<Vec<u8>, AllocError> {
    let mut made = Vec::new(alloc);
    let (mut track, mut sector) = first;
    for _ in 0..CHAINED {
        if track == 0 {
            break;
        }
        let body = filled(alloc, disk, place_of(track, sector), SECTOR)?;
        made.extend_from_slice(content_of(body.as_slice()))?;
        track = byte_at(body.as_slice(), 0);
        sector = byte_at(body.as_slice(), 1);
    }
    Ok(made)
}
