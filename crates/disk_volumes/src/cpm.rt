//! Disks of CP/M, by the first sector of their directory, which comes after the system's tracks. cpmtools reads them.

use crate::bytes::{byte_at, piece};

/// Where a directory may begin: after no, one, two or more tracks of the disks that cpmtools knows.
const PLACES: [usize; 23] = [
    0, 1024, 4096, 4608, 5120, 6144, 6656, 6912, 7680, 8192, 9216, 10240, 12288, 13056, 13312,
    13824, 15360, 16384, 17408, 18432, 20480, 24576, 32768,
];

/// How many bytes a sector has.
const SECTOR: usize = 128;

/// How many bytes an entry of the directory has.
const ENTRY: usize = 32;

/// Whether a name has visible characters, one or more, and then blanks. Its bytes may have high bits.
fn is_name(name: &[u8]) -> bool {
    let count = name
        .iter()
        .position(|byte| *byte & 127 == b' ')
        .unwrap_or(name.len());
    count > 0
        && name.iter().enumerate().all(|(at, byte)| matches!(
            (at < count, *byte & 127),
            (true, b'!'..=b'~') | (false, b' ')
        ))
}

/// Whether an entry names a part of a file: the user's number, the name and its kind in capitals, and numbers that an entry can have.
fn is_entry(entry: &[u8]) -> bool {
    let named = piece(entry, 1, 11);
    byte_at(entry, 0) < 16
        && is_name(piece(entry, 1, 8))
        && byte_at(entry, 12) < 32
        && byte_at(entry, 15) <= 128
        && named
            .iter()
            .all(|byte| !byte.is_ascii_lowercase() && *byte & 127 >= 32)
}

/// Whether a sector has entries of a directory, not all of them free.
fn is_directory(sector: &[u8]) -> bool {
    let is_used = sector.chunks(ENTRY).any(|entry| byte_at(entry, 0) != 0xe5);
    is_used
        && sector.len() == SECTOR
        && sector
            .chunks(ENTRY)
            .all(|entry| byte_at(entry, 0) == 0xe5 || is_entry(entry))
}

/// Whether a disk has a directory of CP/M at one of the places.
pub fn is_cpm(disk: &[u8]) -> bool {
    PLACES
        .iter()
        .any(|at| is_directory(piece(disk, *at, SECTOR)))
}
