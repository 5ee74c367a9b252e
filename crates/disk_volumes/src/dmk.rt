//! David Keil's format: the bytes of each track as a controller writes them, after a table of where its sectors begin.

use crate::bytes::{byte_at, from, little};
use std::alloc::{AllocError, Global};

/// How many bytes come before the first track.
const HEAD: usize = 16;

/// How many sectors a track's table has room for.
const POINTERS: usize = 64;

/// Where the mark of a sector's bytes is looked for, after the sector's beginning.
const MARKS: std::ops::Range<usize> = 7..60;

/// A sector of a track: its number, and where its bytes begin.
#[derive(Clone, Copy)]
struct Sector {
    number: u8,
    at: usize,
    size: usize,
    step: usize,
}

/// Whether a file has the head of this format, and the length that it says.
pub fn is_dmk(file: &[u8]) -> bool {
    if file.len() < HEAD || !matches!(byte_at(file, 0), 0 | 255) {
        return false;
    }
    if (5..12).any(|at| byte_at(file, at) != 0) {
        return false;
    }
    if !matches!(
        file.get(12..16),
        Some([0, 0, 0, 0] | [0x78, 0x56, 0x34, 0x12])
    ) {
        return false;
    }
    let (tracks, length) = (usize::from(byte_at(file, 1)), usize::from(little(file, 2)));
    let sides = if byte_at(file, 4) & 16 == 0 { 2 } else { 1 };
    (129..=0x2940).contains(&length)
        && (1..=96).contains(&tracks)
        && file.len() == tracks * length * sides + HEAD
}

/// The place that comes so many bytes after another, if each byte is written `step` times.
fn after(begin: usize, count: usize, step: usize) -> usize {
    begin.saturating_add(count.saturating_mul(step))
}

/// The sector that a track's table says begins here, if it has a mark before its bytes. In single density each byte may be written twice.
fn sector_at(track: &[u8], pointer: u16, is_single: bool) -> Option<Sector> {
    let step = if pointer & 0x8000 == 0 && is_single {
        2
    } else {
        1
    };
    let begin = usize::from(pointer & 0x3fff);
    for mark in MARKS {
        if matches!(byte_at(track, after(begin, mark, step)), 0xfb | 0xf8) {
            return Some(Sector {
                number: byte_at(track, after(begin, 3, step)),
                at: after(begin, mark.saturating_add(1), step),
                size: 128 << (byte_at(track, after(begin, 4, step)) & 3),
                step,
            });
        }
    }
    None
}

/// The sectors of a track, in the order of their numbers.
fn sectors_on(alloc: Global, track: &[u8], is_single: bool) -> Result<Vec<Sector>, AllocError> {
    let mut sectors = Vec::new(alloc);
    for place in 0..POINTERS {
        let pointer = little(track, place * 2);
        if pointer == 0 {
            continue;
        }
        if let Some(sector) = sector_at(track, pointer, is_single) {
            sectors.push(sector)?;
        }
    }
    sectors.sort_by_key(|sector| sector.number)?;
    Ok(sectors)
}

/// Adds the bytes of a sector, as far as its track goes.
fn push_sector(made: &mut Vec<u8>, track: &[u8], sector: Sector) -> Result<(), AllocError> {
    for number in 0..sector.size {
        if let Some(byte) = track.get(after(sector.at, number, sector.step)) {
            made.push(*byte)?;
        }
    }
    Ok(())
}

/// Adds the sectors of a track.
fn push_track(
    alloc: Global,
    made: &mut Vec<u8>,
    track: &[u8],
    is_single: bool,
) -> Result<(), AllocError> {
    for sector in &sectors_on(alloc, track, is_single)? {
        push_sector(made, track, *sector)?;
    }
    Ok(())
}

/// The sectors of such a file: each track in the order of its sectors' numbers.
pub fn sectors_of_dmk(alloc: Global, file: &[u8]) -> Result<Vec<u8>, AllocError> {
    let length = usize::from(little(file, 2)).max(1);
    let is_single = byte_at(file, 4) & 0x40 == 0;
    let mut made = Vec::new(alloc);
    for track in from(file, HEAD).chunks(length) {
        push_track(alloc, &mut made, track, is_single)?;
    }
    Ok(made)
}
