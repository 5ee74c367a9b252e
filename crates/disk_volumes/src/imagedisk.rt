//! ImageDisk files: a text up to ^Z, and then each track with the numbers of its sectors.

ghost use Rattle.std.specs.Prelude.{◌≡◌, ◌<◌, ◌*◌, ◌^◌, IfNone, IfSome};

use crate::bytes::{byte_at, from, piece};
use crate::tracks::{MOST_BYTES, Tracks};
use crate::unreadable::Unreadable;
use std::alloc::Global;

/// How many bytes come before the numbers of a track's sectors.
const HEAD: usize = 5;

/// A sector, where its bytes begin, and how they are written.
#[derive(Clone, Copy)]
struct Sector {
    number: u8,
    at: usize,
    body: Body,
}

/// How the bytes of a sector are written.
#[derive(Clone, Copy)]
enum Body {
    /// They could not be read.
    Missing,
    /// Each is the same one.
    Uniform,
    /// One after the other.
    Whole,
}

/// A track, with its sectors in the order of the file.
#[derive(Drop)]
struct Track {
    cylinder: u8,
    head: u8,
    size: usize,
    sectors: Vec<Sector>,
}

/// Whether a file is one of ImageDisk.
pub fn is_imagedisk(file: &[u8]) -> bool {
    file.starts_with(b"IMD ") && file.iter().any(|byte| *byte == 0x1a)
}

/// The file after its text.
fn after_text(file: &[u8]) -> &[u8] {
    match file.iter().position(|byte| *byte == 0x1a) {
        Some(at) => from(file, at.saturating_add(1)),
        None => b"",
    }
}

/// What is said of a file that ends too early, or has a sector of a size that does not exist.
fn damaged() -> Unreadable {
    Unreadable::Damaged(Tracks::ImageDisk)
}

/// How many bytes a sector has, by the code for it.
fn size_of(code: u8) -> Option<usize>
    ensures known { IfSome result (λ size. size ≡ 128 * 2 ^ code) }
    ensures none { IfNone result (6 < code) }
{
    match code {
        0 => Some(128),
        1 => Some(256),
        2 => Some(512),
        3 => Some(1024),
        4 => Some(2048),
        5 => Some(4096),
        6 => Some(8192),
        _ => None,
    }
}

impl Body {
    /// How it is written, by the code for it.
    fn of(code: u8) -> Body {
        match code {
            0 => Body::Missing,
            _ if code & 1 == 1 => Body::Whole,
            _ => Body::Uniform,
        }
    }

    /// How many bytes of the file it takes after its code.
    fn taken(self, size: usize) -> usize {
        match self {
            Body::Missing => 0,
            Body::Uniform => 1,
            Body::Whole => size,
        }
    }
}

/// The track that begins at a place, and the place after it.
fn track_at(alloc: Global, tracks: &[u8], begin: usize) -> Result<(Track, usize), Unreadable> {
    let head = from(tracks, begin);
    let Some(size) = head.get(4).and_then(|code| size_of(*code)) else {
        return Err(damaged());
    };
    let count = usize::from(byte_at(head, 3));
    let flags = byte_at(head, 2);
    let maps = 1 + usize::from(flags >> 7) + usize::from(flags >> 6 & 1);
    let mut at = begin.saturating_add(HEAD).saturating_add(count * maps);
    let mut sectors = Vec::new(alloc);
    for number in piece(head, HEAD, count) {
        let Some(code) = tracks.get(at) else {
            return Err(damaged());
        };
        let body = Body::of(*code);
        let number = *number;
        at = at.saturating_add(1);
        sectors
            .push(Sector { number, at, body })
            .map_err(|_| Unreadable::OutOfMemory)?;
        at = at.saturating_add(body.taken(size));
    }
    let track = Track {
        cylinder: byte_at(head, 1),
        head: flags & 1,
        size,
        sectors,
    };
    Ok((track, at))
}

/// Each track of a file.
fn tracks_of(alloc: Global, tracks: &[u8]) -> Result<Vec<Track>, Unreadable> {
    let mut made = Vec::new(alloc);
    let mut at = 0usize;
    for _ in 0..tracks.len() {
        if at >= tracks.len() {
            break;
        }
        let (track, end) = track_at(alloc, tracks, at)?;
        made.push(track).map_err(|_| Unreadable::OutOfMemory)?;
        at = end;
    }
    Ok(made)
}

/// Adds the bytes of a sector.
fn push_sector(
    made: &mut Vec<u8>,
    tracks: &[u8],
    sector: Sector,
    size: usize,
) -> Result<(), Unreadable> {
    if made.len().saturating_add(size) > MOST_BYTES {
        return Err(Unreadable::TooLarge);
    }
    let end = made.len().saturating_add(size);
    match sector.body {
        Body::Missing => made.resize(end, 0)?,
        Body::Uniform => made.resize(end, byte_at(tracks, sector.at))?,
        Body::Whole => made.extend_from_slice(piece(tracks, sector.at, size))?,
    }
    Ok(())
}

/// Adds the sectors of a track in the order of their numbers.
fn push_track(made: &mut Vec<u8>, tracks: &[u8], track: &mut Track) -> Result<(), Unreadable> {
    track.sectors.sort_by_key(|sector| sector.number)?;
    for sector in &track.sectors {
        push_sector(made, tracks, *sector, track.size)?;
    }
    Ok(())
}

/// The sectors of an ImageDisk file: the tracks by their cylinders and heads, and each track in the order of its sectors' numbers.
pub fn sectors_of_imagedisk(alloc: Global, file: &[u8]) -> Result<Vec<u8>, Unreadable> {
    let bytes = after_text(file);
    let mut tracks = tracks_of(alloc, bytes)?;
    tracks.sort_by_key(|track| (track.cylinder, track.head))?;
    let mut made = Vec::new(alloc);
    for track in tracks.iter_mut() {
        push_track(&mut made, bytes, track)?;
    }
    Ok(made)
}
