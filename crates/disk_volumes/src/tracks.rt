//! Files of tracks, and their sectors one after the other.

ghost use Rattle.std.specs.Prelude.{◌≡◌, ◌≤◌, IfOk, IsNone, IsSome, length};

use crate::dmk::{is_dmk, sectors_of_dmk};
use crate::imagedisk::{is_imagedisk, sectors_of_imagedisk};
use crate::unreadable::Unreadable;
use std::alloc::Global;
use std::fmt;

/// How many bytes the sectors of a file have at most: those of 65,536 screens.
pub const MOST_BYTES: usize = 67_108_864;

/// What kind of tracks a file has.
#[derive(Clone, Copy, Debug, PartialEq, Eq)]
pub enum Tracks {
    /// Dave Dunfield's ImageDisk.
    ImageDisk,
    /// David Keil's format.
    Dmk,
}

impl fmt::Display for Tracks {
    fn fmt<W: fmt::Write>(&self, f: &mut fmt::Formatter<W>) -> fmt::Result {
        f.write_str(match self {
            Tracks::ImageDisk => "an ImageDisk file (IMD)",
            Tracks::Dmk => "the tracks of a TRS-80 disk (DMK)",
        })
    }
}

/// The sectors of a file, and what kind of tracks they were taken from, if they were.
#[derive(Drop)]
pub struct Sectors {
    pub tracks: Option<Tracks>,
    pub bytes: Vec<u8>,
}

/// What kind of tracks a file has, if it has tracks.
pub fn is_tracks(file: &[u8]) -> Option<Tracks> {
    if is_imagedisk(file) {
        return Some(Tracks::ImageDisk);
    }
    if is_dmk(file) {
        return Some(Tracks::Dmk);
    }
    None
}

/// The sectors of tracks of this kind.
fn decoded(alloc: Global, file: &[u8], tracks: Tracks) -> Result<Vec<u8>, Unreadable> {
    match tracks {
        Tracks::ImageDisk => sectors_of_imagedisk(alloc, file),
        Tracks::Dmk => Ok(sectors_of_dmk(alloc, file)?),
    }
}

/// The sectors of a file, one after the other by their numbers; a file that has no tracks is its own sectors, byte for byte. Refused if
/// the tracks are damaged or too many, or memory runs out.
pub fn sectors_of(alloc: Global, file: &[u8]) -> Result<Sectors, Unreadable>
    ensures same { IfOk result (λ s. IsNone s.tracks → s.bytes.items ≡ file.now) }
    ensures most { IfOk result (λ s. IsSome s.tracks → length s.bytes.items ≤ 67108864) }
{
    let Some(tracks) = is_tracks(file) else {
        return Ok(Sectors {
            tracks: None,
            bytes: Vec::from_slice(alloc, file)?,
        });
    };
    let bytes = decoded(alloc, file, tracks)?;
    if bytes.len() > MOST_BYTES {
        return Err(Unreadable::TooLarge);
    }
    Ok(Sectors {
        tracks: Some(tracks),
        bytes,
    })
}
