//! Pieces of a container that are read in another order than they lie in.

ghost use Rattle.std.specs.Prelude.{◌≡◌, ◌+◌, ◌-◌, ◌*◌, ◌^◌, ◌<◌, ◌≤◌};
ghost use Rattle.old_disks.specs.Orders.{sector_on_track};

use crate::refusal::Refusal;
use std::alloc::{AllocError, Global};

/// How many sectors a track of a PDP-11's floppy disk has.
const SECTORS: usize = 26;

/// How many tracks the whole disk has; the first of them is unused.
const ALL_TRACKS: usize = 77;

/// How many tracks or sectors are put into another order at most.
const MOST_PIECES: usize = 16_777_216;

/// Where pieces of one size begin, in the order in which they are read.
#[derive(Drop)]
pub struct Pieces {
    places: Vec<usize>,
    size: usize,
}

/// Which sector of its track is read as this one, on the track of this number, counted from the first that is used: each second one is
/// read next, and each track begins 6 sectors further on.
#[tactic(auto, unfolding(crate::specs::Orders::sector_on_track))]
fn sector_on_track(track: u16, number: usize) -> usize
    requires { number < 26 }
    ensures value { result ≡ sector_on_track track number }
    ensures inside { result < 26 }
{
    (usize::from(track) * 6 + number * 2 + number / 13) % SECTORS
}

/// Which track is read as this one of two sides that come in turn, each of `half` tracks: all of the first side come first.
fn track_of_side(number: usize, half: usize) -> usize
    requires inside { number < 2 * half }
    requires small { 2 * half < 2 ^ 64 }
    ensures first { number < half → result ≡ 2 * number }
    ensures second { half ≤ number → result ≡ 2 * (number - half) + 1 }
{
    if number < half {
        number * 2
    } else {
        (number - half) * 2 + 1
    }
}

/// Where the sector of this number begins, counted through all tracks of a disk of which so many are unused.
fn sector_place(at: usize, unused: u16, sector: usize) -> usize {
    let track = u16::try_from(at / SECTORS).unwrap_or(u16::MAX);
    let place = sector_on_track(track.saturating_sub(unused), at % SECTORS);
    (at / SECTORS)
        .saturating_mul(SECTORS)
        .saturating_add(place)
        .saturating_mul(sector)
}

impl Pieces {
    /// The sectors of a PDP-11's floppy disk. A file of 77 tracks has the unused one.
    pub fn of_disk(alloc: Global, bytes: usize, sector: usize) -> Result<Pieces, Refusal> {
        let pitch = sector.saturating_mul(SECTORS);
        if bytes == 0 || bytes.checked_rem(pitch) != Some(0) || bytes > MOST_PIECES {
            return Err(Refusal::NotTracks {
                bytes,
                track: pitch,
            });
        }
        let tracks = bytes.checked_div(pitch).unwrap_or(0);
        let unused: u16 = if tracks == ALL_TRACKS { 1 } else { 0 };
        let mut places = Vec::new(alloc);
        for at in usize::from(unused) * SECTORS..tracks.saturating_mul(SECTORS) {
            places
                .push(sector_place(at, unused, sector))
                .map_err(|_| Refusal::OutOfMemory)?;
        }
        Ok(Pieces {
            places,
            size: sector,
        })
    }

    /// The tracks of a disk whose two sides come in turn: all of the first side come first.
    pub fn of_sides(alloc: Global, bytes: usize, track: usize) -> Result<Pieces, Refusal> {
        if track == 0 || bytes % track != 0 || bytes / track % 2 != 0 {
            return Err(Refusal::NotSides { bytes, track });
        }
        let half = bytes / track / 2;
        let mut places = Vec::new(alloc);
        for number in 0..half * 2 {
            let begin = track_of_side(number, half).saturating_mul(track);
            places.push(begin).map_err(|_| Refusal::OutOfMemory)?;
        }
        Ok(Pieces {
            places,
            size: track,
        })
    }

    /// The pieces of a container, one after the other.
    pub fn gathered(&self, alloc: Global, container: &[u8]) -> Result<Vec<u8>, AllocError> {
        let mut made = Vec::new(alloc);
        for begin in &self.places {
            let end = begin.saturating_add(self.size);
            made.extend_from_slice(container.get(*begin..end).unwrap_or(b""))?;
        }
        Ok(made)
    }

    /// Puts bytes back into the pieces that they are of. What has no piece stays.
    pub fn scatter(&self, bytes: &[u8], container: &mut [u8]) {
        let size = self.size;
        if size == 0 {
            return;
        }
        for (begin, piece) in self.places.iter().zip(bytes.chunks(size)) {
            put_at(container, *begin, piece);
        }
    }
}

/// Puts bytes into a container from a place on, as far as it goes.
pub fn put_at(container: &mut [u8], begin: usize, bytes: &[u8]) {
    for (offset, byte) in bytes.iter().enumerate() {
        if let Some(place) = container.get_mut(begin.saturating_add(offset)) {
            *place = *byte;
        }
    }
}
