//! Volumes of RT-11, by their home block. The floppy disks of a PDP-11 are put into their order first.

ghost use Rattle.std.specs.Prelude.{◌≡◌, ◌↔◌, IfOk, IfSome, codes, drop, take, true};

use crate::bytes::{little, piece};
use crate::directory::{File, Place, put_file};
use old_disks::{Format, Options, Refusal, unpack};
use std::alloc::{AllocError, Global};

/// How many bytes a block has.
const BLOCK: usize = 512;

/// Where a volume's home block names the first block of the directory.
const FIRST_SEGMENT: usize = BLOCK + 0o724;

/// How many segments a directory has at most.
const SEGMENTS: usize = 31;

/// Where the entries of a segment begin, and up to where one may begin.
const ENTRIES: usize = 10;

const SEGMENT_END: usize = 1010;

/// The characters of a name, three in two bytes.
const RADIX_50: [u8; 40] = *b" ABCDEFGHIJKLMNOPQRSTUVWXYZ$.%0123456789";

/// Whether a volume has the name of the system in its home block.
fn is_volume(volume: &[u8]) -> bool
    ensures { (result ≡ true) ↔ (take 8 (drop 1008 volume.now) ≡ codes "DECRT11A") }
{
    piece(volume, 1008, 8) == b"DECRT11A".as_slice()
}

/// The sectors of a PDP-11's floppy disk in the order in which they are read; none if it is no such disk.
fn turned(alloc: Global, disk: &[u8], format: Format) -> Result<Option<Vec<u8>>, AllocError> {
    let options = Options {
        format,
        offset: None,
        sector: None,
        skew: Vec::new(alloc),
        first: 0,
        side: None,
        records: None,
        cleans: false,
        is_half: false,
        is_ebcdic: false,
    };
    match unpack(alloc, disk, &options) {
        Ok(unpacked) => Ok(Some(unpacked.blocks)),
        Err(Refusal::OutOfMemory) => Err(AllocError),
        Err(_) => Ok(None),
    }
}

/// The volume on a floppy disk whose tracks have so many bytes.
fn volume_on(
    alloc: Global,
    disk: &[u8],
    format: Format,
    track: usize,
) -> Result<Option<Vec<u8>>, AllocError> {
    if disk.len().checked_rem(track) != Some(0) {
        return Ok(None);
    }
    let volume = turned(alloc, disk, format)?;
    Ok(volume.filter(|volume| is_volume(volume.as_slice())))
}

/// The volume of RT-11 that a disk is, in the order in which it is read; none if it is no such volume.
pub fn volume_of(alloc: Global, disk: &[u8]) -> Result<Option<Vec<u8>>, AllocError>
    ensures plain { IfOk result (λ found. IfSome found (λ v. take 8 (drop 1008 disk.now) ≡ codes "DECRT11A" → v.items ≡ disk.now)) }
{
    if is_volume(disk) {
        return Ok(Some(Vec::from_slice(alloc, disk)?));
    }
    if let Some(volume) = volume_on(alloc, disk, Format::Rx01, 26 * 128)? {
        return Ok(Some(volume));
    }
    volume_on(alloc, disk, Format::Rx02, 26 * 256)
}

/// Adds the three characters of a number that are no blanks.
fn push_radix(name: &mut String, number: u16) -> Result<(), AllocError> {
    for divisor in [1600, 40, 1] {
        let place = usize::from(number / divisor % 40);
        name.push(char::from(RADIX_50[place]))?;
    }
    Ok(())
}

/// The name of an entry: six characters, a point, and three for its kind, without the blanks around them.
fn name_of(alloc: Global, segment: &[u8], at: usize) -> Result<String, AllocError> {
    let (mut name, mut kind) = (String::new(alloc), String::new(alloc));
    push_radix(&mut name, little(segment, at.saturating_add(2)))?;
    push_radix(&mut name, little(segment, at.saturating_add(4)))?;
    push_radix(&mut kind, little(segment, at.saturating_add(6)))?;
    let (name, kind) = (name.as_str().trim(), kind.as_str().trim());
    format!(in alloc; "{name}.{kind}")
}

/// Adds the files of a segment of the directory.
fn put_entries(alloc: Global, files: &mut Vec<File>, segment: &[u8]) -> Result<(), AllocError> {
    let step = usize::from(little(segment, 6)).saturating_add(14);
    let mut block = usize::from(little(segment, 8));
    for at in (ENTRIES..SEGMENT_END).step_by(step) {
        let status = little(segment, at);
        if status & 0o4000 != 0 {
            return Ok(());
        }
        let count = usize::from(little(segment, at.saturating_add(8)));
        if status & 0o2000 != 0 {
            let place = Place::Bytes {
                at: block.saturating_mul(BLOCK),
                count: count.saturating_mul(BLOCK),
            };
            put_file(files, name_of(alloc, segment, at)?, place)?;
        }
        block = block.saturating_add(count);
    }
    Ok(())
}

/// The files of a volume: each segment of its directory has two blocks, and each entry seven words or more.
pub fn rt11_files(alloc: Global, volume: &[u8]) -> Result<Vec<File>, AllocError> {
    let first = usize::from(little(volume, FIRST_SEGMENT));
    let mut files = Vec::new(alloc);
    let mut number = 1usize;
    for _ in 0..SEGMENTS {
        let begin = number
            .saturating_sub(1)
            .saturating_mul(2)
            .saturating_add(first);
        let segment = crate::bytes::from(volume, begin.saturating_mul(BLOCK));
        put_entries(alloc, &mut files, segment)?;
        number = usize::from(little(segment, 2));
        if number == 0 {
            break;
        }
    }
    Ok(files)
}
