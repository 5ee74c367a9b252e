//! Writing images.

ghost use Rattle.std.specs.Prelude.{◌≡◌, ◌↔◌, ◌<◌, ◌≤◌, ◌++◌, ℕ, List, length, take, drop, IfOk, OnErr, IsErr};
ghost use Rattle.image_loader.specs.Files.{IsWritten, field, opening};

use crate::borrowed::BorrowedImage;
use crate::header::VERSION;
use crate::image::Image;
use byteorder::{ByteOrder, LittleEndian};
use memory::OutOfMemory;
use std::alloc::{AllocError, Global};
use thiserror::Error;

/// How many bytes are before those of memory in version 2.
const HEADER: usize = 16;

/// There is less room than a file has bytes.
#[derive(Clone, Copy, Debug, PartialEq, Eq, Error)]
#[error("short room")]
pub struct ShortRoom;

/// The bytes of the file of an image, in version 2.
///
/// `OutOfMemory`: there was no memory for them.
pub fn write(alloc: Global, image: &Image) -> Result<Vec<u8>, OutOfMemory>
    ensures { IfOk result (λ bytes. IsWritten bytes.items image.now) }
{
    match write_all(alloc, &image.borrowed()) {
        Ok(bytes) => Ok(bytes),
        Err(_) => Err(OutOfMemory),
    }
}

/// Puts the file of an image, in version 2, at the front of the room, and says how many bytes it has. `ShortRoom` if the room
/// has fewer; it is then as it was.
pub fn write_into(image: &BorrowedImage<'_>, room: &mut [u8]) -> Result<usize, ShortRoom>
    ensures written { IfOk result (λ size. IsWritten (take size room.new) image.now) }
    ensures beyond { IfOk result (λ size. drop size room.new ≡ drop size room.old) }
    ensures fits { IfOk result (λ size. size ≤ length room.new) }
    ensures short { IsErr result ↔ ((bytes : List ℕ) × IsWritten bytes image.now × (length room.old < length bytes)) }
    ensures stays { OnErr result (room.new ≡ room.old) }
{
    let bytes = image.bytes();
    let size = HEADER + bytes.len();
    if room.len() < size {
        return Err(ShortRoom);
    }
    let header = file_header(image);
    let (front, rest) = room.split_at_mut(HEADER);
    front.copy_from_slice(&header);
    rest[..bytes.len()].copy_from_slice(bytes);
    Ok(size)
}

/// The file in a vector.
fn write_all(alloc: Global, image: &BorrowedImage<'_>) -> Result<Vec<u8>, AllocError>
    ensures { IfOk result (λ all. IsWritten all.items image.now) }
{
    let bytes = image.bytes();
    let mut all = Vec::with_capacity(alloc, HEADER + bytes.len())?;
    all.extend_from_slice(&file_header(image))?;
    all.extend_from_slice(bytes)?;
    Ok(all)
}

/// What is before the bytes of memory in the file of an image, in version 2.
#[tactic(auto, using(crate::proofs::Tails::small))]
pub fn file_header(image: &BorrowedImage<'_>) -> [u8; 16]
    ensures { result ≡ opening image.now.buffers ++ field image.now.entry ++ field (length image.now.bytes) }
{
    let buffers = image.buffers();
    let entry = image.entry();
    let size = image.bytes().len() as u16;
    let mut header = [0u8; 16];
    header[..10].copy_from_slice(&VERSION);
    LittleEndian::write_u16(&mut header[10..], buffers);
    LittleEndian::write_u16(&mut header[12..], entry);
    LittleEndian::write_u16(&mut header[14..], size);
    header
}
