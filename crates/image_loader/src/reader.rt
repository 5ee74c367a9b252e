//! Reading images.

ghost use Rattle.std.specs.Prelude.{◌≡◌, ◌↔◌, IfOk, MatchResult, Ok, IsErrOf};
ghost use Rattle.memory.specs.Bytes.{IsCount};
ghost use Rattle.image_loader.specs.Files.{Contents, IsFile, IsCutShort, IsFollowed, HasBadMagic, HasBadVersion, HasBadBuffers, HasBadSize};
ghost use Rattle.image_loader.specs.Checks.{IsCopied, tail_of, read_of};

use crate::borrowed::BorrowedImage;
use crate::fault::ImageFault;
use crate::header::read_opening;
use crate::image::Image;
use byteorder::{ByteOrder, LittleEndian};
use memory::limit_of;
use std::alloc::Global;

/// How many bytes come after the opening before those of memory: entry and size.
const FIELDS: usize = 4;

/// The least size.
const LEAST_SIZE: u16 = 256;

/// Reads the image of which these bytes are the file. The image's bytes are those of the file: none is copied.
///
/// The fields are looked at in the order of their places, and the first whose bytes fit no file
/// gives the fault. Of a field that is cut off, the bytes that exist decide: any single byte
/// of a size fits, and a single byte of a number of buffers that is 2 to 16. Where all bytes fit and
/// more are lacking, the fault is `Truncated`.
pub fn read_in_place(bytes: &[u8]) -> Result<BorrowedImage<'_>, ImageFault>
    // What is read is the image of which these bytes are the file.
    ensures found { IfOk result (λ image. IsFile bytes.now image) }

    // Each file is read, since no memory is asked for.
    ensures accepted { (image : Contents) → IsFile bytes.now image → result ≡ Ok image }
    ensures known { ¬ IsErrOf result ImageFault.OutOfMemory }

    // Bytes that are lacking, and bytes that are too many.
    ensures truncated { IsErrOf result ImageFault.Truncated ↔ IsCutShort bytes.now }
    ensures trailing { IsErrOf result ImageFault.TrailingBytes ↔ IsFollowed bytes.now }

    // The first field whose bytes fit no file.
    ensures bad_magic { IsErrOf result ImageFault.BadMagic ↔ HasBadMagic bytes.now }
    ensures bad_version { IsErrOf result ImageFault.BadVersion ↔ HasBadVersion bytes.now }
    ensures bad_buffers { IsErrOf result ImageFault.BadBuffers ↔ HasBadBuffers bytes.now }
    ensures bad_size { IsErrOf result ImageFault.BadSize ↔ HasBadSize bytes.now }
{
    find_image(bytes)
}

/// Reads the image of which these bytes are the file, as `read_in_place` does, and copies its bytes.
pub fn read(alloc: Global, bytes: &[u8]) -> Result<Image, ImageFault>
    // What is read is the image of which these bytes are the file.
    ensures found { IfOk result (λ image. IsFile bytes.now image) }

    // Each file is read, unless memory runs out, and it runs out over files alone.
    ensures accepted { (image : Contents) → IsFile bytes.now image →
        MatchResult result (λ found. found ≡ image) (λ fault. fault ≡ ImageFault.OutOfMemory) }
    ensures out_of_memory { IsErrOf result ImageFault.OutOfMemory →
        (image : Contents) × IsFile bytes.now image }

    // Bytes that are lacking, and bytes that are too many.
    ensures truncated { IsErrOf result ImageFault.Truncated ↔ IsCutShort bytes.now }
    ensures trailing { IsErrOf result ImageFault.TrailingBytes ↔ IsFollowed bytes.now }

    // The first field whose bytes fit no file.
    ensures bad_magic { IsErrOf result ImageFault.BadMagic ↔ HasBadMagic bytes.now }
    ensures bad_version { IsErrOf result ImageFault.BadVersion ↔ HasBadVersion bytes.now }
    ensures bad_buffers { IsErrOf result ImageFault.BadBuffers ↔ HasBadBuffers bytes.now }
    ensures bad_size { IsErrOf result ImageFault.BadSize ↔ HasBadSize bytes.now }
{
    copied(alloc, read_in_place(bytes))
}

/// Reads the opening, and then what comes after it.
fn find_image(bytes: &[u8]) -> Result<BorrowedImage<'_>, ImageFault>
    ensures { result ≡ read_of bytes.now }
{
    let (buffers, place) = read_opening(bytes)?;
    find_tail(buffers, &bytes[place..])
}

/// Reads entry and size, and then as many bytes as it says.
fn find_tail(buffers: u16, bytes: &[u8]) -> Result<BorrowedImage<'_>, ImageFault>
    requires { IsCount buffers }
    ensures { result ≡ tail_of buffers bytes.now }
{
    if bytes.len() < FIELDS {
        return Err(ImageFault::Truncated);
    }
    let entry = LittleEndian::read_u16(bytes);
    let size = LittleEndian::read_u16(&bytes[2..]);
    if size < LEAST_SIZE || size > limit_of(buffers) {
        return Err(ImageFault::BadSize);
    }
    let body = &bytes[FIELDS..];
    let size = size as usize;
    if body.len() < size {
        return Err(ImageFault::Truncated);
    }
    if body.len() > size {
        return Err(ImageFault::TrailingBytes);
    }
    Ok(BorrowedImage::new(buffers, entry, body))
}

/// What was found, with bytes of its own.
fn copied(alloc: Global, found: Result<BorrowedImage<'_>, ImageFault>) -> Result<Image, ImageFault>
    ensures { IsCopied found.entry result }
{
    match found?.to_image(alloc) {
        Ok(image) => Ok(image),
        Err(_) => Err(ImageFault::OutOfMemory),
    }
}
