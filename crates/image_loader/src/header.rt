//! What is before the entry: magic, version, and in version 2 how many buffers there are.

ghost use Rattle.std.specs.Prelude.{◌≡◌, ◌≤◌, length, IfOk};
ghost use Rattle.memory.specs.Bytes.{IsCount};
ghost use Rattle.image_loader.specs.Checks.{agree, buffers_of, opening_of};

use crate::fault::ImageFault;
use byteorder::{ByteOrder, LittleEndian};

/// The magic and version 1.
const FIRST_VERSION: [u8; 10] = *b"FTH83IMG\x01\x00";

/// The magic and version 2, with which each file begins that is written.
pub const VERSION: [u8; 10] = *b"FTH83IMG\x02\x00";

/// How many bytes the magic has.
const MAGIC_SIZE: usize = 8;

/// Where the number of buffers is in version 2.
const BUFFERS: usize = 10;

/// How many buffers an image of version 1 has.
const FIRST_BUFFERS: u16 = 4;

/// Whether two lists are equal as far as both go.
fn agree(xs: &[u8], ys: &[u8]) -> bool
    ensures { result ≡ agree xs.now ys.now }
{
    let count = xs.len().min(ys.len());
    xs[..count] == ys[..count]
}

/// How many buffers version 2 says, and where the entry is.
fn read_buffers(bytes: &[u8]) -> Result<(u16, usize), ImageFault>
    ensures value { result ≡ buffers_of bytes.now }
    ensures count { IfOk result (λ found. IsCount found.0) }
    ensures place { IfOk result (λ found. found.1 ≤ length bytes.now) }
{
    if bytes.len() <= BUFFERS {
        return Err(ImageFault::Truncated);
    }
    let count = if bytes.len() == BUFFERS + 1 {
        u16::from(bytes[BUFFERS])
    } else {
        LittleEndian::read_u16(&bytes[BUFFERS..])
    };
    if count < 2 || count > 16 {
        return Err(ImageFault::BadBuffers);
    }
    if bytes.len() < BUFFERS + 2 {
        return Err(ImageFault::Truncated);
    }
    Ok((count, BUFFERS + 2))
}

/// How many buffers there are, and where the entry is; or the first field whose bytes fit no file.
pub fn read_opening(bytes: &[u8]) -> Result<(u16, usize), ImageFault>
    ensures value { result ≡ opening_of bytes.now }
    ensures count { IfOk result (λ found. IsCount found.0) }
    ensures place { IfOk result (λ found. found.1 ≤ length bytes.now) }
{
    if !agree(bytes, &VERSION[..MAGIC_SIZE]) {
        return Err(ImageFault::BadMagic);
    }
    if agree(bytes, &FIRST_VERSION) {
        if bytes.len() < FIRST_VERSION.len() {
            return Err(ImageFault::Truncated);
        }
        return Ok((FIRST_BUFFERS, FIRST_VERSION.len()));
    }
    if !agree(bytes, &VERSION) {
        return Err(ImageFault::BadVersion);
    }
    read_buffers(bytes)
}
