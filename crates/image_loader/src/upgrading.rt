//! The same image for another number of buffers.

ghost use Rattle.std.specs.Prelude.{◌≡◌, ◌↔◌, ◌<◌, length, IfOk, IsErrOf};
ghost use Rattle.memory.specs.Bytes.{IsCount, limit_of};

use crate::image::Image;
use memory::limit_of;
use std::alloc::Global;
use thiserror::Error;

/// Why there is no image with so many buffers. Each fault is spelled as its variant.
#[derive(Clone, Copy, Debug, PartialEq, Eq, Error)]
pub enum UpgradeFault {
    /// The bytes reach beyond where so many buffers begin.
    #[error("TooLarge")]
    TooLarge,
    /// There was no memory for the image.
    #[error("OutOfMemory")]
    OutOfMemory,
}

/// The same entry and bytes with `count` buffers, 2 to 16. `TooLarge` if the bytes reach beyond where these begin;
/// `OutOfMemory` if there was no memory for them.
pub fn upgrade(alloc: Global, image: &Image, count: u16) -> Result<Image, UpgradeFault>
    requires { IsCount count }
    ensures buffers { IfOk result (λ found. found.buffers ≡ count) }
    ensures entry { IfOk result (λ found. found.entry ≡ image.now.entry) }
    ensures bytes { IfOk result (λ found. found.bytes ≡ image.now.bytes) }
    ensures too_large { IsErrOf result UpgradeFault.TooLarge ↔ (limit_of count < length image.now.bytes) }
{
    let bytes = image.bytes();
    if bytes.len() > usize::from(limit_of(count)) {
        return Err(UpgradeFault::TooLarge);
    }
    match bytes.to_vec(alloc) {
        Ok(bytes) => Ok(Image::new(count, image.entry(), bytes)),
        Err(_) => Err(UpgradeFault::OutOfMemory),
    }
}
