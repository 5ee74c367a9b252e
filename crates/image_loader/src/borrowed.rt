//! An image whose bytes lie elsewhere: in its file, or in memory.

ghost use Rattle.std.specs.Prelude.{◌≡◌, ◌≤◌, length, IfOk};
ghost use Rattle.memory.specs.Bytes.{IsCount, limit_of};
ghost use Rattle.memory.specs.declared.limit.TheConstants.{GREATEST_LIMIT};
ghost use Rattle.image_loader.specs.Files.{IsImage};

use crate::image::Image;
use memory::OutOfMemory;
use std::alloc::Global;
use std::marker::Model;

/// What an [`Image`] has, with bytes that lie elsewhere: in its file, or in memory.
#[derive(Debug, Drop)]
pub struct BorrowedImage<'a> {
    buffers: u16,
    entry: u16,
    bytes: &'a [u8],
}

impl<'a> Model for BorrowedImage<'a> {
    ghost use Rattle.image_loader.specs.Files.{Contents, IsImage};

    ghost Value = { Contents };

    ghost view = { λ i. record { buffers = i.buffers; entry = i.entry; bytes = i.bytes.now } };

    ghost invariant = { λ i. IsImage (record { buffers = i.buffers; entry = i.entry; bytes = i.bytes.now }) };
}

impl<'a> BorrowedImage<'a> {
    /// The image of these bytes, at least 256 and at most up to where so many buffers begin, which starts with the word at
    /// `entry`.
    pub fn new(buffers: u16, entry: u16, bytes: &'a [u8]) -> BorrowedImage<'a>
        requires count { IsCount buffers }
        requires least { 256 ≤ length bytes.now }
        requires most { length bytes.now ≤ limit_of buffers }
        ensures buffers { result.buffers ≡ buffers }
        ensures entry { result.entry ≡ entry }
        ensures bytes { result.bytes ≡ bytes.now }
    {
        BorrowedImage {
            buffers,
            entry,
            bytes,
        }
    }

    /// How many block buffers the machine has.
    pub fn buffers(&self) -> u16
        ensures value { result ≡ self.now.buffers }
        ensures count { IsCount result }
    {
        self.buffers
    }

    /// The compilation address of the word that the machine starts with.
    pub fn entry(&self) -> u16
        ensures { result ≡ self.now.entry }
    {
        self.entry
    }

    /// The bytes of memory from address 0 on. The rest of memory is zero.
    pub fn bytes(&self) -> &[u8]
        ensures bytes { result.now ≡ self.now.bytes }
        ensures image { IsImage self.now }
        ensures most { length result.now ≤ GREATEST_LIMIT }
    {
        self.bytes
    }

    /// The same image with bytes of its own. `OutOfMemory` if there was no memory for them.
    pub fn to_image(&self, alloc: Global) -> Result<Image, OutOfMemory>
        ensures { IfOk result (λ image. image ≡ self.now) }
    {
        match self.bytes.to_vec(alloc) {
            Ok(bytes) => Ok(Image::new(self.buffers, self.entry, bytes)),
            Err(_) => Err(OutOfMemory),
        }
    }
}
