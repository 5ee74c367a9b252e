//! What a machine is loaded from.

ghost use Rattle.std.specs.Prelude.{◌≡◌, ◌≤◌, length, vec_len};
ghost use Rattle.memory.specs.Bytes.{IsCount, limit_of};
ghost use Rattle.memory.specs.declared.limit.TheConstants.{GREATEST_LIMIT};
ghost use Rattle.image_loader.specs.Files.{IsImage};

use crate::borrowed::BorrowedImage;
use std::marker::Model;

/// How many block buffers the machine has, 2 to 16; the bytes of memory from address 0 on, at least 256 and at most up to
/// where the buffers begin; and the compilation address of the word that the machine starts with.
#[derive(Debug, Drop)]
pub struct Image {
    buffers: u16,
    entry: u16,
    bytes: Vec<u8>,
}

impl Model for Image {
    ghost use Rattle.image_loader.specs.Files.{Contents, IsImage};

    ghost Value = { Contents };

    ghost view = { λ i. record { buffers = i.buffers; entry = i.entry; bytes = i.bytes.items } };

    ghost invariant = { λ i. IsImage (record { buffers = i.buffers; entry = i.entry; bytes = i.bytes.items }) };
}

impl Image {
    /// The image of these bytes, at least 256 and at most up to where so many buffers begin, which starts with the word at
    /// `entry`.
    pub fn new(buffers: u16, entry: u16, bytes: Vec<u8>) -> Image
        requires count { IsCount buffers }
        requires least { 256 ≤ vec_len bytes }
        requires most { vec_len bytes ≤ limit_of buffers }
        ensures buffers { result.buffers ≡ buffers }
        ensures entry { result.entry ≡ entry }
        ensures bytes { result.bytes ≡ bytes.items }
    {
        Image {
            buffers,
            entry,
            bytes,
        }
    }

    /// How many block buffers the machine has.
    pub fn buffers(&self) -> u16
        ensures value { result ≡ self.now.buffers }
        ensures count { IsCount result }
    {
        self.buffers
    }

    /// The compilation address of the word that the machine starts with.
    pub fn entry(&self) -> u16
        ensures { result ≡ self.now.entry }
    {
        self.entry
    }

    /// The bytes of memory from address 0 on. The rest of memory is zero.
    pub fn bytes(&self) -> &[u8]
        ensures bytes { result.now ≡ self.now.bytes }
        ensures image { IsImage self.now }
        ensures most { length result.now ≤ GREATEST_LIMIT }
    {
        self.bytes.as_slice()
    }

    /// The same image, with the bytes that this one has.
    pub fn borrowed(&self) -> BorrowedImage<'_>
        ensures { result ≡ self.now }
    {
        BorrowedImage::new(self.buffers, self.entry, self.bytes.as_slice())
    }
}
