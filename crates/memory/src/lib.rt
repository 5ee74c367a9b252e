//! The machine's memory: 65,536 bytes, seen as the list of them. Addresses wrap at its end.
#![tactic(auto)]

mod access;
pub mod controls;
pub mod laws;
mod limit;
pub mod mirrored;
mod snapshot;
pub mod system;

ghost use Rattle.std.specs.Prelude.{◌≡◌, ◌+◌, ◌*◌, ◌<◌, ◌≤◌, ◌++◌, length, take, drop, slice_index, IfOk, IsOk};
ghost use Rattle.memory.specs.Bytes.{byte, cell, put_byte, put_cell, bytes, zeros, front_put, page, with_page, filled, moved_up, moved_down, put_bytes};
ghost use Rattle.memory.specs.Mirrored.{stored};

pub use access::{byte_at, cell_at, cell_bytes, set_byte_at, set_cell_at};
pub use limit::{GREATEST_LIMIT, limit_of};
pub use snapshot::Snapshot;
use std::alloc::Global;
use thiserror::Error;

/// How many bytes memory has.
pub const SIZE: usize = 65536;

/// There is no memory left.
#[derive(Clone, Copy, Debug, PartialEq, Eq, Error)]
#[error("out of memory")]
pub struct OutOfMemory;

/// 65,536 bytes. A cell is two of them, the low byte at the lower address. The sixteen bytes after them are no part of memory:
/// a loop may keep the first ones there (`mirrored`). It has a fixed layout, so that a host can keep memory in a record of its own.
#[repr(C)]
#[derive(Drop)]
pub struct Memory {
    pub bytes: [u8; 65552],
}

/// Writes `part` from the place `start` on.
fn put_part(bytes: &mut [u8], start: usize, part: &[u8])
    requires { start + length part.now ≤ length bytes.old }
    ensures bytes { bytes.new ≡ take start bytes.old ++ (part.now ++ drop (start + length part.now) bytes.old) }
{
    bytes[start..start + part.len()].copy_from_slice(part);
}

impl Memory {
    /// Memory of zeros, if the caller wants it: it takes nothing from `alloc`, and never fails. `boxed` is for the heap.
    #[tactic(auto, using(crate::proofs::Behind::zeros_are))]
    pub fn new(_alloc: Global) -> Result<Memory, OutOfMemory>
        ensures zeros { IfOk result (λ m. stored m ≡ zeros) }
        ensures never { IsOk result }
    {
        Ok(Memory { bytes: [0; 65552] })
    }

    /// Memory of zeros in a box.
    pub fn boxed(alloc: Global) -> Result<Box<Memory>, OutOfMemory>
        ensures { IfOk result (λ m. stored m.value ≡ zeros) }
    {
        match Box::new(alloc, Memory::new(alloc)?) {
            Ok(memory) => Ok(memory),
            Err(_) => Err(OutOfMemory),
        }
    }

    /// Memory that begins with these bytes, and is zero after them.
    pub fn with_front(alloc: Global, bytes: &[u8]) -> Result<Box<Memory>, OutOfMemory>
        requires { length bytes.now ≤ 65536 }
        ensures { IfOk result (λ m. stored m.value ≡ front_put bytes.now zeros) }
    {
        let mut memory = Memory::boxed(alloc)?;
        memory.put_front(bytes);
        Ok(memory)
    }

    /// Writes `bytes` from address 0 on.
    #[tactic(auto, using(crate::proofs::Behind::front_begun))]
    fn put_front(&mut self, bytes: &[u8])
        requires { length bytes.now ≤ 65536 }
        ensures { stored self.new ≡ front_put bytes.now (stored self.old) }
    {
        let end = bytes.len();
        self.bytes[0..end].copy_from_slice(bytes);
    }

    /// All bytes.
    #[tactic(auto, using(crate::proofs::Behind::front_is, crate::proofs::Behind::length_front))]
    pub fn as_slice(&self) -> &[u8]
        ensures bytes { result.now ≡ stored self.now }
        ensures len { length (stored self.now) ≡ 65536 }
    {
        &self.bytes[..SIZE]
    }

    /// How many bytes there are, which every range and every cell rests on.
    pub fn len(&self) -> usize
        ensures value { result ≡ 65536 }
        ensures bytes { length (stored self.now) ≡ 65536 }
    {
        self.as_slice().len()
    }

    /// The byte at `at`.
    pub fn byte(&self, at: u16) -> u8
        ensures { result ≡ byte (stored self.now) at }
    {
        byte_at(&self.bytes, at)
    }

    /// The cell at `at`, whose high byte is at the next address.
    pub fn cell(&self, at: u16) -> u16
        ensures { result ≡ cell (stored self.now) at }
    {
        cell_at(&self.bytes, at)
    }

    /// Writes the byte at `at`.
    pub fn set_byte(&mut self, at: u16, value: u8)
        ensures { stored self.new ≡ put_byte (stored self.old) at value }
    {
        set_byte_at(&mut self.bytes, at, value);
    }

    /// Writes the cell at `at`.
    pub fn set_cell(&mut self, at: u16, value: u16)
        ensures { stored self.new ≡ put_cell (stored self.old) at value }
    {
        set_cell_at(&mut self.bytes, at, value);
    }

    /// Writes `value` to each of the `n` addresses from `at` on.
    #[tactic(auto, using(crate::proofs::Steps::filled_none, crate::proofs::Steps::filled_more))]
    pub fn fill(&mut self, at: u16, n: u16, value: u8)
        ensures { stored self.new ≡ filled (stored self.old) at n value }
    {
        for i in 0..n {
            self.set_byte(at.wrapping_add(i), value);
        }
    }

    /// Moves `n` bytes one by one, the first one first (CMOVE).
    #[tactic(auto, using(crate::proofs::Steps::moved_up_none, crate::proofs::Steps::moved_up_more))]
    pub fn move_up(&mut self, from: u16, to: u16, n: u16)
        ensures { stored self.new ≡ moved_up (stored self.old) from to n }
    {
        for i in 0..n {
            self.set_byte(to.wrapping_add(i), self.byte(from.wrapping_add(i)));
        }
    }

    /// Moves `n` bytes one by one, the last one first (CMOVE>).
    #[tactic(auto, using(crate::proofs::Steps::moved_down_none, crate::proofs::Steps::moved_down_more))]
    pub fn move_down(&mut self, from: u16, to: u16, n: u16)
        ensures { stored self.new ≡ moved_down (stored self.old) from to n }
    {
        for i in (0..n).rev() {
            self.set_byte(to.wrapping_add(i), self.byte(from.wrapping_add(i)));
        }
    }

    /// Writes `bytes` from `at` on.
    #[tactic(auto, using(crate::proofs::Puts::puts))]
    pub fn set_bytes(&mut self, at: u16, bytes: &[u8])
        ensures { stored self.new ≡ put_bytes (stored self.old) at bytes.now }
    {
        let mut place = at;
        for byte in bytes {
            self.set_byte(place, *byte);
            place = place.wrapping_add(1);
        }
    }

    /// The `n` bytes from `at` on, in two pieces: the second is empty but where the first ends at memory's end.
    #[tactic(auto, unfolding(crate::specs::Bytes::bytes))]
    pub fn span(&self, at: u16, n: u16) -> (&[u8], &[u8])
        ensures bytes { result.0.now ++ result.1.now ≡ bytes (stored self.now) at n }
        ensures len { length result.0.now + length result.1.now ≡ n }
    {
        let memory = self.as_slice();
        let start = at as usize;
        let end = start + n as usize;
        if end <= SIZE {
            (&memory[start..end], &memory[..0])
        } else {
            (&memory[start..], &memory[..end - SIZE])
        }
    }

    /// Byte `i` of the `n` bytes from `at` on.
    #[tactic(auto, using(crate::proofs::Ranges::ranges), unfolding(crate::specs::Bytes::byte))]
    pub fn byte_in(&self, at: u16, n: u16, i: u16) -> u8
        requires { i < n }
        ensures value { result ≡ slice_index (bytes (stored self.now) at n) i }
        ensures len { length (bytes (stored self.now) at n) ≡ n }
    {
        self.as_slice()[at.wrapping_add(i) as usize]
    }

    /// The 1,024 bytes from `at` on, an address up to 64,512.
    #[tactic(auto, unfolding(crate::specs::Bytes::page))]
    pub fn page(&self, at: u16) -> &[u8; 1024]
        requires { at ≤ 64512 }
        ensures { result.now ≡ page (stored self.now) at }
    {
        let start = usize::from(at);
        let Some((page, _)) = self.as_slice()[start..].split_first_chunk::<1024>() else {
            unreachable!()
        };
        page
    }

    /// Writes the 1,024 bytes from `at` on, an address up to 64,512.
    #[tactic(auto, using(crate::proofs::Behind::front_page))]
    pub fn set_page(&mut self, at: u16, page: &[u8; 1024])
        requires { at ≤ 64512 }
        ensures { stored self.new ≡ with_page (stored self.old) at page.now }
    {
        let start = usize::from(at);
        put_part(&mut self.bytes[..], start, page);
    }

    /// A copy of all bytes, which takes no memory.
    pub fn snapshot(&self) -> Snapshot
        ensures { result ≡ stored self.now }
    {
        Snapshot::of(&self.bytes)
    }
}
