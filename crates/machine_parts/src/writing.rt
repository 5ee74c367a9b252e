//! Writes to memory by rows and answers: the index gets to know of each.

#![tactic(auto, using(name_index::proofs::Writes::writes))]

ghost use Rattle.std.specs.Prelude.{◌≡◌, ◌<◌, ◌≤◌, length};
ghost use Rattle.block_buffers.specs.Entries.{address_of};
ghost use Rattle.memory.specs.Bytes.{put_byte, put_bytes, put_cell, moved_up, moved_down, filled, with_page};
ghost use Rattle.dictionary.specs.Laying.{laid_at};

use crate::parts::Parts;
use dictionary::lay_at;

impl<'m> Parts<'m> {
    /// Writes the byte at `at`.
    pub fn set_byte(&mut self, at: u16, value: u8)
        ensures { self.new ≡ (record self.old { memory = put_byte self.old.memory at value }) }
    {
        self.memory.set_byte(at, value);
        self.index.note(at, 1);
    }

    /// Writes the cell at `at`.
    pub fn set_cell(&mut self, at: u16, value: u16)
        ensures { self.new ≡ (record self.old { memory = put_cell self.old.memory at value }) }
    {
        self.memory.set_cell(at, value);
        self.index.note(at, 2);
    }

    /// Moves `n` bytes one by one, the first one first (CMOVE).
    pub fn move_up(&mut self, from: u16, to: u16, n: u16)
        ensures { self.new ≡ (record self.old { memory = moved_up self.old.memory from to n }) }
    {
        self.memory.move_up(from, to, n);
        self.index.note(to, n);
    }

    /// Moves `n` bytes one by one, the last one first (CMOVE>).
    pub fn move_down(&mut self, from: u16, to: u16, n: u16)
        ensures { self.new ≡ (record self.old { memory = moved_down self.old.memory from to n }) }
    {
        self.memory.move_down(from, to, n);
        self.index.note(to, n);
    }

    /// Writes `value` to each of the `n` addresses from `at` on.
    pub fn fill(&mut self, at: u16, n: u16, value: u8)
        ensures { self.new ≡ (record self.old { memory = filled self.old.memory at n value }) }
    {
        self.memory.fill(at, n, value);
        self.index.note(at, n);
    }

    /// Writes `bytes` from `at` on.
    pub fn set_bytes(&mut self, at: u16, bytes: &[u8])
        requires { length bytes.now ≤ 65535 }
        ensures { self.new ≡ (record self.old { memory = put_bytes self.old.memory at bytes.now }) }
    {
        self.memory.set_bytes(at, bytes);
        self.index.note(at, bytes.len() as u16);
    }

    /// Writes the 1,024 bytes of the buffer in a slot, on which no search rests that the index keeps.
    pub fn set_page(&mut self, slot: usize, page: &[u8; 1024])
        requires { slot < length self.old.buffers }
        ensures { self.new ≡ (record self.old
            { memory = with_page self.old.memory (address_of self.old.buffers slot) page.now }) }
    {
        let at = self.buffers.address_of(slot);
        let _ = self.memory.len();
        self.memory.set_page(at, page);
    }

    /// Writes bytes at an address, and sets DP after them. Whether they fit isn't asked.
    #[tactic(auto, using(name_index::proofs::Writes::writes), unfolding(dictionary::specs::Laying::laid_at))]
    pub fn lay_at(&mut self, here: u16, bytes: &[u8])
        requires { length bytes.now ≤ 65535 }
        ensures { self.new ≡ (record self.old { memory = laid_at here self.old.memory bytes.now }) }
    {
        lay_at(self.memory, here, bytes);
        self.index.note(here, bytes.len() as u16);
    }
}
