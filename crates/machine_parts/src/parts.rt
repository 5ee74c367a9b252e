//! What the rows read and write, and what they answer.

ghost use Rattle.std.specs.Prelude.{◌≡◌, ◌≤◌, IsTrue};
ghost use Rattle.machine_parts.specs.Row.{has_room};

use block_buffers::buffers::Buffers;
use dictionary::fits;
use memory::Memory;
use name_index::NameIndex;
use stacks::Stack;
use std::marker::Model;

/// Bytes of memory, by address and number. They go on at address 0 past memory's end.
#[derive(Clone, Copy, Debug, PartialEq, Eq)]
pub struct Span {
    pub at: u16,
    pub len: u16,
}

/// What a row asks of the world.
#[derive(Clone, Copy, Debug, PartialEq, Eq)]
pub enum Request {
    /// A typed byte.
    Key,
    /// A line of at most `n` typed bytes.
    Line { n: u16 },
    /// The bytes of a block.
    Read { block: u16 },
    /// That a block's bytes be kept.
    Write { block: u16 },
}

/// What a row answers.
#[derive(Clone, Copy, Debug, PartialEq, Eq)]
pub enum Outcome {
    /// The row is done.
    Done,
    /// It is done, and shows these bytes of memory as the row leaves it.
    Show(Span),
    /// It is done, and shows this byte.
    Byte(u8),
    /// It can't be done before this is answered.
    Ask(Request),
    /// It can't be done: a fault of this number.
    Fault(u16),
    /// It shows these bytes, and is fault 17.
    Abort(Span),
    /// It is done, and the machine halts.
    Halt,
}

/// What the rows read and write: memory, the data stack and the return stack, the place in the thread (`ip`),
/// the token that comes next in its place (`pending`), the block buffers, how many blocks the device has, where the
/// buffers begin in memory, as they give it, and what searches of this memory found, in `index`. Whoever writes memory
/// notes it there. Memory belongs to whoever made the parts. If a host lent it and wants to know what it contains after its
/// machine is taken apart, `is_lent` is set, and clauses say that the parts still have the same memory.
#[derive(Drop)]
pub struct Parts<'m> {
    pub memory: &'m mut Memory,
    pub is_lent: bool,
    pub values: Stack,
    pub returns: Stack,
    pub ip: u16,
    pub pending: Option<u16>,
    pub buffers: Buffers,
    pub block_count: u32,
    pub limit: u16,
    pub index: NameIndex,
}

impl<'m> Model for Parts<'m> {
    ghost use Rattle.std.specs.Prelude.{◌≡◌};
    ghost use Rattle.block_buffers.specs.Entries.{limit as limit_by};
    ghost use Rattle.name_index.specs.Index.{Holds};
    ghost use Rattle.memory.specs.Mirrored.{stored};
    ghost use Rattle.machine_parts.specs.Whole.{Whole, place_of};

    ghost Value = { Whole };

    ghost view = { λ p. record { memory = stored p.memory.now; values = p.values; returns = p.returns; ip = p.ip; pending = p.pending; buffers = p.buffers; block_count = p.block_count; place = place_of p.is_lent p.memory.ghost_name } };

    ghost invariant = { λ p. (p.limit ≡ limit_by p.buffers) × Holds p.limit p.index (stored p.memory.now) };
}

impl<'m> Parts<'m> {
    /// Whether `n` bytes fit at HERE: the dictionary ends where the block buffers begin.
    pub fn has_room(&self, n: usize) -> bool
        ensures value { result ≡ has_room self.now n }
        ensures bound { IsTrue result → n ≤ 65535 }
    {
        fits(self.memory, n, self.limit)
    }
}
