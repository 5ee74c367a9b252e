//! All of a machine but its memory; and machines over memory that is lent, which comes back.

ghost use Rattle.std.specs.Prelude.{◌≡◌, ◌≤◌, ℕ, Some, None};
ghost use Rattle.block_buffers.specs.Entries.{limit};
ghost use Rattle.image_loader.specs.Files.{Contents};
ghost use Rattle.memory.specs.Bytes.{front_put, zeros};
ghost use Rattle.memory.specs.Mirrored.{stored};
ghost use Rattle.name_index.specs.Index.{Holds};
ghost use Rattle.machine.specs.Registers.{state_of};
ghost use Rattle.machine.specs.State.{loaded_state, state_at};

use crate::lent_machine::LentMachine;
use crate::registers::Registers;
use block_buffers::buffers::Buffers;
use machine_parts::parts::Parts;
use memory::Memory;
use name_index::NameIndex;
use stacks::Stack;

/// All of a machine but its memory, and but the table of names that its searches fill.
#[derive(Drop)]
pub struct Rest {
    pub registers: Registers,
    pub block_count: u32,
}

impl Rest {
    /// What a machine has beside memory when an image was just loaded: `entry` is pending, and all else is empty.
    pub fn at_start(entry: u16, buffers: u16, block_count: u32) -> Rest
        requires least { 2 ≤ buffers }
        requires most { buffers ≤ 16 }
        ensures { (image : Contents) → image.buffers ≡ buffers → image.entry ≡ entry →
            state_of (front_put image.bytes zeros) result ≡ loaded_state image block_count }
    {
        Rest {
            registers: Registers {
                values: Stack::new(),
                returns: Stack::new(),
                ip: 0,
                pending: Some(entry),
                buffers: Buffers::new(buffers),
                wait: None,
                halt: None,
            },
            block_count,
        }
    }

    /// A rest to leave in the place of one that is moved.
    pub fn blank() -> Rest {
        Rest::at_start(0, 2, 0)
    }
}

/// A machine that was taken apart: its memory, all else, and its table of names.
#[derive(Drop)]
pub struct Parted<'m> {
    pub memory: &'m mut Memory,
    pub rest: Rest,
    pub index: NameIndex,
}

/// The machine of lent memory and all else, with a table of names that is right for this memory.
#[tactic(auto, unfolding(machine_parts::specs::Whole::place_of))]
pub fn over<'m>(memory: &'m mut Memory, rest: Rest, index: NameIndex) -> LentMachine<'m>
    requires { Holds (limit rest.registers.buffers) index (stored memory.now) }
    ensures { result ≡ state_at (Some memory.entry.ghost_name) (state_of (stored memory.entry.now) rest) }
{
    let limit = rest.registers.buffers.limit();
    let Rest {
        registers,
        block_count,
    } = rest;
    let Registers {
        values,
        returns,
        ip,
        pending,
        buffers,
        wait,
        halt,
    } = registers;
    let parts = Parts {
        memory,
        is_lent: true,
        values,
        returns,
        ip,
        pending,
        buffers,
        block_count,
        limit,
        index,
    };
    LentMachine::resume(parts, wait, halt)
}

/// Takes a machine apart: memory is the same that was lent.
pub fn part<'m>(machine: LentMachine<'m>) -> Parted<'m>
    ensures same { (name : ℕ) → machine.entry.parts.place ≡ Some name → result.memory.ghost_name ≡ name }
    ensures state { state_of (stored result.memory.now) result.rest ≡ state_at None machine.entry }
    ensures holds { Holds (limit result.rest.registers.buffers) result.index (stored result.memory.now) }
{
    let (parts, wait, halt) = machine.into_parts();
    let Parts {
        memory,
        is_lent: _,
        values,
        returns,
        ip,
        pending,
        buffers,
        block_count,
        limit: _,
        index,
    } = parts;
    Parted {
        memory,
        rest: Rest {
            registers: Registers {
                values,
                returns,
                ip,
                pending,
                buffers,
                wait,
                halt,
            },
            block_count,
        },
        index,
    }
}
