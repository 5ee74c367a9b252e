//! What a machine has beside memory, as cells.

ghost use Rattle.std.specs.Prelude.{◌≡◌, ◌<◌, ◌≤◌, ◌+◌, ◌*◌, ◌++◌, length, reverse, OnErr, OnOk};
ghost use Rattle.std.specs.Io.KnownBytes.{Appends};
ghost use Rattle.std.specs.List.{flat_map};
ghost use Rattle.arrayvec.specs.ArrayVec.{array_vec_len};
ghost use Rattle.inner_interpreter.specs.Ends.{Marks};
ghost use Rattle.inner_interpreter.specs.Sent.{AppendsPart};
ghost use Rattle.serving.specs.Registers.{content_cells, entry_cells, front_cells, front_of, register_cells, state_cells};
ghost use Rattle.serving.specs.Replies.{registers_reply, state_reply};

use crate::frames::send_cells;
use arrayvec::ArrayVec;
use block_buffers::Entry;
use block_buffers::buffers::Buffers;
use inner_interpreter::{EndFault, LentMachine, Output};
use machine::{halt_numbers, mark, wait_numbers};
use stacks::Stack;

/// The most cells that the registers have: 11 numbers, two stacks of 256 cells, and 4 cells for each of 16 buffers.
pub const MOST: usize = 587;

/// The numbers before the stacks and the buffers.
#[derive(Clone, Copy, Debug, PartialEq, Eq)]
pub struct Front {
    pub ip: u16,
    pub has_pending: u16,
    pub pending: u16,
    pub asks: u16,
    pub asked: u16,
    pub token: u16,
    pub halts: u16,
    pub fault: u16,
    pub values: u16,
    pub returns: u16,
    pub buffers: u16,
}

/// The numbers of a machine.
fn front_of(machine: &LentMachine) -> Front
    ensures { result ≡ front_of machine.now }
{
    let (has_pending, pending) = mark(machine.pending());
    let (asks, asked, token) = wait_numbers(machine.waiting());
    let (halts, fault) = halt_numbers(machine.halted());
    Front {
        ip: machine.ip(),
        has_pending,
        pending,
        asks,
        asked,
        token,
        halts,
        fault,
        values: machine.values().depth() as u16,
        returns: machine.returns().depth() as u16,
        buffers: machine.buffers().count(),
    }
}

/// These cells, with room for more.
fn started(front: &[u16]) -> ArrayVec<u16, MOST>
    requires { length front.now ≤ 587 }
    ensures items { result.items ≡ front.now }
    ensures len { array_vec_len result ≡ length front.now }
{
    let mut cells = ArrayVec::new();
    match cells.try_extend_from_slice(front) {
        Ok(()) => cells,
        Err(_) => unreachable!(),
    }
}

/// Adds the cells of a stack from the bottom.
#[tactic(auto, using(crate::proofs::States::cells_more))]
fn add_stack(cells: &mut ArrayVec<u16, MOST>, stack: &Stack)
    requires { array_vec_len cells.old ≤ 331 }
    ensures items { cells.new.items ≡ cells.old.items ++ reverse stack.now }
    ensures len { array_vec_len cells.new ≤ array_vec_len cells.old + 256 }
{
    for place in 0..stack.depth() {
        let Some(x) = stack.get(place) else {
            unreachable!()
        };
        cells.push(x);
    }
}

/// Adds a buffer.
fn add_entry(cells: &mut ArrayVec<u16, MOST>, entry: Entry)
    requires room { array_vec_len cells.old ≤ 583 }
    requires slot { entry.slot < 16 }
    ensures items { cells.new.items ≡ cells.old.items ++ entry_cells entry }
    ensures len { array_vec_len cells.new ≡ array_vec_len cells.old + 4 }
{
    let (has_block, block) = mark(entry.block);
    cells.push(entry.slot as u16);
    cells.push(has_block);
    cells.push(block);
    cells.push(u16::from(entry.updated));
}

/// Adds the buffers by recency.
#[tactic(auto, using(crate::proofs::States::entries_more))]
fn add_buffers(cells: &mut ArrayVec<u16, MOST>, buffers: &Buffers)
    requires { array_vec_len cells.old ≤ 523 }
    ensures { cells.new.items ≡ cells.old.items ++ flat_map entry_cells buffers.now }
{
    for place in 0..usize::from(buffers.count()) {
        add_entry(cells, buffers.entry(place));
    }
}

/// Adds the stacks and the buffers of a machine.
#[tactic(auto, using(crate::proofs::States::three_parts))]
fn add_contents(cells: &mut ArrayVec<u16, MOST>, machine: &LentMachine)
    requires { array_vec_len cells.old ≤ 11 }
    ensures { cells.new.items ≡ cells.old.items ++ content_cells machine.now.parts }
{
    add_stack(cells, machine.values());
    add_stack(cells, machine.returns());
    add_buffers(cells, machine.buffers());
}

/// What a machine has beside memory, without what it asks and why it halted.
#[tactic(auto, unfolding(crate::specs::Registers::state_cells))]
fn state_cells(machine: &LentMachine) -> ArrayVec<u16, MOST>
    ensures { result.items ≡ state_cells machine.now.parts }
{
    let front = front_of(machine);
    let mut cells = started(&[
        front.ip,
        front.has_pending,
        front.pending,
        front.values,
        front.returns,
    ]);
    add_contents(&mut cells, machine);
    cells
}

/// All registers of a machine.
#[tactic(auto, unfolding(crate::specs::Registers::register_cells))]
pub fn register_cells(machine: &LentMachine) -> ArrayVec<u16, MOST>
    ensures { result.items ≡ register_cells machine.now }
{
    let front = front_of(machine);
    let mut cells = started(&[
        front.ip,
        front.has_pending,
        front.pending,
        front.asks,
        front.asked,
        front.token,
        front.halts,
        front.fault,
        front.values,
        front.returns,
        front.buffers,
    ]);
    add_contents(&mut cells, machine);
    cells
}

/// What a machine has beside memory.
#[tactic(auto, unfolding(crate::specs::Replies::state_reply))]
pub fn send_state<W: Output>(machine: &LentMachine, writer: &mut W) -> Result<(), EndFault>
    ensures ok { OnOk result (Appends (W.sent writer.old) (W.sent writer.new) (state_reply machine.now.parts)) }
    ensures err { OnErr result (AppendsPart (W.sent writer.old) (W.sent writer.new) (state_reply machine.now.parts)) }
    ensures mark { Marks (W.failed writer.old) (W.failed writer.new) result }
{
    send_cells(writer, b'v', state_cells(machine).as_slice())
}

/// All registers of a machine.
#[tactic(auto, unfolding(crate::specs::Replies::registers_reply))]
pub fn send_registers<W: Output>(machine: &LentMachine, writer: &mut W) -> Result<(), EndFault>
    ensures ok { OnOk result (Appends (W.sent writer.old) (W.sent writer.new) (registers_reply machine.now)) }
    ensures err { OnErr result (AppendsPart (W.sent writer.old) (W.sent writer.new) (registers_reply machine.now)) }
    ensures mark { Marks (W.failed writer.old) (W.failed writer.new) result }
{
    send_cells(writer, b'G', register_cells(machine).as_slice())
}
