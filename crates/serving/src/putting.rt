//! Registers are put back.

ghost use Rattle.std.specs.Prelude.{◌≡◌, ◌≢◌, ◌<◌, ◌≤◌, ◌+◌, ◌*◌, ◌++◌, ℕ, List, length, reverse, take, drop, MatchOption, IfSome, IfNone, IsTrue, IsFalse};
ghost use Rattle.std.specs.List.{flat_map};
ghost use Rattle.arrayvec.specs.ArrayVec.{array_vec_len};
ghost use Rattle.block_buffers.specs.Entries.{AreBuffers};
ghost use Rattle.block_buffers.specs.declared.entry.Entry.{Entry as EntrySeen};
ghost use Rattle.machine.specs.State.{State};
ghost use Rattle.machine.specs.Registers.{registers_of};
ghost use Rattle.serving.specs.Registers.{IsMachine, IsPutBack, cells_bytes, entry_cells, front_cells, register_cells};

use crate::requests::cell_in;
use crate::state::{Front, MOST, register_cells};
use arrayvec::ArrayVec;
use block_buffers::Entry;
use block_buffers::buffers::Buffers;
use inner_interpreter::LentMachine;
use machine::{Registers, halt_of, marked, wait_of};
use stacks::Stack;

/// The cells that bytes are, if they are such of at most 587 cells.
#[tactic(auto, using(crate::proofs::Restoring::odd_bytes, crate::proofs::Restoring::many_bytes, crate::proofs::Restoring::all_bytes))]
fn cells_in(bytes: &[u8]) -> Option<ArrayVec<u16, MOST>>
    ensures { MatchOption result ((cells : List ℕ) → length cells ≤ 587 → bytes.now ≢ cells_bytes cells)
        (λ v. bytes.now ≡ cells_bytes v.items) }
{
    if bytes.len() % 2 != 0 || bytes.len() > 2 * MOST {
        return None;
    }
    let mut cells = ArrayVec::new();
    for place in 0..bytes.len() / 2 {
        cells.push(cell_in(bytes, 2 * place));
    }
    Some(cells)
}

/// The numbers that come first.
fn front_in(cells: &[u16]) -> Option<Front>
    ensures { MatchOption result (length cells.now < 11) (λ f. cells.now ≡ front_cells f ++ drop 11 cells.now) }
{
    let [
        ip,
        has_pending,
        pending,
        asks,
        asked,
        token,
        halts,
        fault,
        values,
        returns,
        buffers,
        ..
    ] = cells
    else {
        return None;
    };
    Some(Front {
        ip: *ip,
        has_pending: *has_pending,
        pending: *pending,
        asks: *asks,
        asked: *asked,
        token: *token,
        halts: *halts,
        fault: *fault,
        values: *values,
        returns: *returns,
        buffers: *buffers,
    })
}

/// Whether so many cells are those of stacks of these depths, which a machine's stacks may have, and of `count` buffers.
fn has_sizes(front: Front, size: usize, count: u16) -> bool
    requires { count ≤ 16 }
    ensures yes { IsTrue result → (front.values ≤ 256) × (front.returns ≤ 256) × (size ≡ 11 + front.values + front.returns + 4 * count) }
    ensures no { IsFalse result → front.values ≤ 256 → front.returns ≤ 256 → size ≢ 11 + front.values + front.returns + 4 * count }
{
    if front.values > 256 || front.returns > 256 {
        return false;
    }
    size == 11 + usize::from(front.values + front.returns + 4 * count)
}

/// The first cells, as many after them, and the others.
fn parts_of(cells: &[u16], first: u16, second: u16) -> (&[u16], &[u16], &[u16])
    requires { first + second ≤ length cells.now }
    ensures first { result.0.now ≡ take first cells.now }
    ensures second { result.1.now ≡ take second (drop first cells.now) }
    ensures third { result.2.now ≡ drop second (drop first cells.now) }
{
    let (values, rest) = cells.split_at(usize::from(first));
    let (returns, entries) = rest.split_at(usize::from(second));
    (values, returns, entries)
}

/// The stack with these cells from the bottom.
fn stack_in(cells: &[u16]) -> Stack
    requires { length cells.now ≤ 256 }
    ensures { reverse result ≡ cells.now }
{
    let mut stack = Stack::new();
    for cell in cells {
        stack.put(*cell);
    }
    stack
}

/// Adds the buffers of these cells, four for each.
fn add_entries(cells: &[u16], entries: &mut ArrayVec<Entry, 16>)
    requires { length cells.now + 4 * array_vec_len entries.old ≤ 64 }
    ensures entries { (es : List EntrySeen) → cells.now ≡ flat_map entry_cells es → entries.new.items ≡ entries.old.items ++ es }
    ensures count { (n : ℕ) → length cells.now ≡ 4 * n → array_vec_len entries.new ≡ array_vec_len entries.old + n }
{
    let [slot, has_block, block, updated, rest @ ..] = cells else {
        return;
    };
    entries.push(Entry {
        slot: usize::from(*slot),
        block: marked(*has_block, *block),
        updated: *updated == 1,
    });
    add_entries(rest, entries);
}

/// The buffers of so many, if there are such.
fn buffers_in(cells: &[u16], _count: u16) -> Option<Buffers>
    requires size { length cells.now ≡ 4 * _count }
    requires few { _count ≤ 16 }
    ensures some { IfSome result (λ b. (es : List EntrySeen) → cells.now ≡ flat_map entry_cells es → b ≡ es) }
    ensures sound { IfSome result (λ b. AreBuffers b) }
    ensures count { IfSome result (λ b. length b ≡ _count) }
    ensures none { IfNone result ((es : List EntrySeen) → AreBuffers es → cells.now ≢ flat_map entry_cells es) }
{
    let mut entries = ArrayVec::new();
    add_entries(cells, &mut entries);
    match Buffers::from_entries(entries.as_slice()) {
        Some(buffers) => Some(buffers),
        None => None,
    }
}

/// The registers that these numbers and cells may be.
fn contents_in(front: Front, rest: &[u16], count: u16) -> Option<Registers>
    requires values { front.values ≤ 256 }
    requires returns { front.returns ≤ 256 }
    requires few { count ≤ 16 }
    requires size { length rest.now ≡ front.values + front.returns + 4 * count }
    ensures some { IfSome result (λ r. (t : State) → front_cells front ++ rest.now ≡ register_cells t → r ≡ registers_of t) }
    ensures sound { IfSome result (λ r. AreBuffers r.buffers) }
    ensures count { IfSome result (λ r. length r.buffers ≡ count) }
    ensures none { IfNone result ((t : State) → IsMachine t → front_cells front ++ rest.now ≢ register_cells t) }
{
    let (values, returns, entries) = parts_of(rest, front.values, front.returns);
    let Some(buffers) = buffers_in(entries, count) else {
        return None;
    };
    Some(Registers {
        values: stack_in(values),
        returns: stack_in(returns),
        ip: front.ip,
        pending: marked(front.has_pending, front.pending),
        buffers,
        wait: wait_of(front.asks, front.asked, front.token),
        halt: halt_of(front.halts, front.fault),
    })
}

/// The registers of a machine of so many buffers that these cells may be.
fn registers_in(cells: &[u16], count: u16) -> Option<Registers>
    requires { count ≤ 16 }
    ensures some { IfSome result (λ r. (t : State) → cells.now ≡ register_cells t → r ≡ registers_of t) }
    ensures sound { IfSome result (λ r. AreBuffers r.buffers) }
    ensures count { IfSome result (λ r. length r.buffers ≡ count) }
    ensures none { IfNone result ((t : State) → IsMachine t → length t.parts.buffers ≡ count → cells.now ≢ register_cells t) }
{
    let Some(front) = front_in(cells) else {
        return None;
    };
    if has_sizes(front, cells.len(), count) {
        return contents_in(front, &cells[11..], count);
    }
    None
}

/// Whether these cells are the registers of a machine.
fn are_registers(machine: &LentMachine, cells: &[u16]) -> bool
    ensures yes { IsTrue result → cells.now ≡ register_cells machine.now }
    ensures no { IsFalse result → cells.now ≢ register_cells machine.now }
    ensures machine { IsMachine machine.now }
{
    let _values = machine.values().depth();
    let _returns = machine.returns().depth();
    let _entries = machine.buffers().entries();
    register_cells(machine).as_slice() == cells
}

/// Puts the machine back whose registers these bytes are, over the same memory and device, and answers whether there is one. If there is none,
/// nothing changes.
pub fn put_back(machine: &mut LentMachine, body: &[u8]) -> bool
    ensures yes { IsTrue result → IsPutBack machine.old body.now machine.new }
    ensures no { IsFalse result → (t : State) → IsPutBack machine.old body.now t → ⊥ }
    ensures stays { IsFalse result → machine.new ≡ machine.old }
{
    let Some(cells) = cells_in(body) else {
        return false;
    };
    let Some(registers) = registers_in(cells.as_slice(), machine.buffers().count()) else {
        return false;
    };
    let own = machine.replace_registers(registers);
    if are_registers(machine, cells.as_slice()) {
        return true;
    }
    machine.replace_registers(own);
    false
}
