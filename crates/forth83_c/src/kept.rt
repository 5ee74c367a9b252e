//! All of a machine but its memory out of its record, and back.

ghost use Rattle.std.specs.Prelude.{◌≡◌, [], ◌≤◌, ◌↔◌, length, map, take, true, MatchOption, IsTrue, slice_range};
ghost use Rattle.std.specs.List.{list_all, list_any};
ghost use Rattle.block_buffers.specs.Entries.{AreBuffers, is_in};
ghost use Rattle.block_buffers.specs.Tests.{can_stand, slots_differ};
ghost use Rattle.memory.specs.Mirrored.{stored};
ghost use Rattle.machine.specs.Registers.{marked, wait_of, halt_of, state_of};
ghost use Rattle.forth83_c.specs.Kept.{entry_of, entries_of, has_marks, HasNumbers, IsAside, IsRecord, IsKept, SameBeside};

use crate::record::{Forth83, Forth83Aside, Forth83Buffer};
use arrayvec::ArrayVec;
use block_buffers::{Buffers, Entry};
use machine::{Registers, Rest, halt_numbers, halt_of, mark, marked, wait_numbers, wait_of};
use stacks::Stack;

/// The layout of records.
pub const ABI: u32 = 3;

fn entry_of(b: Forth83Buffer) -> Entry
    ensures { result ≡ entry_of b }
{
    Entry {
        slot: usize::from(b.slot),
        block: marked(b.has_block, b.block),
        updated: b.updated == 1,
    }
}

fn buffer_of(entry: Entry) -> Forth83Buffer
    requires { entry.slot ≤ 65535 }
    ensures entry { entry_of result ≡ entry }
    ensures marks { has_marks result ≡ true }
{
    let (has_block, block) = match entry.block {
        Some(block) => (1, block),
        None => (0, 0),
    };
    Forth83Buffer {
        slot: entry.slot as u16,
        has_block,
        block,
        updated: u16::from(entry.updated),
    }
}

/// The cells of a stack whose top is at a place.
fn stack_of(cells: &[u16; 257], top: u16) -> Stack
    requires { top ≤ 256 }
    ensures { result ≡ slice_range cells.now top 256 }
{
    Stack {
        cells: *cells,
        top: usize::from(top),
    }
}

/// Whether each number of what is kept aside is such as a machine's is.
fn is_aside(aside: &Forth83Aside) -> bool
    ensures { IsTrue result ↔ IsAside aside.now }
{
    aside.has_pending <= 1 && aside.asks <= 2 && aside.returns_top <= 256
}

/// Whether each number of a record is such as a machine's is.
fn has_numbers(kept: &Forth83) -> bool
    ensures { IsTrue result ↔ HasNumbers kept.now }
{
    let tops = kept.values_top <= 256 && kept.returns_top <= 256;
    let marks = kept.has_pending <= 1 && kept.asks <= 4 && kept.halts <= 4;
    let call = kept.is_called <= 1 && is_aside(&kept.aside);
    kept.abi == ABI && tops && marks && call && kept.buffer_count <= 16
}

/// Whether the marks of all these buffers are 0 or 1.
fn have_marks(buffers: &[Forth83Buffer]) -> bool
    ensures { result ≡ list_all has_marks buffers.now }
{
    buffers.iter().all(|b| b.has_block <= 1 && b.updated <= 1)
}

/// The entries that the buffers' records say.
fn entries_of(buffers: &[Forth83Buffer]) -> ArrayVec<Entry, 16>
    requires { length buffers.now ≤ 16 }
    ensures { result.items ≡ map entry_of buffers.now }
{
    let mut entries = ArrayVec::new();
    for buffer in buffers {
        entries.push(entry_of(*buffer));
    }
    entries
}

/// The buffers that a record keeps; `None` if it is no machine's.
fn buffers_of(kept: &Forth83) -> Option<Buffers>
    ensures { MatchOption result (¬ IsRecord kept.now)
        (λ b. IsRecord kept.now × (b ≡ entries_of kept.now.buffers kept.now.buffer_count)) }
{
    if !has_numbers(kept) {
        return None;
    }
    let buffers = &kept.buffers[..usize::from(kept.buffer_count)];
    if !have_marks(buffers) {
        return None;
    }
    let entries = entries_of(buffers);
    Buffers::from_entries(entries.as_slice())
}

/// Whether a buffer's record can be one of so many.
fn can_stand(buffer: &Forth83Buffer, count: usize) -> bool
    ensures { result ≡ can_stand count (entry_of buffer.now) }
{
    usize::from(buffer.slot) < count && (buffer.updated != 1 || buffer.has_block == 1)
}

/// Whether each of these records can be one of so many buffers.
fn can_all_stand(buffers: &[Forth83Buffer], count: usize) -> bool
    ensures { result ≡ list_all (can_stand count) (map entry_of buffers.now) }
{
    match buffers {
        [] => true,
        [buffer, rest @ ..] => can_stand(buffer, count) && can_all_stand(rest, count),
    }
}

/// Whether one of the records has the slot.
fn has_slot(buffers: &[Forth83Buffer], slot: u16) -> bool
    ensures { result ≡ list_any (is_in slot) (map entry_of buffers.now) }
{
    match buffers {
        [] => false,
        [buffer, rest @ ..] => buffer.slot == slot || has_slot(rest, slot),
    }
}

/// Whether no slot occurs twice.
#[tactic(auto, unfolding(block_buffers::specs::Tests::slots_differ))]
fn slots_differ(buffers: &[Forth83Buffer]) -> bool
    ensures { result ≡ slots_differ (map entry_of buffers.now) }
{
    match buffers {
        [] => true,
        [buffer, rest @ ..] => !has_slot(rest, buffer.slot) && slots_differ(rest),
    }
}

/// Whether these records are such as buffers are.
#[tactic(auto, using(crate::proofs::Standing::tested))]
fn are_buffers(buffers: &[Forth83Buffer]) -> bool
    ensures { IsTrue result ↔ AreBuffers (map entry_of buffers.now) }
{
    let count = buffers.len();
    (2 <= count && count <= 16) && (can_all_stand(buffers, count) && slots_differ(buffers))
}

/// Whether a record is a machine's.
pub fn is_record(kept: &Forth83) -> bool
    ensures { IsTrue result ↔ IsRecord kept.now }
{
    if !has_numbers(kept) {
        return false;
    }
    let buffers = &kept.buffers[..usize::from(kept.buffer_count)];
    have_marks(buffers) && are_buffers(buffers)
}

/// Keeps these buffers.
fn keep_buffers(buffers: &Buffers, kept: &mut [Forth83Buffer; 16])
    ensures entries { entries_of kept.new (length buffers.now) ≡ buffers.now }
    ensures marks { list_all has_marks (take (length buffers.now) kept.new) ≡ true }
    ensures sound { AreBuffers buffers.now }
{
    let entries = buffers.entries();
    for place in 0..entries.as_slice().len() {
        let entry = entries.as_slice()[place];
        kept[place] = buffer_of(entry);
    }
}

/// What a record keeps beside memory; `None` exactly if it keeps no machine.
pub fn rest_of(kept: &Forth83) -> Option<Rest>
    ensures { MatchOption result (¬ IsRecord kept.now) (λ r. IsKept kept.now (state_of (stored kept.now.memory) r)) }
{
    let buffers = buffers_of(kept)?;
    let registers = Registers {
        values: stack_of(&kept.values, kept.values_top),
        returns: stack_of(&kept.returns, kept.returns_top),
        ip: kept.ip,
        pending: marked(kept.has_pending, kept.pending),
        buffers,
        wait: wait_of(kept.asks, kept.asked, kept.token),
        halt: halt_of(kept.halts, kept.fault),
    };
    Some(Rest {
        registers,
        block_count: kept.block_count,
    })
}

/// Keeps a stack, and answers where its top is.
fn keep_stack(stack: Stack, cells: &mut [u16; 257]) -> u16
    ensures cells { stack ≡ slice_range cells.new result 256 }
    ensures most { result ≤ 256 }
{
    let Stack { cells: all, top } = stack;
    *cells = all;
    top as u16
}

/// Keeps all of a machine but its memory, which is left as it is.
pub fn keep(rest: Rest, kept: &mut Forth83)
    requires called { kept.old.is_called ≤ 1 }
    requires aside { IsAside kept.old.aside }
    ensures beside { SameBeside kept.old kept.new }
    ensures kept { IsKept kept.new (state_of (stored kept.old.memory) rest) }
    ensures memory { kept.new.memory ≡ kept.old.memory }
{
    let Rest {
        registers,
        block_count,
    } = rest;
    let Registers {
        values,
        returns,
        ip,
        pending,
        buffers,
        wait,
        halt,
    } = registers;
    keep_buffers(&buffers, &mut kept.buffers);
    let values_top = keep_stack(values, &mut kept.values);
    let returns_top = keep_stack(returns, &mut kept.returns);
    let (has_pending, pending) = mark(pending);
    let (asks, asked, token) = wait_numbers(wait);
    let (halts, fault) = halt_numbers(halt);
    kept.abi = ABI;
    kept.block_count = block_count;
    kept.ip = ip;
    kept.has_pending = has_pending;
    kept.pending = pending;
    kept.asks = asks;
    kept.asked = asked;
    kept.token = token;
    kept.halts = halts;
    kept.fault = fault;
    kept.values_top = values_top;
    kept.returns_top = returns_top;
    kept.buffer_count = buffers.count();
}
