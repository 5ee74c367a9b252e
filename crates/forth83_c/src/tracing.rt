//! DEBUG's line of a machine that is kept.

ghost use Rattle.std.specs.Prelude.{◌≡◌, ◌≢◌, ◌≤◌, ℕ, List, length, take, drop, IfOk};
ghost use Rattle.debug_tracer.specs.Lines.{line};
ghost use Rattle.memory.specs.Mirrored.{stored};
ghost use Rattle.forth83_c.specs.declared.status.Status.TheVariants as status;
ghost use Rattle.forth83_c.specs.Called.{Tells, TellsMachine, code_of};
ghost use Rattle.machine.specs.Registers.{state_of};
ghost use Rattle.forth83_c.specs.Looked.{HasTraced, WhyNotTraced};

use crate::kept::rest_of;
use crate::record::Forth83;
use crate::showing::put;
use crate::status::Status;
use crate::text::Text;
use debug_tracer::send_line;
use dictionary::{HeadersFault, headers_in_order};
use machine::{Rest, over};
use memory::{Memory, OutOfMemory};
use name_index::NameIndex;
use std::alloc::Global;

/// A copy of memory.
#[tactic(auto, using(debug_tracer::proofs::Words::front_all))]
fn copied(alloc: Global, memory: &Memory) -> Result<Box<Memory>, OutOfMemory>
    ensures { IfOk result (λ copy. stored copy.value ≡ stored memory.now) }
{
    Memory::with_front(alloc, memory.as_slice())
}

/// The line of the machine of this memory and the rest.
fn line_of(alloc: Global, memory: &Memory, rest: Rest, headers: &[u16]) -> Result<Text, OutOfMemory>
    ensures { IfOk result (λ text. text.bytes.items ≡ line (stored memory.now) headers.now (state_of (stored memory.now) rest).parts) }
{
    let mut copy = copied(alloc, memory)?;
    let machine = over(&mut copy, rest, NameIndex::new(alloc));
    let mut text = Text::new(alloc);
    match send_line(memory, headers, &machine, &mut text) {
        Ok(()) => Ok(text),
        Err(_) => Err(OutOfMemory),
    }
}

/// Puts DEBUG's line of the tick that comes next into `text`, and how many bytes it has into `size`.
pub fn trace_line(alloc: Global, kept: &Forth83, text: &mut [u8], size: &mut usize) -> Status
    ensures traced { result ≡ status.Done → HasTraced kept.now (take size.new text.new) }
    ensures fits { result ≡ status.Done → size.new ≤ length text.new }
    ensures beyond { result ≡ status.Done → drop size.new text.new ≡ drop size.new text.old }
    ensures no_machine { TellsMachine kept.now (code_of result) }
    ensures why { Tells (WhyNotTraced (length text.old)) kept.now result }
    ensures stays { result ≢ status.Done → text.new ≡ text.old }
    ensures untold { result ≢ status.Done → size.new ≡ size.old }
{
    let Some(rest) = rest_of(kept) else {
        return Status::NoMachine;
    };
    let found = match headers_in_order(alloc, &kept.memory) {
        Ok(found) => found,
        Err(HeadersFault::ChainTooLong) => return Status::ChainTooLong,
        Err(HeadersFault::OutOfMemory) => return Status::OutOfMemory,
    };
    let Ok(line) = line_of(alloc, &kept.memory, rest, found.as_slice()) else {
        return Status::OutOfMemory;
    };
    if text.len() < line.bytes.len() {
        return Status::ShortRoom;
    }
    *size = put(text, 0, line.bytes.as_slice());
    Status::Done
}
