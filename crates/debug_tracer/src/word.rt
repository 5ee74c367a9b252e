//! The word that is traced, and the names of its tokens.

ghost use Rattle.std.specs.Prelude.{◌≡◌, Ok, IfOk, IfErr};
ghost use Rattle.memory.specs.Mirrored.{stored};
ghost use Rattle.dictionary.specs.Order.{headers};
ghost use Rattle.dictionary.specs.Search.{Found};
ghost use Rattle.debug_tracer.specs.Debugged.{debugged, thread_of, thread_or_fault, IsFault};

use crate::fault::DebugFault;
use crate::lines::send_line;
use dictionary::code_fields::COLON;
use dictionary::{
    ChainTooLong, HeaderList, HeadersFault, compilation_address, extent_end, headers_in_order,
    search,
};
use inner_interpreter::{EndFault, Extent, LentMachine, Output, Tracer};
use memory::{Memory, OutOfMemory};
use std::alloc::Global;

/// The thread of the word that is traced, and memory as it was at the start, with its headers: tokens are named by these.
#[derive(Drop)]
pub struct Word {
    pub thread: Extent,
    pub memory: Box<Memory>,
    pub headers: Vec<u16>,
}

impl Tracer for Word {
    ghost use Rattle.debug_tracer.specs.Lines.{line};
    ghost use Rattle.memory.specs.Mirrored.{stored};

    ghost extent = { λ w. w.thread };

    ghost line = { λ w s. line (stored w.memory.value) w.headers.items s };

    fn extent(&self) -> Extent {
        self.thread
    }

    fn trace<T: Output>(&self, machine: &LentMachine, trace: &mut T) -> Result<(), EndFault> {
        send_line(&self.memory, self.headers.as_slice(), machine, trace)
    }
}

/// A copy of memory.
#[tactic(auto, using(crate::proofs::Words::front_all))]
fn copied(alloc: Global, memory: &Memory) -> Result<Box<Memory>, OutOfMemory>
    ensures { IfOk result (λ copy. stored copy.value ≡ stored memory.now) }
{
    Memory::with_front(alloc, memory.as_slice())
}

/// Where the thread is of the word whose header is at `l`.
#[tactic(auto, unfolding(crate::specs::Debugged::thread_of))]
fn thread_of(memory: &Memory, listed: &[u16], l: u16) -> Extent
    requires { listed.now ≡ headers (stored memory.now) }
    ensures { result ≡ thread_of (stored memory.now) l }
{
    let from = compilation_address(memory, l).wrapping_add(2);
    Extent {
        from,
        end: extent_end(memory, listed, from),
    }
}

/// The word whose header is at `l`, and what its trace needs.
fn taken(alloc: Global, memory: &Memory, listed: Vec<u16>, l: u16) -> Result<Word, OutOfMemory>
    requires { listed.items ≡ headers (stored memory.now) }
    ensures thread { IfOk result (λ word. word.thread ≡ thread_of (stored memory.now) l) }
    ensures memory { IfOk result (λ word. stored word.memory.value ≡ stored memory.now) }
    ensures headers { IfOk result (λ word. word.headers.items ≡ headers (stored memory.now)) }
{
    let copy = copied(alloc, memory)?;
    Ok(Word {
        thread: thread_of(memory, listed.as_slice(), l),
        memory: copy,
        headers: listed,
    })
}

/// The word whose header is at `l`, if it can be traced.
fn colon_word(alloc: Global, memory: &Memory, l: u16) -> Result<Word, DebugFault>
    ensures thread { IfOk result (λ word. thread_or_fault (stored memory.now) (Found l) ≡ Ok word.thread) }
    ensures memory { IfOk result (λ word. stored word.memory.value ≡ stored memory.now) }
    ensures headers { IfOk result (λ word. word.headers.items ≡ headers (stored memory.now)) }
    ensures refused { IfErr result (λ fault. IsFault (thread_or_fault (stored memory.now) (Found l)) fault) }
{
    let listed = headers_in_order(alloc, memory);
    if let Err(HeadersFault::ChainTooLong) = listed {
        return Err(DebugFault::ChainTooLong);
    }
    if memory.cell(compilation_address(memory, l)) != COLON {
        return Err(DebugFault::NotColon);
    }
    let Ok(found) = listed else {
        return Err(DebugFault::OutOfMemory);
    };
    match taken(alloc, memory, found, l) {
        Ok(word) => Ok(word),
        Err(OutOfMemory) => Err(DebugFault::OutOfMemory),
    }
}

/// The word that a name means, if it can be traced.
#[tactic(auto, unfolding(crate::specs::Debugged::debugged))]
pub fn word_of(alloc: Global, memory: &Memory, name: &[u8]) -> Result<Word, DebugFault>
    ensures thread { IfOk result (λ word. debugged (stored memory.now) name.now ≡ Ok word.thread) }
    ensures memory { IfOk result (λ word. stored word.memory.value ≡ stored memory.now) }
    ensures headers { IfOk result (λ word. word.headers.items ≡ headers (stored memory.now)) }
    ensures refused { IfErr result (λ fault. IsFault (debugged (stored memory.now) name.now) fault) }
{
    match search(memory, name) {
        Ok(Some(l)) => colon_word(alloc, memory, l),
        Ok(None) => Err(DebugFault::NotFound),
        Err(ChainTooLong) => Err(DebugFault::ChainTooLong),
    }
}

/// Where the thread is of the word whose header is at `l`, if it can be traced.
fn extent_at(list: &mut HeaderList, memory: &Memory, l: u16) -> Result<Extent, DebugFault>
    ensures { result ≡ thread_or_fault (stored memory.now) (Found l) }
{
    match list.fill(memory) {
        Ok(()) => {}
        Err(ChainTooLong) => return Err(DebugFault::ChainTooLong),
    }
    if memory.cell(compilation_address(memory, l)) != COLON {
        return Err(DebugFault::NotColon);
    }
    Ok(thread_of(memory, list.as_slice(), l))
}

/// Where the thread is of the word that a name means, if it can be traced. `list` is room for the headers.
#[tactic(auto, unfolding(crate::specs::Debugged::debugged))]
pub fn extent_in(list: &mut HeaderList, memory: &Memory, name: &[u8]) -> Result<Extent, DebugFault>
    ensures { result ≡ debugged (stored memory.now) name.now }
{
    match search(memory, name) {
        Ok(Some(l)) => extent_at(list, memory, l),
        Ok(None) => Err(DebugFault::NotFound),
        Err(ChainTooLong) => Err(DebugFault::ChainTooLong),
    }
}
