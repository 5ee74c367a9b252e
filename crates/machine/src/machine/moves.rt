//! Moves of a machine over memory that it is lent: memory comes back with what a move came to.

ghost use Rattle.std.specs.Prelude.{◌≡◌, ◌≤◌, ◌<◌, None, true};
ghost use Rattle.block_buffers.specs.Entries.{limit};
ghost use Rattle.memory.specs.Mirrored.{stored};
ghost use Rattle.name_index.specs.Index.{Holds};
ghost use Rattle.machine.specs.Answer.{answer_of, asked_by, is_answer, seen, IsSpelled};
ghost use Rattle.machine.specs.Registers.{state_of};
ghost use Rattle.machine.specs.Tick.{Runs, ran, ticked};

use crate::act::{Act, Answer};
use crate::lent_machine::LentMachine;
use crate::rest::{Parted, Rest, over, part};
use memory::Memory;
use name_index::NameIndex;
use std::alloc::Global;
use std::mem::replace;

/// What a tick or an answer came to.
#[derive(Drop)]
struct Moved<'m> {
    memory: &'m mut Memory,
    act: Act,
}

/// What ticks came to, and how many they were.
#[derive(Drop)]
struct Gone<'m> {
    memory: &'m mut Memory,
    count: u64,
    act: Act,
}

/// A tick of the machine of lent memory and all else, which runs.
fn tick_by<'m>(
    alloc: Global,
    memory: &'m mut Memory,
    rest: &mut Rest,
    index: &mut NameIndex,
) -> Moved<'m>
    requires holds { Holds (limit rest.old.registers.buffers) index.old (stored memory.now) }
    requires runs { Runs (state_of (stored memory.now) rest.old) }
    ensures same { result.memory.ghost_name ≡ memory.entry.ghost_name }
    ensures holds { Holds (limit rest.new.registers.buffers) index.new (stored result.memory.now) }
    ensures ticked { (state_of (stored result.memory.now) rest.new, result.act)
        ≡ ticked (state_of (stored memory.entry.now) rest.old).parts }
{
    let own = replace(rest, Rest::blank());
    let mut machine = over(memory, own, replace(index, NameIndex::new(alloc)));
    let act = machine.step();
    let Parted {
        memory,
        rest: left,
        index: table,
    } = part(machine);
    *rest = left;
    *index = table;
    Moved { memory, act }
}

/// Up to `n` ticks of the machine of lent memory and all else, which runs.
fn ticks_by<'m>(
    alloc: Global,
    memory: &'m mut Memory,
    rest: &mut Rest,
    index: &mut NameIndex,
    n: u64,
) -> Gone<'m>
    requires holds { Holds (limit rest.old.registers.buffers) index.old (stored memory.now) }
    requires runs { Runs (state_of (stored memory.now) rest.old) }
    ensures same { result.memory.ghost_name ≡ memory.entry.ghost_name }
    ensures holds { Holds (limit rest.new.registers.buffers) index.new (stored result.memory.now) }
    ensures ran { (result.count, state_of (stored result.memory.now) rest.new, result.act)
        ≡ ran 0 n (state_of (stored memory.entry.now) rest.old).parts }
    ensures some { 0 < n → 0 < result.count }
    ensures most { result.count ≤ n }
{
    let own = replace(rest, Rest::blank());
    let mut machine = over(memory, own, replace(index, NameIndex::new(alloc)));
    let made = machine.ticks_running(n);
    let Parted {
        memory,
        rest: left,
        index: table,
    } = part(machine);
    *rest = left;
    *index = table;
    Gone {
        memory,
        count: made.count,
        act: made.act,
    }
}

/// What an answer comes to that the machine of lent memory and all else takes.
fn answer_by<'m>(
    alloc: Global,
    memory: &'m mut Memory,
    rest: &mut Rest,
    index: &mut NameIndex,
    answer: Answer<'_>,
) -> Moved<'m>
    requires holds { Holds (limit rest.old.registers.buffers) index.old (stored memory.now) }
    requires goes { rest.old.registers.halt ≡ None }
    requires fits { is_answer (asked_by rest.old.registers.wait) (seen answer) ≡ true }
    ensures same { result.memory.ghost_name ≡ memory.entry.ghost_name }
    ensures holds { Holds (limit rest.new.registers.buffers) index.new (stored result.memory.now) }
    ensures answered { (state_of (stored result.memory.now) rest.new, result.act)
        ≡ answer_of (state_of (stored memory.entry.now) rest.old) (seen answer.entry) }
    ensures spelled { IsSpelled (seen answer.entry) }
    ensures settled { rest.new.registers.wait ≡ None }
{
    let own = replace(rest, Rest::blank());
    let mut machine = over(memory, own, replace(index, NameIndex::new(alloc)));
    let act = machine.answer(answer).unwrap();
    let Parted {
        memory,
        rest: left,
        index: table,
    } = part(machine);
    *rest = left;
    *index = table;
    Moved { memory, act }
}

/// A tick of the machine of this memory and all else, which runs.
pub fn tick_in(alloc: Global, memory: &mut Memory, rest: &mut Rest, index: &mut NameIndex) -> Act
    requires holds { Holds (limit rest.old.registers.buffers) index.old (stored memory.old) }
    requires runs { Runs (state_of (stored memory.old) rest.old) }
    ensures holds { Holds (limit rest.new.registers.buffers) index.new (stored memory.new) }
    ensures ticked { (state_of (stored memory.new) rest.new, result) ≡ ticked (state_of (stored memory.old) rest.old).parts }
{
    let moved = tick_by(alloc, memory, rest, index);
    moved.act
}

/// Up to `n` ticks of the machine of this memory and all else, which runs: how many, and the last one's act.
pub fn ticks_in(
    alloc: Global,
    memory: &mut Memory,
    rest: &mut Rest,
    index: &mut NameIndex,
    n: u64,
) -> (u64, Act)
    requires holds { Holds (limit rest.old.registers.buffers) index.old (stored memory.old) }
    requires runs { Runs (state_of (stored memory.old) rest.old) }
    ensures holds { Holds (limit rest.new.registers.buffers) index.new (stored memory.new) }
    ensures ran { (result.0, state_of (stored memory.new) rest.new, result.1)
        ≡ ran 0 n (state_of (stored memory.old) rest.old).parts }
    ensures some { 0 < n → 0 < result.0 }
    ensures most { result.0 ≤ n }
{
    let gone = ticks_by(alloc, memory, rest, index, n);
    (gone.count, gone.act)
}

/// What an answer comes to that the machine of this memory and all else takes.
pub fn answer_in(
    alloc: Global,
    memory: &mut Memory,
    rest: &mut Rest,
    index: &mut NameIndex,
    answer: Answer<'_>,
) -> Act
    requires holds { Holds (limit rest.old.registers.buffers) index.old (stored memory.old) }
    requires goes { rest.old.registers.halt ≡ None }
    requires fits { is_answer (asked_by rest.old.registers.wait) (seen answer) ≡ true }
    ensures holds { Holds (limit rest.new.registers.buffers) index.new (stored memory.new) }
    ensures answered { (state_of (stored memory.new) rest.new, result)
        ≡ answer_of (state_of (stored memory.old) rest.old) (seen answer.entry) }
    ensures spelled { IsSpelled (seen answer.entry) }
    ensures settled { rest.new.registers.wait ≡ None }
{
    let moved = answer_by(alloc, memory, rest, index, answer);
    moved.act
}
