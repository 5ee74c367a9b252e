//! Machines over memory that a record lends: they work in it as it lies there, and it comes back.

ghost use Rattle.std.specs.Prelude.{◌≡◌, ◌≤◌, ◌-◌, ℕ, List, length, drop, None, true, IfSome, IsSome};
ghost use Rattle.memory.specs.Mirrored.{stored};
ghost use Rattle.machine.specs.Answer.{answer_of, asked_by, is_answer, seen};
ghost use Rattle.name_index.specs.Index.{Holds};
ghost use Rattle.forth83_c.specs.Driven.{EndsAt, HasDriven};
ghost use Rattle.serving.specs.Requests.{wish_of};
ghost use Rattle.serving.specs.Room.{may_move, move_room};
ghost use Rattle.machine.specs.Registers.{state_of};
ghost use Rattle.forth83_c.specs.Replied.{IsReplied};

use crate::driving::{Course, drive};
use crate::obeying::obey;
use crate::record::Forth83Faults;
use crate::replies::Replies;
use crate::stop::Stop;
use inner_interpreter::{Answer, Event};
use machine::{Parted, Rest, over, part};
use memory::Memory;
use name_index::NameIndex;
use serving::Command;
use std::alloc::Global;

/// What driving a machine answers: its memory comes back, with how far the call is and why it ended there.
#[derive(Drop)]
pub struct Driven<'m> {
    pub memory: &'m mut Memory,
    pub course: Course,
    pub stop: Stop,
}

/// Drives the machine of lent memory and all else, which is put into `left` as it is after that.
pub fn drive_lent<'m>(
    memory: &'m mut Memory,
    rest: Rest,
    left: &mut Option<Rest>,
    index: NameIndex,
    typed: &[u8],
    shown: &mut [u8],
    limit: u64,
    calling: bool,
    faults: Forth83Faults,
) -> Driven<'m>
    requires { (limit : ℕ) (m : List ℕ) → Holds limit index m }
    ensures same { result.memory.ghost_name ≡ memory.entry.ghost_name }
    ensures driven { IfSome left.new (λ own. HasDriven calling faults (state_of (stored memory.entry.now) rest) typed.now limit
        (state_of (stored result.memory.now) own) result.course shown.new result.stop) }
    ensures stopped { IfSome left.new (λ own. EndsAt calling result.stop
        (state_of (stored result.memory.now) own) typed.now result.course shown.new) }
    ensures whole { IsSome left.new }
    ensures left { result.course.left ≤ limit }
    ensures read { result.course.read ≤ length typed.now }
    ensures beyond { drop result.course.shown shown.new ≡ drop result.course.shown shown.old }
    ensures shown { result.course.shown ≤ length shown.new }
    ensures len { length shown.new ≡ length shown.old }
{
    let mut machine = over(memory, rest, index);
    let (course, stop) = drive(&mut machine, typed, shown, limit, calling, faults);
    let Parted {
        memory,
        rest: own,
        index: _,
    } = part(machine);
    *left = Some(own);
    Driven {
        memory,
        course,
        stop,
    }
}

/// What an answer comes to: memory comes back.
#[derive(Drop)]
pub struct Answered<'m> {
    pub memory: &'m mut Memory,
    pub event: Event,
}

/// Answers what the machine of lent memory and all else asks, by an answer that it takes; what it has then is put into `left`.
pub fn answer_lent<'m>(
    memory: &'m mut Memory,
    rest: Rest,
    left: &mut Option<Rest>,
    index: NameIndex,
    answer: Answer<'_>,
) -> Answered<'m>
    requires holds { (limit : ℕ) (m : List ℕ) → Holds limit index m }
    requires goes { rest.registers.halt ≡ None }
    requires fits { is_answer (asked_by rest.registers.wait) (seen answer) ≡ true }
    ensures same { result.memory.ghost_name ≡ memory.entry.ghost_name }
    ensures answered { IfSome left.new (λ own. state_of (stored result.memory.now) own
        ≡ (answer_of (state_of (stored memory.entry.now) rest) (seen answer.entry)).0) }
    ensures event { result.event
        ≡ (answer_of (state_of (stored memory.entry.now) rest) (seen answer.entry)).1.event }
    ensures whole { IsSome left.new }
{
    let mut machine = over(memory, rest, index);
    let act = machine.answer(answer).unwrap();
    let Parted {
        memory,
        rest: own,
        index: _,
    } = part(machine);
    *left = Some(own);
    Answered {
        memory,
        event: act.event,
    }
}

/// What a request of a server's host comes to: memory comes back, and the size of the reply.
#[derive(Drop)]
pub struct Obeyed<'m> {
    pub memory: &'m mut Memory,
    pub size: usize,
}

/// Obeys a request by the machine of lent memory and all else; what it has then is put into `left`, and the reply into the room.
pub fn obey_lent<'m>(
    alloc: Global,
    memory: &'m mut Memory,
    rest: Rest,
    left: &mut Option<Rest>,
    index: NameIndex,
    command: Command<'_>,
    room: &mut [u8],
) -> Obeyed<'m>
    requires { (limit : ℕ) (m : List ℕ) → Holds limit index m }
    ensures same { result.memory.ghost_name ≡ memory.entry.ghost_name }
    ensures replied { IfSome left.new (λ own. IsReplied (wish_of command.entry) (state_of (stored memory.entry.now) rest)
        (state_of (stored result.memory.now) own) room.old room.new result.size) }
    ensures room { may_move (wish_of command.entry) ≡ true → result.size ≤ move_room }
    ensures whole { IsSome left.new }
{
    let mut machine = over(memory, rest, index);
    let mut replies = Replies::new(room);
    obey(alloc, &mut machine, command, &mut replies);
    let size = replies.size;
    let Parted {
        memory,
        rest: own,
        index: _,
    } = part(machine);
    *left = Some(own);
    Obeyed { memory, size }
}
