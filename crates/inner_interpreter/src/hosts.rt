//! A list of moves that a host makes.

ghost use Rattle.std.specs.Prelude.{◌≡◌, ◌∷◌, ◌++◌, List, true, false, map, replicate, IfOk, OnErr};
ghost use Rattle.memory.specs.Bytes.{bytes};
ghost use Rattle.inner_interpreter.specs.Histories.{acted, made, takes, told_event};
ghost use Rattle.inner_interpreter.specs.Moves.{Turn, Tick, Enter, shown_bytes};
ghost use Rattle.inner_interpreter.specs.Hosts.{HasMade, IsMade, turn_of};

use crate::byte_log::ByteLog;
use crate::event_log::EventLog;
use machine::{Act, Answer, Event, LentMachine, Refused, Shown};
use machine_parts::parts::Span;

/// A move of a machine.
#[derive(Clone, Copy)]
pub enum Move<'a> {
    Tick,
    Answer(Answer<'a>),
    /// A word is entered.
    Enter(u16),
}

/// Enters a word, which shows nothing.
fn enter(machine: &mut LentMachine, word: u16) -> Result<Act, Refused>
    ensures taken { IfOk result (λ act. (takes machine.old (Enter word) ≡ true) ×
        ((machine.new, act) ≡ acted machine.old (Enter word))) }
    ensures left { OnErr result ((takes machine.old (Enter word) ≡ false) × (machine.new ≡ machine.old)) }
{
    match machine.enter(word) {
        Ok(()) => Ok(Act {
            shown: Shown::Nothing,
            event: Event::Went,
        }),
        Err(refused) => Err(refused),
    }
}

/// Makes a move, and answers its act. A move that the machine doesn't take changes nothing.
fn make_move(machine: &mut LentMachine, step: Move<'_>) -> Result<Act, Refused>
    ensures taken { IfOk result (λ act. (takes machine.old (turn_of step.entry) ≡ true) ×
        ((machine.new, act) ≡ acted machine.old (turn_of step.entry))) }
    ensures left { OnErr result ((takes machine.old (turn_of step.entry) ≡ false) × (machine.new ≡ machine.old)) }
{
    match step {
        Move::Tick => machine.tick(),
        Move::Answer(answer) => machine.answer(answer),
        Move::Enter(word) => enter(machine, word),
    }
}

/// Notes bytes of memory.
#[tactic(auto, using(crate::proofs::Making::noted_both))]
fn note_span(machine: &LentMachine, span: Span, shown: &mut ByteLog)
    ensures { shown.new.bytes ≡ shown.old.bytes ++ bytes machine.now.parts.memory span.at span.len }
{
    let (front, back) = machine.shown(span);
    let noted = ByteLog::grown(shown, front);
    *shown = ByteLog::grown(&noted, back);
}

/// Notes the bytes that a move showed.
#[tactic(auto, using(crate::proofs::Making::noted_both, crate::proofs::Making::noted_none), unfolding(crate::specs::Moves::shown_bytes))]
fn note_shown(machine: &LentMachine, move_shown: Shown, shown: &mut ByteLog)
    ensures { shown.new.bytes ≡ shown.old.bytes ++ shown_bytes machine.now.parts.memory move_shown }
{
    match move_shown {
        Shown::Nothing => {}
        Shown::Byte(byte) => *shown = ByteLog::grown(shown, &[byte]),
        Shown::Span(span) => note_span(machine, span, shown),
        Shown::Line(span) => {
            note_span(machine, span, shown);
            *shown = ByteLog::grown(shown, b" ");
        }
    }
}

/// Makes a move, if the machine takes it; what it shows is noted, and its event.
fn host_move(machine: &mut LentMachine, step: Move<'_>, shown: &mut ByteLog, events: &mut EventLog)
    ensures { (ts : List Turn) → HasMade machine.old (turn_of step.entry ∷ ts) machine.new ts
        shown.old.bytes shown.new.bytes events.old.events events.new.events }
{
    if let Ok(act) = make_move(machine, step) {
        note_shown(machine, act.shown, shown);
        *events = events.then(&act.event);
    }
}

/// Makes these moves, one after another. Those that the machine doesn't take change nothing; the bytes that the others show
/// are noted, joined, and their requests, faults and halts in order.
pub fn make_moves(
    machine: &mut LentMachine,
    moves: &[Move<'_>],
    shown: &mut ByteLog,
    events: &mut EventLog,
)
    ensures { IsMade (made machine.old (map turn_of moves.now)) machine.new shown.old.bytes shown.new.bytes
        events.old.events events.new.events }
{
    for step in moves {
        host_move(machine, *step, shown, events);
    }
}

/// Makes so many ticks, by as few calls as there are ticks that aren't quiet.
pub fn make_ticks(machine: &mut LentMachine, n: u64, shown: &mut ByteLog, events: &mut EventLog)
    ensures { IsMade (made machine.old (replicate n Tick)) machine.new shown.old.bytes shown.new.bytes
        events.old.events events.new.events }
{
    let mut left = n;
    while left > 0 {
        let Ok((count, act)) = machine.ticks(left) else {
            return;
        };
        left -= count;
        note_shown(machine, act.shown, shown);
        *events = events.then(&act.event);
    }
}
