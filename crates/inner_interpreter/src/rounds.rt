//! The rounds of a run.

ghost use Rattle.std.specs.Prelude.{◌≡◌, ◌≤◌, ◌<◌, ◌-◌, ℕ, List, [], Some, None, true, vec_capacity, OnOk, OnErr, IsErrOf};
ghost use Rattle.std.specs.Io.KnownBytes.{Appends, Keeps};
ghost use Rattle.machine.specs.Answer.{InputFault, asked_by, is_answer};
ghost use Rattle.inner_interpreter.specs.Ends.{Marks};
ghost use Rattle.inner_interpreter.specs.Lines.{IsLeft};
ghost use Rattle.inner_interpreter.specs.Moves.{HasMoved, logs};
ghost use Rattle.inner_interpreter.specs.Runs.{World};
ghost use Rattle.inner_interpreter.specs.Sent.{AppendsPart};
ghost use Rattle.inner_interpreter.specs.Served.{AnswersAndSends, Faults, HasNotFailed};
ghost use Rattle.inner_interpreter.specs.Tracing.{AddsFirst, Reached, ReachedCut};
ghost use Rattle.inner_interpreter.specs.Failing.{sends_all};
ghost use Rattle.inner_interpreter.specs.Worlds.{IsAt, IsFaulted, rounds_left};

use crate::ends::{EndFault, Input, Output};
use crate::replies::settle;
use crate::sends::show;
use block_buffers::Device;
use machine::{Extent, LentMachine};
use machine_parts::parts::Request;
use thiserror::Error;

/// Which end failed.
#[derive(Clone, Copy, Debug, PartialEq, Eq, Error)]
pub enum Failed {
    #[error("the reader failed")]
    Reader,
    #[error("the writer failed")]
    Writer,
}

/// An answer, and what it shows.
fn make_answer<R: Input, W: Output, D: Device>(
    line: &mut Vec<u8>,
    machine: &mut LentMachine,
    reader: &mut R,
    writer: &mut W,
    device: &mut D,
    request: Request,
) -> Result<(), Failed>
    requires waits { asked_by machine.old.wait ≡ Some request }
    requires goes { machine.old.halt ≡ None }
    requires room { 65535 ≤ vec_capacity line.old }
    requires passed { is_answer (Some request) InputFault ≡ true → W.passed writer.old ≡ true }
    ensures settled { machine.new.wait ≡ None }
    ensures room { 65535 ≤ vec_capacity line.new }
    ensures moved { HasMoved machine.old machine.new (logs (D.calls device.old) (W.sent writer.old) (R.reads reader.old))
        (logs (D.calls device.new) (W.sent writer.new) (R.reads reader.new)) (sends_all result) [] 0 }
    ensures ok { OnOk result (AnswersAndSends machine.old request (R.unread reader.old) (D.disk device.old)
        machine.new (R.unread reader.new) (D.disk device.new) (Appends (W.sent writer.old) (W.sent writer.new))) }
    ensures cut { IsErrOf result Failed.Writer → AnswersAndSends machine.old request (R.unread reader.old)
        (D.disk device.old) machine.new (R.unread reader.new) (D.disk device.new)
        (AppendsPart (W.sent writer.old) (W.sent writer.new)) }
    ensures left { IsErrOf result Failed.Reader → (typed : List ℕ) → R.unread reader.old ≡ Some typed →
        IsLeft (Some request) typed (R.unread reader.new) }
    ensures faulted { IsErrOf result Failed.Reader →
        Faults machine.old machine.new × (D.disk device.new ≡ D.disk device.old) ×
        (W.sent writer.new ≡ W.sent writer.old) }
    ensures reader { IsErrOf result Failed.Reader →
        (R.failed reader.new ≡ true) × (W.failed writer.new ≡ W.failed writer.old) }
    ensures writer { IsErrOf result Failed.Writer →
        (W.failed writer.new ≡ true) × (R.failed reader.new ≡ R.failed reader.old) }
    ensures passed { IsErrOf result Failed.Reader → W.passed writer.new ≡ true }
    ensures good { OnOk result ((R.failed reader.new ≡ R.failed reader.old) × (W.failed writer.new ≡ W.failed writer.old)) }
    ensures read { OnOk result (HasNotFailed machine.new) }
{
    match settle(line, machine, reader, device, request) {
        Ok(act) => match show(machine, writer, act.shown) {
            Ok(()) => Ok(()),
            Err(_) => Err(Failed::Writer),
        },
        Err(_) => Err(Failed::Reader),
    }
}

/// What was shown so far is passed on before the program waits for typed bytes.
fn flush_before<W: Output>(writer: &mut W, request: Request) -> Result<(), EndFault>
    ensures bytes { Keeps (W.sent writer.old) (W.sent writer.new) }
    ensures asked { OnErr result (is_answer (Some request) InputFault ≡ true) }
    ensures passed { OnOk result (is_answer (Some request) InputFault ≡ true → W.passed writer.new ≡ true) }
    ensures mark { Marks (W.failed writer.old) (W.failed writer.new) result }
{
    match request {
        Request::Key | Request::Line { n: _ } => writer.flush(),
        _ => Ok(()),
    }
}

/// A request is answered, else ticks are made up to the first that isn't quiet, or after which a token of the extent comes
/// next; and what that shows is sent.
#[tactic(auto, using(crate::proofs::Running::asked_none))]
pub fn make_rounds<R: Input, W: Output, D: Device>(
    line: &mut Vec<u8>,
    machine: &mut LentMachine,
    reader: &mut R,
    writer: &mut W,
    device: &mut D,
    extent: Extent,
    left: &mut u64,
) -> Result<(), Failed>
    requires goes { machine.old.halt ≡ None }
    requires some { 0 < left.old }
    requires room { 65535 ≤ vec_capacity line.old }
    ensures room { 65535 ≤ vec_capacity line.new }
    ensures fewer { OnOk result (rounds_left left.new machine.new.wait < rounds_left left.old machine.old.wait) }
    ensures moved { HasMoved machine.old machine.new (logs (D.calls device.old) (W.sent writer.old) (R.reads reader.old))
        (logs (D.calls device.new) (W.sent writer.new) (R.reads reader.new)) (sends_all result) [] (left.old - left.new) }
    ensures left { left.new ≤ left.old }
    ensures lines { AddsFirst extent machine.old (left.old - left.new) }
    ensures read { OnOk result (HasNotFailed machine.new) }
    ensures ok { OnOk result ((w : World) → IsAt w machine.old (R.unread reader.old) (D.disk device.old)
        (W.sent writer.old) left.old → Reached extent w machine.new (R.unread reader.new) (D.disk device.new)
        (W.sent writer.new) left.new) }
    ensures cut { IsErrOf result Failed.Writer → (w : World) →
        IsAt w machine.old (R.unread reader.old) (D.disk device.old) (W.sent writer.old) left.old →
        ReachedCut extent w machine.new (R.unread reader.new) (D.disk device.new) (W.sent writer.new) }
    ensures faulted { IsErrOf result Failed.Reader → (w : World) →
        IsAt w machine.old (R.unread reader.old) (D.disk device.old) (W.sent writer.old) left.old →
        IsFaulted w machine.new (R.unread reader.new) (D.disk device.new) (W.sent writer.new) }
    ensures reader { IsErrOf result Failed.Reader →
        (R.failed reader.new ≡ true) × (W.failed writer.new ≡ W.failed writer.old) }
    ensures passed { IsErrOf result Failed.Reader → W.passed writer.new ≡ true }
    ensures writer { IsErrOf result Failed.Writer →
        (W.failed writer.new ≡ true) × (R.failed reader.new ≡ R.failed reader.old) }
    ensures good { OnOk result ((R.failed reader.new ≡ R.failed reader.old) × (W.failed writer.new ≡ W.failed writer.old)) }
{
    match machine.asked() {
        None => {
            let made = machine.ticks_onward(*left, extent);
            *left -= made.count;
            match show(machine, writer, made.act.shown) {
                Ok(()) => Ok(()),
                Err(_) => Err(Failed::Writer),
            }
        }
        Some(request) => match flush_before(writer, request) {
            Ok(()) => make_answer(line, machine, reader, writer, device, request),
            Err(_) => Err(Failed::Writer),
        },
    }
}
