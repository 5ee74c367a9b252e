//! A run: ticks, and the device's answers between them.

ghost use Rattle.std.specs.Prelude.{◌≡◌, true, false, ℕ, List, Option, Some, None, IsTrue, OnErr, OnOk};
ghost use Rattle.inner_interpreter.specs.Served.{HasActed};
ghost use Rattle.inner_interpreter.specs.Ends.{Marks};
ghost use Rattle.serving.specs.Running.{IsAsking, is_fault, next_if_asked, next_of};
ghost use Rattle.serving.specs.Room.{SendsFew, move_room};
ghost use Rattle.serving.specs.Served.{HasObeyed};
ghost use Rattle.serving.specs.Requests.{Run};

use crate::frames::{show, shown_len};
use crate::replies::end;
use block_buffers::Device;
use inner_interpreter::{Act, EndFault, Event, LentMachine, Output, answer_read, answer_write};
use machine_parts::parts::Request;

/// What comes next in a run.
#[derive(Clone, Copy, Debug, PartialEq, Eq)]
pub enum Next {
    /// A tick.
    Ticks,
    /// The device's answer to this request for a block that it has.
    Answers(Request),
    /// Nothing: the run ends.
    Ends,
}

/// Whether a fault was taken that a fault thread handles.
fn is_fault(event: Event) -> bool
    ensures { result ≡ is_fault event }
{
    match event {
        Event::Fault(_) => true,
        _ => false,
    }
}

/// What comes next while the machine asks.
fn next_if_asked(count: u32, request: Request) -> Next
    ensures { result ≡ next_if_asked count request }
{
    match request {
        Request::Read { block } | Request::Write { block } if u32::from(block) < count => {
            Next::Answers(request)
        }
        _ => Next::Ends,
    }
}

/// What comes next in a run of at most `limit` ticks over a device of so many blocks, after an act of this event, so many ticks
/// and so many shown bytes.
#[tactic(auto, unfolding(crate::specs::Running::next_of))]
fn next_of(
    machine: &LentMachine,
    count: u32,
    limit: u32,
    event: Event,
    done: u32,
    shown: u32,
) -> Next
    ensures { result ≡ next_of count limit machine.now event done shown }
{
    if is_fault(event) || machine.halted().is_some() {
        return Next::Ends;
    }
    match machine.asked() {
        Some(request) => next_if_asked(count, request),
        None if limit <= done || 2048 <= shown => Next::Ends,
        None => Next::Ticks,
    }
}

/// Answers what is asked, by the device.
fn answer_asked<D: Device>(machine: &mut LentMachine, device: &mut D, request: Request) -> Act
    requires { IsAsking machine.old request }
    ensures acted { (reads : List (Option ℕ)) → HasActed machine.old machine.new (D.calls device.old) (D.calls device.new) reads reads result }
    ensures settled { machine.new.wait ≡ None }
{
    match request {
        Request::Read { block } => answer_read(machine, device, block),
        Request::Write { block } => answer_write(machine, device, block),
        Request::Key | Request::Line { n: _ } => unreachable!(),
    }
}

/// At most `limit` ticks, with the answers of a device of `count` blocks between them, up to what it cannot answer, a fault or a halt. It ends before
/// a tick if 2,048 bytes or more were shown.
pub fn run<W: Output, D: Device>(
    machine: &mut LentMachine,
    device: &mut D,
    count: u32,
    limit: u32,
    writer: &mut W,
) -> Result<(), EndFault>
    ensures ok { OnOk result (HasObeyed count (Run limit) true machine.old machine.new (D.calls device.old)
        (D.calls device.new) (W.sent writer.old) (W.sent writer.new)) }
    ensures err { OnErr result (HasObeyed count (Run limit) false machine.old machine.new (D.calls device.old)
        (D.calls device.new) (W.sent writer.old) (W.sent writer.new)) }
    ensures room { OnOk result (SendsFew move_room (W.sent writer.old) (W.sent writer.new)) }
    ensures mark { Marks (W.failed writer.old) (W.failed writer.new) result }
{
    let mut event = Event::Went;
    let mut done: u32 = 0;
    let mut shown: u32 = 0;
    'moves: loop {
        match next_of(machine, count, limit, event, done, shown) {
            Next::Ends => return end(machine, writer, done, event),
            Next::Answers(request) => event = answer_asked(machine, device, request).event,
            Next::Ticks => {
                let Ok((ticks, act)) = machine.ticks(u64::from(limit - done)) else {
                    unreachable!()
                };
                done += ticks as u32;
                event = act.event;
                shown += shown_len(machine, act.shown);
                match show(machine, writer, act.shown) {
                    Ok(()) => {}
                    Err(fault) => return Err(fault),
                }
            }
        }
    }
}
