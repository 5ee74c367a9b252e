//! Requests of a reader are served, one after another.

ghost use Rattle.std.specs.Prelude.{◌≤◌, ◌<◌, Bool, Option, Some, None, vec_capacity, length};
ghost use Rattle.serving.specs.Taking.{HasServed, HasServedFrame, HasServedNext, KeepsWriter, MarksReader, MarksWriter};

use crate::listing::Room;
use crate::obeying::obey;
use crate::requests::{command_of, is_quit};
use crate::taking::{Taken, take_frame};
use block_buffers::Device;
use inner_interpreter::{Input, LentMachine, Output};

/// Why no request comes any more.
#[derive(Clone, Copy, Debug, PartialEq, Eq)]
pub enum Ending {
    /// The last one said so.
    Quit,
    /// The reader gave the end.
    End,
    /// The reader failed.
    InputFault,
    /// The writer failed.
    OutputFault,
    /// There were 2^64 - 1.
    TooMany,
}

/// Serves a request, and passes its replies on. Answers why none comes after it, if that is so.
fn serve_one<W: Output, D: Device>(
    machine: &mut LentMachine,
    device: &mut D,
    count: u32,
    room: &mut Room,
    kind: u8,
    body: &[u8],
    writer: &mut W,
) -> Option<Ending>
    requires { length body.now < 65536 }
    ensures served { HasServedFrame result count kind body.now machine.old machine.new (D.calls device.old)
        (D.calls device.new) (W.sent writer.old) (W.sent writer.new) }
    ensures writer { MarksWriter result (W.failed writer.old) (W.failed writer.new) (W.passed writer.new) }
    ensures reader { (failed : Bool) → MarksReader result failed failed }
{
    let command = command_of(kind, body);
    match obey(machine, device, count, room, command, writer) {
        Ok(()) => {}
        Err(_) => return Some(Ending::OutputFault),
    }
    match writer.flush() {
        Ok(()) => {}
        Err(_) => return Some(Ending::OutputFault),
    }
    if is_quit(command) {
        return Some(Ending::Quit);
    }
    None
}

/// Serves the next request, if there is one.
fn serve_next<R: Input, W: Output, D: Device>(
    machine: &mut LentMachine,
    device: &mut D,
    count: u32,
    room: &mut Room,
    body: &mut Vec<u8>,
    reader: &mut R,
    writer: &mut W,
) -> Option<Ending>
    requires { 65535 ≤ vec_capacity body.old }
    ensures served { HasServedNext result count machine.old machine.new (D.calls device.old) (D.calls device.new)
        (R.reads reader.old) (R.reads reader.new) (W.sent writer.old) (W.sent writer.new) }
    ensures writer { KeepsWriter result (W.failed writer.old) (W.failed writer.new) (W.passed writer.old) (W.passed writer.new)
        (W.sent writer.old) (W.sent writer.new) }
    ensures reader { MarksReader result (R.failed reader.old) (R.failed reader.new) }
    ensures room { 65535 ≤ vec_capacity body.new }
{
    match take_frame(body, reader) {
        Taken::Frame(kind) => { serve_one(machine, device, count, room, kind, &body[..], writer) },
        Taken::End => Some(Ending::End),
        Taken::Failed => Some(Ending::InputFault),
    }
}

/// Serves requests until none comes any more, and answers why. `body` is room for a frame, and `room` for what a reply is made of.
///
/// The machine is what the requests leave, one after another; the device is given just the calls that the runs ask for, and those that write
/// updated buffers; and just the replies are sent, each passed on before the next frame is awaited.
pub fn serve<R: Input, W: Output, D: Device>(
    machine: &mut LentMachine,
    device: &mut D,
    room: &mut Room,
    body: &mut Vec<u8>,
    reader: &mut R,
    writer: &mut W,
) -> Ending
    requires { 65535 ≤ vec_capacity body.old }
    ensures served { HasServed result (D.block_count device.old) machine.old machine.new (D.calls device.old) (D.calls device.new)
        (R.reads reader.old) (R.reads reader.new) (W.sent writer.old) (W.sent writer.new) }
    ensures writer { KeepsWriter (Some result) (W.failed writer.old) (W.failed writer.new) (W.passed writer.old) (W.passed writer.new)
        (W.sent writer.old) (W.sent writer.new) }
    ensures reader { MarksReader (Some result) (R.failed reader.old) (R.failed reader.new) }
{
    let count = device.count();
    for _ in 0..u64::MAX {
        match serve_next(machine, device, count, room, body, reader, writer) {
            None => {}
            Some(ending) => return ending,
        }
    }
    Ending::TooMany
}
