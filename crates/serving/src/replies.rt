//! Replies, as frames.

ghost use Rattle.std.specs.Prelude.{◌≡◌, ◌<◌, ◌+◌, ◌∷◌, ◌++◌, [], length, OnErr, OnOk};
ghost use Rattle.std.specs.Io.KnownBytes.{Appends};
ghost use Rattle.inner_interpreter.specs.Ends.{Marks};
ghost use Rattle.inner_interpreter.specs.Sent.{AppendsPart};
ghost use Rattle.serving.specs.Replies.{by_cause, by_request, end_reply, standing_after};

use crate::frames::send_frame;
use inner_interpreter::{Cause, EndFault, Event, LentMachine, Output};
use machine_parts::parts::Request;

/// What a machine does after an act: a letter, and a number.
#[derive(Clone, Copy, Debug, PartialEq, Eq)]
pub struct Standing {
    pub letter: u8,
    pub number: u16,
}

fn made(letter: u8, number: u16) -> Standing
    ensures { result ≡ record { letter = letter; number = number } }
{
    Standing { letter, number }
}

fn by_request(request: Request) -> Standing
    ensures { result ≡ by_request request }
{
    match request {
        Request::Key => made(b'k', 0),
        Request::Line { n } => made(b'l', n),
        Request::Read { block } => made(b'r', block),
        Request::Write { block } => made(b'w', block),
    }
}

fn by_cause(cause: Cause) -> Standing
    ensures { result ≡ by_cause cause }
{
    match cause {
        Cause::Bye => made(b'b', 0),
        Cause::InputEnded => made(b'x', 0),
        Cause::InputFault => made(b'y', 0),
        Cause::Fault(fault) => made(b'h', fault),
    }
}

/// What the machine does after an act of this event.
fn standing_after(machine: &LentMachine, event: Event) -> Standing
    ensures { result ≡ standing_after machine.now event }
{
    if let Event::Fault(fault) = event {
        return made(b'f', fault);
    }
    if let Some(cause) = machine.halted() {
        return by_cause(cause);
    }
    match machine.asked() {
        Some(request) => by_request(request),
        None => made(b'-', 0),
    }
}

/// The end of a request that may move the machine.
#[tactic(auto, unfolding(crate::specs::Replies::end_reply))]
pub fn end<W: Output>(
    machine: &LentMachine,
    writer: &mut W,
    done: u32,
    event: Event,
) -> Result<(), EndFault>
    ensures ok { OnOk result (Appends (W.sent writer.old) (W.sent writer.new) (end_reply done (standing_after machine.now event))) }
    ensures err { OnErr result (AppendsPart (W.sent writer.old) (W.sent writer.new) (end_reply done (standing_after machine.now event))) }
    ensures mark { Marks (W.failed writer.old) (W.failed writer.new) result }
{
    let standing = standing_after(machine, event);
    let body = [
        (done % 256) as u8,
        (done / 256 % 256) as u8,
        (done / 65536 % 256) as u8,
        (done / 16777216) as u8,
        standing.letter,
        (standing.number % 256) as u8,
        (standing.number / 256) as u8,
    ];
    send_frame(writer, b'e', &body)
}
