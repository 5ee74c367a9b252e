//! Showing bytes.

ghost use Rattle.std.specs.Prelude.{[], ◌∷◌, OnOk, OnErr};
ghost use Rattle.std.specs.Io.KnownBytes.{Appends};
ghost use Rattle.memory.specs.Bytes.{bytes};
ghost use Rattle.inner_interpreter.specs.Ends.{Marks};
ghost use Rattle.inner_interpreter.specs.Moves.{shown_bytes};
ghost use Rattle.inner_interpreter.specs.Sent.{AppendsPart};

use crate::ends::{EndFault, Output};
use machine::{LentMachine, Shown};
use machine_parts::parts::Span;

/// Sends all of the bytes, or a front of them if the writer fails.
pub fn send_all<W: Output>(writer: &mut W, bytes: &[u8]) -> Result<(), EndFault>
    ensures ok { OnOk result (Appends (W.sent writer.old) (W.sent writer.new) bytes.now) }
    ensures err { OnErr result (AppendsPart (W.sent writer.old) (W.sent writer.new) bytes.now) }
    ensures mark { Marks (W.failed writer.old) (W.failed writer.new) result }
{
    let mut sent = 0;
    while sent < bytes.len() {
        match writer.send(&bytes[sent..]) {
            Ok(count) => sent += count,
            Err(fault) => return Err(fault),
        }
    }
    Ok(())
}

/// Sends a byte.
#[tactic(auto, using(crate::proofs::Sending::one_sent, crate::proofs::Sending::none_sent))]
fn send_byte<W: Output>(writer: &mut W, byte: u8) -> Result<(), EndFault>
    ensures ok { OnOk result (Appends (W.sent writer.old) (W.sent writer.new) (byte ∷ [])) }
    ensures err { OnErr result (AppendsPart (W.sent writer.old) (W.sent writer.new) (byte ∷ [])) }
    ensures mark { Marks (W.failed writer.old) (W.failed writer.new) result }
{
    match writer.send(&[byte]) {
        Ok(_) => Ok(()),
        Err(fault) => Err(fault),
    }
}

/// Sends bytes of memory.
#[tactic(auto, using(crate::proofs::Sending::part_second, crate::proofs::Sending::part_first, crate::proofs::Sending::appends_both))]
fn send_span<W: Output>(machine: &LentMachine, writer: &mut W, span: Span) -> Result<(), EndFault>
    ensures ok { OnOk result (Appends (W.sent writer.old) (W.sent writer.new)
        (bytes machine.now.parts.memory span.at span.len)) }
    ensures err { OnErr result (AppendsPart (W.sent writer.old) (W.sent writer.new)
        (bytes machine.now.parts.memory span.at span.len)) }
    ensures mark { Marks (W.failed writer.old) (W.failed writer.new) result }
{
    let (front, back) = machine.shown(span);
    match send_all(writer, front) {
        Ok(()) => send_all(writer, back),
        Err(fault) => Err(fault),
    }
}

/// Sends what a move showed.
#[tactic(auto, using(crate::proofs::Sending::part_second, crate::proofs::Sending::part_first, crate::proofs::Sending::appends_both), unfolding(crate::specs::Moves::shown_bytes))]
pub fn show<W: Output>(machine: &LentMachine, writer: &mut W, shown: Shown) -> Result<(), EndFault>
    ensures ok { OnOk result (Appends (W.sent writer.old) (W.sent writer.new) (shown_bytes machine.now.parts.memory shown)) }
    ensures err { OnErr result (AppendsPart (W.sent writer.old) (W.sent writer.new)
        (shown_bytes machine.now.parts.memory shown)) }
    ensures mark { Marks (W.failed writer.old) (W.failed writer.new) result }
{
    match shown {
        Shown::Nothing => Ok(()),
        Shown::Byte(byte) => send_byte(writer, byte),
        Shown::Span(span) => send_span(machine, writer, span),
        Shown::Line(span) => match send_span(machine, writer, span) {
            Ok(()) => send_byte(writer, b' '),
            Err(fault) => Err(fault),
        },
    }
}
