//! Sending lines piece by piece, so that no memory is wanted for them.

ghost use Rattle.std.specs.Prelude.{◌≡◌, ◌++◌, ◌∷◌, [], true, IsNone, OnErr, OnOk};
ghost use Rattle.std.specs.Io.KnownBytes.{Appends};
ghost use Rattle.inner_interpreter.specs.Ends.{Marks};
ghost use Rattle.subcommands.specs.Lines.{refusal};

use crate::causes::Reason;
use crate::commands::{Ended, end_with};
use inner_interpreter::{EndFault, Output, send_all};
use itoa::{Buffer, Integer};

/// Sends a number in decimal.
pub fn send_decimal<I: Integer, W: Output>(writer: &mut W, number: I) -> Result<(), EndFault>
    ensures sent { OnOk result (Appends (W.sent writer.old) (W.sent writer.new) (I.text number)) }
    ensures mark { Marks (W.failed writer.old) (W.failed writer.new) result }
{
    let mut buffer = Buffer::new();
    send_all(writer, buffer.format(number).as_bytes())
}

/// Sends a word, and a number in decimal after it.
#[tactic(auto, using(inner_interpreter::proofs::Sending::appends_both))]
pub fn send_numbered<I: Integer, W: Output>(
    writer: &mut W,
    word: &[u8],
    number: I,
) -> Result<(), EndFault>
    ensures sent { OnOk result (Appends (W.sent writer.old) (W.sent writer.new) (word.now ++ I.text number)) }
    ensures mark { Marks (W.failed writer.old) (W.failed writer.new) result }
{
    send_all(writer, word)?;
    send_decimal(writer, number)
}

/// Ends a line, and passes it on.
pub fn end_line<W: Output>(writer: &mut W) -> Result<(), EndFault>
    ensures sent { OnOk result (Appends (W.sent writer.old) (W.sent writer.new) (10 ∷ [])) }
    ensures passed { OnOk result (W.passed writer.new ≡ true) }
    ensures mark { Marks (W.failed writer.old) (W.failed writer.new) result }
{
    send_all(writer, b"\n")?;
    writer.flush()
}

/// Sends why something is refused: `WHAT: CAUSE`.
#[tactic(auto, using(inner_interpreter::proofs::Sending::appends_both))]
pub fn send_refusal<C: Reason, W: Output>(
    writer: &mut W,
    what: &str,
    why: &C,
) -> Result<(), EndFault>
    ensures sent { OnOk result (Appends (W.sent writer.old) (W.sent writer.new) (refusal what.now (C.spelling why.now))) }
    ensures passed { OnOk result (W.passed writer.new ≡ true) }
    ensures mark { Marks (W.failed writer.old) (W.failed writer.new) result }
{
    send_all(writer, what.as_bytes())?;
    send_all(writer, b": ")?;
    why.send(writer)?;
    end_line(writer)
}

/// The end of a subcommand that printed a line, and makes no file: with this status, or with 5 if the line couldn't be
/// written.
pub fn ended(sent: Result<(), EndFault>, status: u8) -> Ended
    ensures ok { OnOk sent (result.status ≡ status) }
    ensures err { OnErr sent (result.status ≡ 5) }
    ensures file { IsNone result.file }
{
    match sent {
        Ok(()) => end_with(status),
        Err(_) => end_with(5),
    }
}
