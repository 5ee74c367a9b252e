//! `advise` over the file that the command line names.
#![tactic(auto)]

ghost use Rattle.std.specs.Prelude.{◌≡◌, ◌⊎◌, false, true, IfOk, IsNone};
ghost use Rattle.named_files.specs.Done.{IsPassedOn, Refuses, status_of};
ghost use Rattle.named_files.specs.Begun.{Began, NotBegun};
ghost use Rattle.subcommands.specs.Lines.{Prints, as_line};
ghost use Rattle.advice_subcommand.specs.Advised.{Advises, EndsAdvised, advise_steps, cause};

use advice::{AdviceRefused, advise};
use inner_interpreter::{EndFault, Output, send_all};
use named_files::Files;
use std::alloc::{AllocError, Global};
use subcommands::{Ended, Reason, end_with, print_out_of_memory, refuse};

/// Why a case is not answered.
#[derive(Drop)]
struct Cause {
    refused: AdviceRefused,
}

impl Reason for Cause {
    ghost spelling = { λ c. cause c.refused };

    fn send<W: Output>(&self, writer: &mut W) -> Result<(), EndFault> {
        match self.refused {
            AdviceRefused::OutOfMemory => send_all(writer, b"OutOfMemory"),
            AdviceRefused::UnknownLine => send_all(writer, b"UnknownLine"),
            AdviceRefused::BadNumber => send_all(writer, b"BadNumber"),
            AdviceRefused::NoRequest => send_all(writer, b"NoRequest"),
        }
    }
}

/// An answer, and a line feed.
fn as_line(answer: Vec<u8>) -> Result<Vec<u8>, AllocError>
    ensures { IfOk result (λ text. text.items ≡ as_line answer.items) }
{
    let mut text = answer;
    text.push(b'\n')?;
    Ok(text)
}

/// Prints a text.
fn print_text<W: Output>(text: &[u8], writer: &mut W) -> Ended
    ensures printed { W.failed writer.new ≡ false → Prints text.now 0 result.status (W.sent writer.old) (W.sent writer.new) }
    ensures passed { W.failed writer.new ≡ false → W.passed writer.new ≡ true }
    ensures cut { W.failed writer.old ≡ false → W.failed writer.new ≡ true → result.status ≡ 5 }
    ensures file { IsNone result.file }
{
    if send_all(writer, text).is_err() || writer.flush().is_err() {
        return end_with(5);
    }
    end_with(0)
}

/// Prints an answer, as a line.
fn print_answer<W: Output>(answer: Vec<u8>, writer: &mut W) -> Ended
    ensures printed { W.failed writer.new ≡ false → EndsAdvised result.status (W.sent writer.old) (W.sent writer.new) }
    ensures passed { W.failed writer.new ≡ false → W.passed writer.new ≡ true }
    ensures cut { W.failed writer.old ≡ false → W.failed writer.new ≡ true → result.status ≡ 5 }
    ensures file { IsNone result.file }
{
    match as_line(answer) {
        Ok(text) => print_text(text.as_slice(), writer),
        Err(_) => print_out_of_memory(writer),
    }
}

/// Prints the answer to a case. Status 0; 1: the bytes are no case (`case: CAUSE` is printed), or memory ran out; 5: the answer can't be
/// printed.
fn do_advise<W: Output>(alloc: Global, case: &[u8], writer: &mut W) -> Ended
    ensures printed { W.failed writer.new ≡ false → EndsAdvised result.status (W.sent writer.old) (W.sent writer.new) }
    ensures passed { W.failed writer.new ≡ false → W.passed writer.new ≡ true }
    ensures cut { W.failed writer.old ≡ false → W.failed writer.new ≡ true → result.status ≡ 5 }
    ensures file { IsNone result.file }
{
    match advise(alloc, case) {
        Ok(answer) => print_answer(answer, writer),
        Err(AdviceRefused::OutOfMemory) => print_out_of_memory(writer),
        Err(refused) => refuse("case", Cause { refused }, writer),
    }
}

/// Prints the answer to the case that `advise` names. If it cannot begin, that is printed, and the status is the error.
pub fn advise_case<F: Files, W: Output>(files: &mut F, writer: &mut W, case: &str) -> Result<u8, u8>
    ensures advised { Began F.log W.Output files.old files.new writer.old writer.new result
        (Advises case.now) }
    ensures refused { NotBegun F.log W.Output files.old files.new writer.old writer.new result
        (Refuses (advise_steps case.now)) }
    ensures cut { W.failed writer.old ≡ false → W.failed writer.new ≡ true → status_of result ≡ 5 }
    ensures passed { IsPassedOn (status_of result) (W.failed writer.new) (W.passed writer.new) (W.sent writer.old) (W.sent writer.new) }
{
    let text = files.file_bytes(case)?;
    let ended = do_advise(files.alloc(), text.as_slice(), writer);
    Ok(ended.status)
}
