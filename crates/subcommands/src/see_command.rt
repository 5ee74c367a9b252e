//! The subcommand that shows a word's definition.

ghost use Rattle.std.specs.Prelude.{◌≡◌, false, true, IsNone, OnOk, Err};
ghost use Rattle.std.specs.Io.KnownBytes.{Appends};
ghost use Rattle.inner_interpreter.specs.Ends.{Marks};
ghost use Rattle.subcommands.specs.Lines.{EndsSeen, OfImageFile, Prints, PrintsNoImage, PrintsSeen, as_line};

use crate::commands::{Ended, print_out_of_memory, refuse, refuse_image};
use crate::sends::{end_line, ended};
use inner_interpreter::{EndFault, Output, send_all};
use memory::Memory;
use see::{SeeRefused, see};
use std::alloc::Global;

/// Prints why a word isn't shown. Its name is printed as it was typed.
fn refuse_see<W: Output>(name: &str, why: SeeRefused, writer: &mut W) -> Ended
    ensures printed { W.failed writer.new ≡ false →
        PrintsSeen name.now (Err why) result.status (W.sent writer.old) (W.sent writer.new) }
    ensures passed { W.failed writer.new ≡ false → W.passed writer.new ≡ true }
    ensures cut { W.failed writer.old ≡ false → W.failed writer.new ≡ true → result.status ≡ 5 }
    ensures file { IsNone result.file }
{
    if why == SeeRefused::OutOfMemory {
        return print_out_of_memory(writer);
    }
    refuse(name, why, writer)
}

/// Sends a definition on a line.
#[tactic(auto, using(inner_interpreter::proofs::Sending::appends_both))]
fn send_definition<W: Output>(writer: &mut W, text: &[u8]) -> Result<(), EndFault>
    ensures sent { OnOk result (Appends (W.sent writer.old) (W.sent writer.new) (as_line text.now)) }
    ensures passed { OnOk result (W.passed writer.new ≡ true) }
    ensures mark { Marks (W.failed writer.old) (W.failed writer.new) result }
{
    send_all(writer, text)?;
    end_line(writer)
}

/// Prints a definition on a line.
fn print_definition<W: Output>(text: &[u8], writer: &mut W) -> Ended
    ensures printed { W.failed writer.new ≡ false →
        Prints (as_line text.now) 0 result.status (W.sent writer.old) (W.sent writer.new) }
    ensures passed { W.failed writer.new ≡ false → W.passed writer.new ≡ true }
    ensures cut { W.failed writer.old ≡ false → W.failed writer.new ≡ true → result.status ≡ 5 }
    ensures file { IsNone result.file }
{
    let sent = send_definition(writer, text);
    ended(sent, 0)
}

/// Prints the definition of a colon word of an image: `: NAME`, its body and `;`. Status 0; 1: the bytes are no image
/// (`image: CAUSE` is printed), the word isn't shown (`NAME: CAUSE`) or memory ran out; 5: the line can't be printed.
pub fn do_see<W: Output>(alloc: Global, image: &[u8], name: &str, writer: &mut W) -> Ended
    // If the bytes are an image's file, the word's text is printed, or why there is none.
    ensures seen { W.failed writer.new ≡ false →
        OfImageFile image.now (λ file. EndsSeen file name.now result.status (W.sent writer.old) (W.sent writer.new)) }
    // If they are none, it is printed why.
    ensures refused { W.failed writer.new ≡ false →
        PrintsNoImage image.now result.status (W.sent writer.old) (W.sent writer.new) }
    ensures passed { W.failed writer.new ≡ false → W.passed writer.new ≡ true }
    ensures cut { W.failed writer.old ≡ false → W.failed writer.new ≡ true → result.status ≡ 5 }
    ensures file { IsNone result.file }
{
    let image = match image_loader::read(alloc, image) {
        Ok(image) => image,
        Err(fault) => return refuse_image(fault, writer),
    };
    let Ok(memory) = Memory::with_front(alloc, image.bytes()) else {
        return print_out_of_memory(writer);
    };
    match see(alloc, &memory, name.as_bytes()) {
        Ok(text) => print_definition(text.as_slice(), writer),
        Err(why) => refuse_see(name, why, writer),
    }
}
