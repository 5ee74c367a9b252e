//! The subcommand that runs an image and traces one word.

ghost use Rattle.std.specs.Prelude.{◌≡◌, false, true, IsNone};
ghost use Rattle.debug_subcommand.specs.Traced.{AreKept, DebugsFile, PrintsUntraced};
ghost use Rattle.inner_interpreter.specs.Reports.{run_ends, writer_end};
ghost use Rattle.subcommands.specs.Ends.{IsRefusal};

use crate::cause::NotTraced;
use block_buffers::Device;
use debug_tracer::{DebugFault, debug};
use inner_interpreter::{Input, Machine, Output};
use std::alloc::Global;
use subcommands::{Ended, end_with, print_out_of_memory, refuse, refuse_image, status_of};

/// Prints why a word isn't traced. Its name is printed as it was typed.
fn refuse_debug<W: Output>(name: &str, why: DebugFault, writer: &mut W) -> Ended
    ensures printed { W.failed writer.new ≡ false →
        PrintsUntraced name.now why result.status (W.sent writer.old) (W.sent writer.new) }
    ensures passed { W.failed writer.new ≡ false → W.passed writer.new ≡ true }
    ensures cut { W.failed writer.old ≡ false → W.failed writer.new ≡ true → result.status ≡ 5 }
    ensures status { IsRefusal result.status (W.failed writer.new) }
    ensures file { IsNone result.file }
{
    if why == DebugFault::OutOfMemory {
        return print_out_of_memory(writer);
    }
    refuse(name, NotTraced { why }, writer)
}

/// Loads an image and runs it for at most `limit` ticks, and writes a line into `trace` before each tick of the thread of the
/// word that `name` means. Status 0: BYE or the end of input; 1: the bytes are no image (`image: CAUSE` is printed), the word
/// isn't traced (`NAME: CAUSE`), or memory ran out; 3: a fault; 4: the limit; 5: an end failed, or a line can't be written
/// into `trace`.
pub fn do_debug<R: Input, W: Output, D: Device, T: Output>(
    alloc: Global,
    image: &[u8],
    name: &str,
    device: &mut D,
    limit: u64,
    reader: &mut R,
    writer: &mut W,
    trace: &mut T,
) -> Ended
    ensures debugged { DebugsFile image.now name.now limit result.status
        (run_ends R.Input W.Output D.Device reader.old writer.old device.old)
        (run_ends R.Input W.Output D.Device reader.new writer.new device.new)
        (writer_end T.Output trace.old) (writer_end T.Output trace.new)
        (AreKept reader.old reader.new device.old device.new trace.old trace.new) }
    ensures file { IsNone result.file }
{
    let image = match image_loader::read(alloc, image) {
        Ok(image) => image,
        Err(fault) => return refuse_image(fault, writer),
    };
    let Ok(mut machine) = Machine::load(alloc, &image, device.count()) else {
        return print_out_of_memory(writer);
    };
    let text = name.as_bytes();
    match debug(
        alloc,
        &mut machine,
        text,
        reader,
        writer,
        device,
        trace,
        limit,
    ) {
        Ok(stop) => end_with(status_of(stop)),
        Err(fault) => refuse_debug(name, fault, writer),
    }
}
