//! A run of an image.

ghost use Rattle.std.specs.Prelude.{◌≡◌, ◌⊎◌, false, true, IfOk, IsNone, OnErr};
ghost use Rattle.image_loader.specs.declared.fault.ImageFault.{ImageFault};
ghost use Rattle.inner_interpreter.specs.Moves.{logs};
ghost use Rattle.inner_interpreter.specs.Reports.{run_ends};
ghost use Rattle.run_subcommand.specs.Running.{HasRunImage, RunsImage, RunsWith};
ghost use Rattle.subcommands.specs.Causes.{IsNoFile};
ghost use Rattle.subcommands.specs.Ends.{IsUnrun};
ghost use Rattle.subcommands.specs.Lines.{OfImageFile, PrintsNoImage};

use block_buffers::Device;
use image_loader::Image;
use inner_interpreter::{Input, Machine, Output, Stop, run};
use memory::OutOfMemory;
use std::alloc::Global;
use subcommands::{Ended, end_with, print_out_of_memory, refuse_image, status_of};

/// Loads an image, and runs it.
fn run_loaded<R: Input, W: Output, D: Device>(
    alloc: Global,
    image: &Image,
    device: &mut D,
    limit: u64,
    reader: &mut R,
    writer: &mut W,
) -> Result<Stop, OutOfMemory>
    ensures ran { IfOk result (λ stop. RunsImage image.now limit stop
        (run_ends R.Input W.Output D.Device reader.old writer.old device.old)
        (run_ends R.Input W.Output D.Device reader.new writer.new device.new)) }
    ensures reader { OnErr result (reader.new ≡ reader.old) }
    ensures writer { OnErr result (writer.new ≡ writer.old) }
    ensures device { OnErr result (device.new ≡ device.old) }
{
    let mut machine = Machine::load(alloc, image, device.count())?;
    let stop = run(alloc, &mut machine, reader, writer, device, limit)?;
    Ok(stop)
}

/// Loads an image, and runs it for at most `limit` ticks. Status 0: BYE or the end of input; 1: the bytes are no image (`image: CAUSE`
/// is printed), or memory ran out; 3: a fault; 4: the limit; 5: an end failed.
pub fn do_run<R: Input, W: Output, D: Device>(
    alloc: Global,
    image: &[u8],
    device: &mut D,
    limit: u64,
    reader: &mut R,
    writer: &mut W,
) -> Ended
    // If the bytes are an image's file, whatever the ends are, it is a run of the machine that was loaded; or memory ran out, and
    // nothing was run.
    ensures ran { OfImageFile image.now (λ file. RunsWith file limit result.status
        (run_ends R.Input W.Output D.Device reader.old writer.old device.old)
        (run_ends R.Input W.Output D.Device reader.new writer.new device.new) ⊎
        IsUnrun result.status (W.failed writer.new) reader.old reader.new device.old device.new (W.sent writer.old)
        (W.sent writer.new)) }
    // So the machine moved by ticks and answers alone; the reader gave just the bytes of these answers, the writer was sent just what the
    // moves show, and the device was given just the calls that the machine asked for.
    ensures moved { R.failed reader.old ≡ false → W.failed writer.old ≡ false → OfImageFile image.now
        (λ file. HasRunImage file (D.block_count device.old) limit
        (logs (D.calls device.old) (W.sent writer.old) (R.reads reader.old))
        (logs (D.calls device.new) (W.sent writer.new) (R.reads reader.new))
        (R.failed reader.new) (W.failed writer.new) result.status ⊎
        IsUnrun result.status (W.failed writer.new) reader.old reader.new device.old device.new (W.sent writer.old)
        (W.sent writer.new)) }
    // If they are none, that is printed, and no other end is touched.
    ensures refused { W.failed writer.new ≡ false →
        PrintsNoImage image.now result.status (W.sent writer.old) (W.sent writer.new) }
    ensures unrun { (fault : ImageFault) → IsNoFile image.now fault → (reader.new ≡ reader.old) × (device.new ≡ device.old) }
    // If the writer doesn't fail, all that was printed was passed on; if it fails, the status is 5.
    ensures passed { W.failed writer.new ≡ false → W.passed writer.new ≡ true }
    ensures cut { W.failed writer.old ≡ false → W.failed writer.new ≡ true → result.status ≡ 5 }
    ensures file { IsNone result.file }
{
    let image = match image_loader::read(alloc, image) {
        Ok(image) => image,
        Err(fault) => return refuse_image(fault, writer),
    };
    match run_loaded(alloc, &image, device, limit, reader, writer) {
        Ok(stop) => end_with(status_of(stop)),
        Err(_) => print_out_of_memory(writer),
    }
}
