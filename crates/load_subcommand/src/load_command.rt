//! `load`.

ghost use Rattle.std.specs.Prelude.{◌≡◌, ◌<◌, false, true, IsNone, MatchOption};
ghost use Rattle.image_loader.specs.declared.fault.ImageFault.{ImageFault};
ghost use Rattle.subcommands.specs.Causes.{IsNoFile};
ghost use Rattle.subcommands.specs.Ends.{IsRefusal};
ghost use Rattle.subcommands.specs.Lines.{OfImageFile, PrintsNoImage};
ghost use Rattle.load_subcommand.specs.Loads.{EndsLoaded, EndsMoved, OfLoad, PrintsUnloaded};

use crate::cause::NotLoaded;
use block_buffers::Device;
use inner_interpreter::Output;
use metacompiler::{LoadFault, load_by_machine};
use std::alloc::Global;
use subcommands::{Ended, end_with_made, print_out_of_memory, refuse, refuse_image};

/// Prints why screens aren't loaded.
fn refuse_load<W: Output>(why: LoadFault, writer: &mut W) -> Ended
    ensures printed { W.failed writer.new ≡ false →
        PrintsUnloaded why result.status (W.sent writer.old) (W.sent writer.new) }
    ensures passed { W.failed writer.new ≡ false → W.passed writer.new ≡ true }
    ensures cut { W.failed writer.old ≡ false → W.failed writer.new ≡ true → result.status ≡ 5 }
    ensures status { IsRefusal result.status (W.failed writer.new) }
    ensures file { IsNone result.file }
{
    if why == LoadFault::OutOfMemory {
        return print_out_of_memory(writer);
    }
    refuse("load", NotLoaded { why }, writer)
}

/// Loads the screens from `from` to `to` on an image, whose own INTERPRET compiles them in at most `limit` ticks, and prints
/// `size S entry E` of the image that results. Status 0, with the bytes of its file. Without a file 1: the bytes are no
/// image (`image: CAUSE` is printed), the screens aren't loaded (`load: CAUSE`) or memory ran out; 5: a line can't be
/// printed.
pub fn do_load<W: Output, D: Device>(
    alloc: Global,
    image: &[u8],
    device: &mut D,
    from: u16,
    to: u16,
    limit: u64,
    writer: &mut W,
) -> Ended
    ensures status { MatchOption result.file (0 < result.status) (λ _. result.status ≡ 0) }
    // If the bytes are an image's file, and the device reports its blocks, the new image is that of the written rounds,
    // and the device is as these leave it, whether its line can be printed or not.
    ensures loaded { OfLoad image.now (D.disk device.old) from to limit
        (λ d o. EndsLoaded d o (D.disk device.new) result (W.failed writer.new) (W.sent writer.old)
        (W.sent writer.new)) }
    // Whatever the device is, it is what the moves of a machine come to that was given the device's answers.
    ensures moved { OfImageFile image.now
        (λ old. EndsMoved old (D.block_count device.old) from to limit (D.calls device.old) (D.calls device.new) result
        (W.failed writer.new) (W.sent writer.old) (W.sent writer.new)) }
    // If they are none, that is printed, and the device isn't touched.
    ensures refused { W.failed writer.new ≡ false →
        PrintsNoImage image.now result.status (W.sent writer.old) (W.sent writer.new) }
    ensures untouched { (fault : ImageFault) → IsNoFile image.now fault → device.new ≡ device.old }
    ensures passed { W.failed writer.new ≡ false → W.passed writer.new ≡ true }
    ensures cut { W.failed writer.old ≡ false → W.failed writer.new ≡ true → (result.status ≡ 5) × IsNone result.file }
{
    let image = match image_loader::read(alloc, image) {
        Ok(image) => image,
        Err(fault) => return refuse_image(fault, writer),
    };
    match load_by_machine(alloc, &image, device, from, to, limit) {
        Ok(image) => end_with_made(alloc, &image, writer),
        Err(why) => refuse_load(why, writer),
    }
}
