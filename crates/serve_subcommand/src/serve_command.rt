//! `serve`.

ghost use Rattle.std.specs.Prelude.{◌≡◌, ◌⊎◌, ◌≤◌, ◌==◌, false, true, Ok, vec_capacity, IfOk, IsNone, OnErr, if◌then◌else◌};
ghost use Rattle.inner_interpreter.specs.Moves.{logs};
ghost use Rattle.image_loader.specs.declared.fault.ImageFault.{ImageFault};
ghost use Rattle.named_files.specs.Done.{IsPassedOn};
ghost use Rattle.serve_subcommand.specs.Serving.{SavesAtEnd, ServesImage, status_by};
ghost use Rattle.subcommands.specs.Causes.{IsNoFile};
ghost use Rattle.subcommands.specs.Ends.{IsRefusal, IsUnrun};
ghost use Rattle.subcommands.specs.Lines.{OfImageFile, PrintsNoImage, PrintsOutOfMemory};

use block_buffers::Device;
use image_loader::Image;
use inner_interpreter::{Input, LentMachine, Output};
use memory::{Memory, OutOfMemory};
use serving::{Ending, Room, frame_room, save, serve};
use std::alloc::Global;
use subcommands::{Ended, end_with, print_out_of_memory, refuse_image};

/// How many blocks the machine has: the device has the first of them, and the host is asked for the others.
const BLOCK_COUNT: u32 = 65536;

/// The status after an ending, if so many blocks could not be written.
fn status_by(ending: Ending, lost: u16) -> u8
    ensures { result ≡ status_by ending lost }
{
    match ending {
        Ending::InputFault | Ending::OutputFault => 5,
        _ if lost == 0 => 0,
        _ => 1,
    }
}

/// Writes the updated buffers, unless the last request has written them, and answers the status.
fn finish<D: Device>(machine: &LentMachine, device: &mut D, count: u32, ending: Ending) -> u8
    ensures { SavesAtEnd ending count machine.now.parts (D.calls device.old) (D.calls device.new) result }
{
    match ending {
        Ending::Quit => 0,
        other => status_by(other, save(machine, device, count)),
    }
}

/// Loads an image and serves requests.
fn sit<R: Input, W: Output, D: Device>(
    alloc: Global,
    image: &Image,
    device: &mut D,
    reader: &mut R,
    writer: &mut W,
) -> Result<u8, OutOfMemory>
    ensures served { IfOk result (λ status. ServesImage image.now (D.block_count device.old)
        (logs (D.calls device.old) (W.sent writer.old) (R.reads reader.old))
        (logs (D.calls device.new) (W.sent writer.new) (R.reads reader.new)) status) }
    ensures passed { IfOk result (λ status. IsPassedOn status (W.failed writer.new) (W.passed writer.new) (W.sent writer.old) (W.sent writer.new)) }
    ensures cut { W.failed writer.old ≡ false → W.failed writer.new ≡ true → IfOk result (λ status. status ≡ 5) }
    ensures reader { OnErr result (reader.new ≡ reader.old) }
    ensures writer { OnErr result (writer.new ≡ writer.old) }
    ensures device { OnErr result (device.new ≡ device.old) }
{
    let mut memory = Memory::with_front(alloc, image.bytes())?;
    let mut body = frame_room(alloc)?;
    let mut room = Room::new(alloc)?;
    let memory: &mut Memory = &mut memory;
    let mut machine = LentMachine::load(alloc, memory, image, BLOCK_COUNT);
    let count = device.count();
    let ending = serve(&mut machine, device, &mut room, &mut body, reader, writer);
    Ok(finish(&machine, device, count, ending))
}

/// Loads an image and serves the requests of a host: what it sends is read from `reader`, and `writer` gets the replies. At the end the
/// updated buffers are written. Status 0: the requests ended; 1: the bytes are no image (`image: CAUSE` is printed), memory ran out
/// before the first request, or a block could not be written at the end; 5: an end failed.
pub fn do_serve<R: Input, W: Output, D: Device>(
    alloc: Global,
    image: &[u8],
    device: &mut D,
    reader: &mut R,
    writer: &mut W,
) -> Ended
    // If the bytes are an image's file, the requests are served, whatever the ends are; or memory runs out before the first one.
    ensures served { OfImageFile image.now (λ file. ServesImage file (D.block_count device.old)
        (logs (D.calls device.old) (W.sent writer.old) (R.reads reader.old))
        (logs (D.calls device.new) (W.sent writer.new) (R.reads reader.new)) result.status ⊎
        IsUnrun result.status (W.failed writer.new) reader.old reader.new device.old device.new (W.sent writer.old) (W.sent writer.new)) }
    // If they are none, that is printed, and no other end is touched.
    ensures refused { W.failed writer.new ≡ false → PrintsNoImage image.now result.status (W.sent writer.old) (W.sent writer.new) }
    ensures unserved { (fault : ImageFault) → IsNoFile image.now fault → (reader.new ≡ reader.old) × (device.new ≡ device.old) }
    // If the writer does not fail, all that was sent was passed on; if it fails, the status is 5.
    ensures passed { IsPassedOn result.status (W.failed writer.new) (W.passed writer.new) (W.sent writer.old) (W.sent writer.new) }
    ensures cut { W.failed writer.old ≡ false → W.failed writer.new ≡ true → result.status ≡ 5 }
    ensures file { IsNone result.file }
{
    let image = match image_loader::read(alloc, image) {
        Ok(image) => image,
        Err(fault) => return refuse_image(fault, writer),
    };
    match sit(alloc, &image, device, reader, writer) {
        Ok(status) => end_with(status),
        Err(_) => print_out_of_memory(writer),
    }
}
