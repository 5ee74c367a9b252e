//! The subcommands, over values.

ghost use Rattle.std.specs.Prelude.{◌≡◌, ◌≢◌, ◌⊎◌, ◌<◌, codes, decimal, false, true, Some, IsNone, IsSome, IfSome, MatchOption, OnOk};
ghost use Rattle.std.specs.Io.KnownBytes.{Appends};
ghost use Rattle.image_builder.specs.Sources.{ForDevice};
ghost use Rattle.block_buffers.specs.Disks.{Disk};
ghost use Rattle.block_buffers.specs.Likeness.{IsLike};
ghost use Rattle.subcommands.specs.Kernel.{filled, blocks_of};
ghost use Rattle.subcommands.specs.Images.{IsBuilding, IsBuiltFile, IsFileOfRead};
ghost use Rattle.subcommands.specs.Causes.{build_cause, image_cause};
ghost use Rattle.subcommands.specs.Ends.{IsRefusal};
ghost use Rattle.subcommands.specs.Lines.{EndsUnbuilt, EndsViewed, IsFileOf, IsTold, OfImageFile, Prints, PrintsNoImage, PrintsFault, PrintsOutOfMemory, PrintsRefusal, fault_line, image_line, as_line};
ghost use Rattle.subcommands.specs.Statuses.{status_of};
ghost use Rattle.image_loader.specs.Files.{IsWritten};
ghost use Rattle.image_loader.specs.declared.fault.ImageFault.{ImageFault};
ghost use Rattle.inner_interpreter.specs.Ends.{Marks};
ghost use Rattle.memory.specs.Bytes.{IsCount};

use crate::causes::Reason;
use crate::kernel::kernel_file;
use crate::kernel_text::TEXT;
use crate::sends::{end_line, ended, send_decimal, send_numbered, send_refusal};
use block_buffers::Device;
use image_builder::{BuildFault, Cause, build};
use image_loader::{Image, ImageFault};
use inner_interpreter::{EndFault, Output, Stop, send_all};
use memory::{Memory, OutOfMemory};
use see::view;
use std::alloc::Global;

/// How a subcommand ended: the program's status, and the bytes of the file that it makes, if it makes one.
#[derive(Drop)]
pub struct Ended {
    pub status: u8,
    pub file: Option<Vec<u8>>,
}

/// The end of a subcommand that makes no file.
pub fn end_with(status: u8) -> Ended
    ensures status { result.status ≡ status }
    ensures file { IsNone result.file }
{
    Ended { status, file: None }
}

/// The end of a subcommand that makes a file.
pub fn end_with_file(file: Vec<u8>) -> Ended
    ensures status { result.status ≡ 0 }
    ensures file { result.file ≡ Some file }
{
    Ended {
        status: 0,
        file: Some(file),
    }
}

/// The status of a run that stopped.
pub fn status_of(stop: Stop) -> u8
    ensures { result ≡ status_of stop }
{
    match stop {
        Stop::Bye | Stop::InputEnded => 0,
        Stop::Fault(_) => 3,
        Stop::Limit => 4,
        Stop::InputFault | Stop::OutputFault | Stop::TraceFault => 5,
    }
}

/// Prints a text, and ends with the status, or with 5 if the text can't be written.
pub fn print<W: Output>(writer: &mut W, text: &[u8], status: u8) -> Ended
    ensures printed { W.failed writer.new ≡ false →
        Prints text.now status result.status (W.sent writer.old) (W.sent writer.new) }
    ensures passed { W.failed writer.new ≡ false → W.passed writer.new ≡ true }
    ensures cut { W.failed writer.old ≡ false → W.failed writer.new ≡ true → result.status ≡ 5 }
    ensures status { (result.status ≡ status) ⊎ ((result.status ≡ 5) × (W.failed writer.new ≡ true)) }
    ensures file { IsNone result.file }
{
    if send_all(writer, text).is_err() || writer.flush().is_err() {
        return end_with(5);
    }
    end_with(status)
}

/// Prints that memory ran out.
pub fn print_out_of_memory<W: Output>(writer: &mut W) -> Ended
    ensures printed { W.failed writer.new ≡ false →
        PrintsOutOfMemory result.status (W.sent writer.old) (W.sent writer.new) }
    ensures passed { W.failed writer.new ≡ false → W.passed writer.new ≡ true }
    ensures cut { W.failed writer.old ≡ false → W.failed writer.new ≡ true → result.status ≡ 5 }
    ensures status { IsRefusal result.status (W.failed writer.new) }
    ensures file { IsNone result.file }
{
    print(writer, b"out of memory\n", 1)
}

/// Prints why something is refused: `WHAT: CAUSE`.
pub fn refuse<C: Reason + Drop, W: Output>(what: &str, why: C, writer: &mut W) -> Ended
    ensures printed { W.failed writer.new ≡ false →
        PrintsRefusal what.now (C.spelling why) result.status (W.sent writer.old) (W.sent writer.new) }
    ensures passed { W.failed writer.new ≡ false → W.passed writer.new ≡ true }
    ensures cut { W.failed writer.old ≡ false → W.failed writer.new ≡ true → result.status ≡ 5 }
    ensures status { IsRefusal result.status (W.failed writer.new) }
    ensures file { IsNone result.file }
{
    let sent = send_refusal(writer, what, &why);
    ended(sent, 1)
}

/// Prints why bytes are no image.
pub fn refuse_image<W: Output>(fault: ImageFault, writer: &mut W) -> Ended
    ensures printed { W.failed writer.new ≡ false → fault ≢ ImageFault.OutOfMemory →
        PrintsRefusal (codes "image") (image_cause fault) result.status (W.sent writer.old) (W.sent writer.new) }
    ensures out_of_memory { W.failed writer.new ≡ false → fault ≡ ImageFault.OutOfMemory →
        PrintsOutOfMemory result.status (W.sent writer.old) (W.sent writer.new) }
    ensures passed { W.failed writer.new ≡ false → W.passed writer.new ≡ true }
    ensures cut { W.failed writer.old ≡ false → W.failed writer.new ≡ true → result.status ≡ 5 }
    ensures status { IsRefusal result.status (W.failed writer.new) }
    ensures file { IsNone result.file }
{
    if fault == ImageFault::OutOfMemory {
        return print_out_of_memory(writer);
    }
    refuse("image", fault, writer)
}

/// Makes the block file with the kernel's sources, of 64 blocks. Status 0; without a file 1, if memory ran out, or 5,
/// if that can't be printed.
pub fn do_kernel<W: Output>(alloc: Global, writer: &mut W) -> Ended
    ensures file { MatchOption result.file (0 < result.status)
        (λ file. (result.status ≡ 0) × (file.items ≡ filled 65536 (blocks_of TEXT.now))) }
    // Beside the file nothing is printed; if there is none, that memory ran out.
    ensures silent { IsSome result.file → writer.new ≡ writer.old }
    ensures wanting { W.failed writer.new ≡ false → IsNone result.file →
        PrintsOutOfMemory result.status (W.sent writer.old) (W.sent writer.new) }
    ensures passed { W.failed writer.new ≡ false → IsNone result.file → W.passed writer.new ≡ true }
    ensures cut { W.failed writer.old ≡ false → W.failed writer.new ≡ true → (result.status ≡ 5) × IsNone result.file }
{
    match kernel_file(alloc) {
        Ok(file) => end_with_file(file),
        Err(_) => print_out_of_memory(writer),
    }
}

/// Sends where and why a source is refused: `screen S offset O: CAUSE`.
#[tactic(auto, using(inner_interpreter::proofs::Sending::appends_both))]
fn send_fault<W: Output>(writer: &mut W, fault: &BuildFault) -> Result<(), EndFault>
    ensures sent { OnOk result (Appends (W.sent writer.old) (W.sent writer.new)
        (fault_line fault.now.screen fault.now.offset (build_cause fault.now.cause))) }
    ensures passed { OnOk result (W.passed writer.new ≡ true) }
    ensures mark { Marks (W.failed writer.old) (W.failed writer.new) result }
{
    send_numbered(writer, b"screen ", fault.screen)?;
    send_numbered(writer, b" offset ", fault.offset)?;
    send_all(writer, b": ")?;
    fault.cause.send(writer)?;
    end_line(writer)
}

/// Prints where and why a source is refused.
fn refuse_source<W: Output>(fault: BuildFault, writer: &mut W) -> Ended
    ensures printed { W.failed writer.new ≡ false →
        PrintsFault fault.screen fault.offset fault.cause result.status (W.sent writer.old) (W.sent writer.new) }
    ensures passed { W.failed writer.new ≡ false → W.passed writer.new ≡ true }
    ensures cut { W.failed writer.old ≡ false → W.failed writer.new ≡ true → result.status ≡ 5 }
    ensures status { IsRefusal result.status (W.failed writer.new) }
    ensures file { IsNone result.file }
{
    if fault.cause == Cause::OutOfMemory {
        return print_out_of_memory(writer);
    }
    let sent = send_fault(writer, &fault);
    ended(sent, 1)
}

/// Sends the line of an image that was made: `size S entry E`.
#[tactic(auto, using(inner_interpreter::proofs::Sending::appends_both))]
fn send_made<W: Output>(writer: &mut W, image: &Image) -> Result<(), EndFault>
    ensures sent { OnOk result (Appends (W.sent writer.old) (W.sent writer.new) (image_line image.now)) }
    ensures passed { OnOk result (W.passed writer.new ≡ true) }
    ensures mark { Marks (W.failed writer.old) (W.failed writer.new) result }
{
    send_all(writer, b"size ")?;
    send_decimal(writer, image.bytes().len())?;
    send_numbered(writer, b" entry ", image.entry())?;
    end_line(writer)
}

/// Prints `size S entry E`, and ends with the file of an image that was made.
pub fn end_with_made<W: Output>(alloc: Global, image: &Image, writer: &mut W) -> Ended
    ensures status { MatchOption result.file (0 < result.status) (λ _. result.status ≡ 0) }
    ensures told { W.failed writer.new ≡ false →
        IfSome result.file
        (λ file. IsFileOf image.now (image_line image.now) file.items (W.sent writer.old) (W.sent writer.new)) }
    ensures file { IfSome result.file (λ file. IsWritten file.items image.now) }
    ensures wanting { W.failed writer.new ≡ false → IsNone result.file →
        PrintsOutOfMemory result.status (W.sent writer.old) (W.sent writer.new) }
    ensures passed { W.failed writer.new ≡ false → W.passed writer.new ≡ true }
    ensures cut { W.failed writer.old ≡ false → W.failed writer.new ≡ true → (result.status ≡ 5) × IsNone result.file }
{
    let Ok(file) = image_loader::write(alloc, image) else {
        return print_out_of_memory(writer);
    };
    match send_made(writer, image) {
        Ok(()) => end_with_file(file),
        Err(_) => end_with(5),
    }
}

/// Builds the source in the screens from `from` to `to` to an image for so many block buffers, 2 to 16, and prints
/// `size S entry E`. Status 0, with the bytes of the image's file. Without a file 1: the source is refused (`screen S
/// offset O: CAUSE` is printed) or memory ran out; 5: a line can't be printed.
pub fn do_build<W: Output, D: Device>(
    alloc: Global,
    device: &mut D,
    from: u16,
    to: u16,
    buffers: u16,
    writer: &mut W,
) -> Ended
    requires { IsCount buffers }
    ensures status { MatchOption result.file (0 < result.status) (λ _. result.status ≡ 0) }
    // Whatever the device is, the file is that of the image of the pages that were read, each screen once, in order.
    ensures read { IfSome result.file (λ file.
        IsFileOfRead buffers (D.block_count device.old) from to file (D.calls device.old) (D.calls device.new)) }
    // For each disk as which the device did, the image is that of this disk's screens.
    ensures file { ForDevice D.Device device.old device.new (λ d done.
        IfSome result.file (IsBuiltFile buffers d from to done)) }
    // Whether a line can be printed or not, the device is as building the screens, or refusing them, leaves it.
    ensures device { ForDevice D.Device device.old device.new (λ d done.
        IsBuilding buffers d from to done) }
    // A device that reports its disk did as that disk.
    ensures like { (d : Disk) → D.disk device.old ≡ Some d →
        IsLike d (D.disk device.new) (D.block_count device.old) (D.calls device.old) (D.calls device.new) }
    // If there is a file, its line is printed; if there is none, it is printed why.
    ensures told { W.failed writer.new ≡ false →
        IfSome result.file (λ file. IsTold file.items (W.sent writer.old) (W.sent writer.new)) }
    ensures refused { W.failed writer.new ≡ false → IsNone result.file →
        ForDevice D.Device device.old device.new (λ d done.
        EndsUnbuilt buffers d from to done result.status (W.sent writer.old) (W.sent writer.new)) }
    // If a line can't be printed, there is no file.
    ensures passed { W.failed writer.new ≡ false → W.passed writer.new ≡ true }
    ensures cut { W.failed writer.old ≡ false → W.failed writer.new ≡ true → (result.status ≡ 5) × IsNone result.file }
{
    match build(alloc, device, from, to, buffers) {
        Ok(image) => end_with_made(alloc, &image, writer),
        Err(fault) => refuse_source(fault, writer),
    }
}

/// Sends a number on a line.
#[tactic(auto, using(inner_interpreter::proofs::Sending::appends_both))]
fn send_number<W: Output>(writer: &mut W, number: u16) -> Result<(), EndFault>
    ensures sent { OnOk result (Appends (W.sent writer.old) (W.sent writer.new) (as_line (decimal number))) }
    ensures passed { OnOk result (W.passed writer.new ≡ true) }
    ensures mark { Marks (W.failed writer.old) (W.failed writer.new) result }
{
    send_decimal(writer, number)?;
    end_line(writer)
}

/// Prints a number on a line.
fn print_number<W: Output>(number: u16, writer: &mut W) -> Ended
    ensures printed { W.failed writer.new ≡ false →
        Prints (as_line (decimal number)) 0 result.status (W.sent writer.old) (W.sent writer.new) }
    ensures passed { W.failed writer.new ≡ false → W.passed writer.new ≡ true }
    ensures cut { W.failed writer.old ≡ false → W.failed writer.new ≡ true → result.status ≡ 5 }
    ensures file { IsNone result.file }
{
    let sent = send_number(writer, number);
    ended(sent, 0)
}

/// Prints the number of the screen in which an image's word was made. Status 0; 1: the bytes are no image (`image: CAUSE` is
/// printed), the name isn't found (`NAME: CAUSE`) or memory ran out; 5: the line can't be printed.
pub fn do_view<W: Output>(alloc: Global, image: &[u8], name: &str, writer: &mut W) -> Ended
    // If the bytes are an image's file, the word's screen is printed, or why there is none.
    ensures viewed { W.failed writer.new ≡ false →
        OfImageFile image.now
        (λ file. EndsViewed file name.now result.status (W.sent writer.old) (W.sent writer.new)) }
    // If they are none, it is printed why.
    ensures refused { W.failed writer.new ≡ false →
        PrintsNoImage image.now result.status (W.sent writer.old) (W.sent writer.new) }
    ensures passed { W.failed writer.new ≡ false → W.passed writer.new ≡ true }
    ensures cut { W.failed writer.old ≡ false → W.failed writer.new ≡ true → result.status ≡ 5 }
    ensures file { IsNone result.file }
{
    let image = match image_loader::read(alloc, image) {
        Ok(image) => image,
        Err(fault) => return refuse_image(fault, writer),
    };
    let Ok(memory) = Memory::with_front(alloc, image.bytes()) else {
        return print_out_of_memory(writer);
    };
    match view(&memory, name.as_bytes()) {
        Ok(screen) => print_number(screen, writer),
        Err(why) => refuse(name, why, writer),
    }
}
