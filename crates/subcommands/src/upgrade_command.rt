//! `upgrade`.

ghost use Rattle.std.specs.Prelude.{◌≡◌, ◌↔◌, ◌<◌, IsTrue, false, true, length, IsNone, IfSome, MatchOption, OnOk};
ghost use Rattle.std.specs.Io.KnownBytes.{Appends};
ghost use Rattle.inner_interpreter.specs.Ends.{Marks};
ghost use Rattle.memory.specs.Bytes.{IsCount};
ghost use Rattle.subcommands.specs.Ends.{IsRefusal};
ghost use Rattle.subcommands.specs.Lines.{HasRoom, IsOfImage, IsTooLarge, IsUpgraded, OfImageFile, PrintsNoImage, PrintsOutOfMemory, PrintsTooLarge, upgrade_line, upgraded};

use crate::commands::{Ended, end_with, end_with_file, print_out_of_memory, refuse, refuse_image};
use crate::sends::{end_line, send_decimal, send_numbered};
use image_loader::{Image, ImageFault, UpgradeFault, upgrade};
use inner_interpreter::{EndFault, Output, send_all};
use memory::limit_of;
use std::alloc::Global;

/// Sends the line of an image that was upgraded: `size S buffers N`.
#[tactic(auto, using(inner_interpreter::proofs::Sending::appends_both))]
fn send_upgraded<W: Output>(writer: &mut W, image: &Image) -> Result<(), EndFault>
    ensures sent { OnOk result (Appends (W.sent writer.old) (W.sent writer.new) (upgrade_line image.now)) }
    ensures passed { OnOk result (W.passed writer.new ≡ true) }
    ensures mark { Marks (W.failed writer.old) (W.failed writer.new) result }
{
    send_all(writer, b"size ")?;
    send_decimal(writer, image.bytes().len())?;
    send_numbered(writer, b" buffers ", image.buffers())?;
    end_line(writer)
}

/// Prints why there is no image for so many buffers.
fn refuse_upgrade<W: Output>(fault: UpgradeFault, writer: &mut W) -> Ended
    ensures too_large { W.failed writer.new ≡ false → fault ≡ UpgradeFault.TooLarge →
        PrintsTooLarge result.status (W.sent writer.old) (W.sent writer.new) }
    ensures out_of_memory { W.failed writer.new ≡ false → fault ≡ UpgradeFault.OutOfMemory →
        PrintsOutOfMemory result.status (W.sent writer.old) (W.sent writer.new) }
    ensures passed { W.failed writer.new ≡ false → W.passed writer.new ≡ true }
    ensures cut { W.failed writer.old ≡ false → W.failed writer.new ≡ true → result.status ≡ 5 }
    ensures status { IsRefusal result.status (W.failed writer.new) }
    ensures file { IsNone result.file }
{
    match fault {
        UpgradeFault::OutOfMemory => print_out_of_memory(writer),
        UpgradeFault::TooLarge => refuse("image", UpgradeFault::TooLarge, writer),
    }
}

/// Whether bytes were refused for lack of memory alone: then they are an image's file.
fn wants_memory(fault: ImageFault) -> bool
    ensures { IsTrue result ↔ (fault ≡ ImageFault.OutOfMemory) }
{
    matches!(fault, ImageFault::OutOfMemory)
}

/// The size of the image of which these bytes are the file, by what is before its bytes: sixteen, and fourteen in version 1.
fn size_in(file: &[u8]) -> usize
    requires { IsOfImage file.now }
    ensures { OfImageFile file.now (λ image. result ≡ length image.bytes) }
{
    if file[8] == 1 {
        file.len() - 14
    } else {
        file.len() - 16
    }
}

/// Prints why an image that no memory was found to read isn't upgraded: it is too large, or for lack of memory.
fn refuse_unread<W: Output>(file: &[u8], buffers: Option<u16>, writer: &mut W) -> Ended
    requires file { IsOfImage file.now }
    requires buffers { IfSome buffers (λ count. IsCount count) }
    ensures too_large { W.failed writer.new ≡ false →
        OfImageFile file.now (λ old. IsTooLarge old buffers →
        PrintsTooLarge result.status (W.sent writer.old) (W.sent writer.new)) }
    ensures out_of_memory { W.failed writer.new ≡ false →
        OfImageFile file.now (λ old. HasRoom old buffers →
        PrintsOutOfMemory result.status (W.sent writer.old) (W.sent writer.new)) }
    ensures passed { W.failed writer.new ≡ false → W.passed writer.new ≡ true }
    ensures cut { W.failed writer.old ≡ false → W.failed writer.new ≡ true → result.status ≡ 5 }
    ensures status { IsRefusal result.status (W.failed writer.new) }
    ensures file { IsNone result.file }
{
    match buffers {
        Some(count) if size_in(file) > usize::from(limit_of(count)) => refuse_upgrade(
            UpgradeFault::TooLarge,
            writer,
        ),
        _ => refuse_upgrade(UpgradeFault::OutOfMemory, writer),
    }
}

/// Prints `size S buffers N`, and ends with the file of an image.
fn end_with_upgraded<W: Output>(alloc: Global, image: &Image, writer: &mut W) -> Ended
    ensures status { MatchOption result.file (0 < result.status) (λ _. result.status ≡ 0) }
    ensures told { W.failed writer.new ≡ false →
        IfSome result.file (λ file. IsUpgraded file.items image.now (W.sent writer.old) (W.sent writer.new)) }
    ensures wanting { W.failed writer.new ≡ false → IsNone result.file →
        PrintsOutOfMemory result.status (W.sent writer.old) (W.sent writer.new) }
    ensures passed { W.failed writer.new ≡ false → W.passed writer.new ≡ true }
    ensures cut { W.failed writer.old ≡ false → W.failed writer.new ≡ true → (result.status ≡ 5) × IsNone result.file }
{
    let Ok(file) = image_loader::write(alloc, image) else {
        return print_out_of_memory(writer);
    };
    match send_upgraded(writer, image) {
        Ok(()) => end_with_file(file),
        Err(_) => end_with(5),
    }
}

/// Makes of an image's file the file of the same image for other block buffers, 2 to 16 of them, or for as many as it has,
/// and prints `size S buffers N`. Status 0, with the bytes of the new file, which are of version 2. Without a file 1: the
/// bytes are no image (`image: CAUSE` is printed), they reach beyond where so many buffers begin (`image: TooLarge`), or
/// memory ran out; 5: the line can't be printed.
pub fn do_upgrade<W: Output>(
    alloc: Global,
    image: &[u8],
    buffers: Option<u16>,
    writer: &mut W,
) -> Ended
    requires { IfSome buffers (λ count. IsCount count) }
    ensures status { MatchOption result.file (0 < result.status) (λ _. result.status ≡ 0) }
    // If the bytes are an image's file, the new one is that of the same entry and bytes; if these reach too far, that
    // is printed; and else that memory ran out.
    ensures upgraded { W.failed writer.new ≡ false →
        OfImageFile image.now
        (λ old.
        IfSome result.file
        (λ file. IsUpgraded file.items (upgraded old buffers) (W.sent writer.old) (W.sent writer.new))) }
    ensures too_large { W.failed writer.new ≡ false →
        OfImageFile image.now (λ old. IsTooLarge old buffers →
        PrintsTooLarge result.status (W.sent writer.old) (W.sent writer.new)) }
    ensures wanting { W.failed writer.new ≡ false → IsNone result.file →
        OfImageFile image.now (λ old. HasRoom old buffers →
        PrintsOutOfMemory result.status (W.sent writer.old) (W.sent writer.new)) }
    // If they are none, it is printed why.
    ensures refused { W.failed writer.new ≡ false →
        PrintsNoImage image.now result.status (W.sent writer.old) (W.sent writer.new) }
    ensures passed { W.failed writer.new ≡ false → W.passed writer.new ≡ true }
    ensures cut { W.failed writer.old ≡ false → W.failed writer.new ≡ true → (result.status ≡ 5) × IsNone result.file }
{
    let image = match image_loader::read(alloc, image) {
        Ok(image) => image,
        Err(fault) if wants_memory(fault) => return refuse_unread(image, buffers, writer),
        Err(fault) => return refuse_image(fault, writer),
    };
    let count = buffers.unwrap_or(image.buffers());
    match upgrade(alloc, &image, count) {
        Ok(image) => end_with_upgraded(alloc, &image, writer),
        Err(fault) => refuse_upgrade(fault, writer),
    }
}
