//! The subcommands that print screens as text, and write a text into a block file.

ghost use Rattle.std.specs.Prelude.{◌≡◌, ◌≢◌, ◌<◌, ◌≤◌, ◌+◌, ◌-◌, ◌*◌, IfOk, IsNone, IsSome, MatchOption, OnOk, Some, false, true};
ghost use Rattle.std.specs.Io.KnownBytes.{Appends};
ghost use Rattle.block_buffers.specs.Calls.{KeepsBlocks};
ghost use Rattle.block_buffers.specs.Disks.{Disk};
ghost use Rattle.block_buffers.specs.Likeness.{IsLike};
ghost use Rattle.image_builder.specs.Sources.{ForDevice};
ghost use Rattle.device_text.specs.declared.pages.PageCause.{PageCause};
ghost use Rattle.screen_text.specs.Reading.{read};
ghost use Rattle.subcommands.specs.Kernel.{blanks};
ghost use Rattle.screen_text.specs.declared.cause.Cause.{Cause};
ghost use Rattle.inner_interpreter.specs.Ends.{Marks};
ghost use Rattle.subcommands.specs.Ends.{IsRefusal};
ghost use Rattle.subcommands.specs.Lines.{Prints, PrintsOutOfMemory};
ghost use Rattle.subcommands.specs.Texts.{EndsHeadings, EndsText, EndsUnwritten, HasPrinted, HasScreens, numbered_line, page_cause, screen_line, text_cause};

use crate::causes::Reason;
use crate::commands::{Ended, end_with_file, print, print_out_of_memory};
use crate::sends::{end_line, ended, send_decimal, send_numbered};
use block_buffers::{BLOCK_SIZE, Device};
use device_text::{PageCause, Unprinted, pages_text};
use inner_interpreter::{EndFault, Output, send_all};
use screen_text::{Cause, TextFault, list_headings, put_screens, read_text};
use std::alloc::{AllocError, Global};

impl Reason for PageCause {
    ghost spelling = { λ c. page_cause c };

    fn send<W: Output>(&self, writer: &mut W) -> Result<(), EndFault> {
        match *self {
            PageCause::Device => send_all(writer, b"Device"),
            PageCause::OutOfMemory => send_all(writer, b"out of memory"),
        }
    }
}

impl Reason for Cause {
    ghost spelling = { λ c. text_cause c };

    fn send<W: Output>(&self, writer: &mut W) -> Result<(), EndFault> {
        match *self {
            Cause::BadByte(byte) => send_numbered(writer, b"BadByte ", u16::from(byte)),
            Cause::BadEscape => send_all(writer, b"BadEscape"),
            Cause::LongLine => send_all(writer, b"LongLine"),
            Cause::FullScreen => send_all(writer, b"FullScreen"),
            Cause::BadHeading => send_all(writer, b"BadHeading"),
            Cause::LateHeading => send_all(writer, b"LateHeading"),
            Cause::NamedTwice => send_all(writer, b"NamedTwice"),
            Cause::NoScreen => send_all(writer, b"NoScreen"),
            Cause::OutOfMemory => send_all(writer, b"out of memory"),
        }
    }
}

/// Sends where and why screens aren't printed: `screen S line L: CAUSE`.
#[tactic(auto, using(inner_interpreter::proofs::Sending::appends_both))]
fn send_unprinted<W: Output>(writer: &mut W, why: &Unprinted) -> Result<(), EndFault>
    ensures sent { OnOk result (Appends (W.sent writer.old) (W.sent writer.new)
        (screen_line why.now.screen why.now.line (page_cause why.now.cause))) }
    ensures passed { OnOk result (W.passed writer.new ≡ true) }
    ensures mark { Marks (W.failed writer.old) (W.failed writer.new) result }
{
    send_numbered(writer, b"screen ", why.screen)?;
    send_all(writer, b" line ")?;
    send_decimal(writer, why.line)?;
    send_all(writer, b": ")?;
    why.cause.send(writer)?;
    end_line(writer)
}

/// Prints where and why screens aren't printed.
fn refuse_page<W: Output>(why: Unprinted, writer: &mut W) -> Ended
    ensures printed { W.failed writer.new ≡ false → why.cause ≢ PageCause.OutOfMemory →
        Prints (screen_line why.screen why.line (page_cause why.cause)) 1 result.status (W.sent writer.old)
        (W.sent writer.new) }
    ensures wanting { W.failed writer.new ≡ false → why.cause ≡ PageCause.OutOfMemory →
        PrintsOutOfMemory result.status (W.sent writer.old) (W.sent writer.new) }
    ensures passed { W.failed writer.new ≡ false → W.passed writer.new ≡ true }
    ensures cut { W.failed writer.old ≡ false → W.failed writer.new ≡ true → result.status ≡ 5 }
    ensures status { IsRefusal result.status (W.failed writer.new) }
    ensures file { IsNone result.file }
{
    if why.cause == PageCause::OutOfMemory {
        return print_out_of_memory(writer);
    }
    let sent = send_unprinted(writer, &why);
    ended(sent, 1)
}

/// Prints the screens from `from` to `to` as text. Status 0; 1: a screen can't be read
/// (`screen S line 0: Device` is printed, and nothing else), or memory ran out; 5: the text can't be printed.
pub fn do_text<W: Output, D: Device>(
    alloc: Global,
    device: &mut D,
    from: u16,
    to: u16,
    writer: &mut W,
) -> Ended
    // Whatever the device is: with status 0 the text of the pages that were read is printed, each screen once, in order.
    ensures read { W.failed writer.new ≡ false → result.status ≡ 0 →
        HasPrinted from (to + 1 - from) (D.block_count device.old) (D.calls device.old) (D.calls device.new)
        (W.sent writer.old) (W.sent writer.new) }
    // For each disk as which the device did, the text, or the refusal, is that of this disk's screens.
    ensures printed { W.failed writer.new ≡ false →
        ForDevice D.Device device.old device.new
        (λ d _. EndsText d from to result.status (W.sent writer.old) (W.sent writer.new)) }
    // A device that reports its disk did as that disk.
    ensures like { (d : Disk) → D.disk device.old ≡ Some d →
        IsLike d (D.disk device.new) (D.block_count device.old) (D.calls device.old) (D.calls device.new) }
    ensures passed { W.failed writer.new ≡ false → W.passed writer.new ≡ true }
    ensures cut { W.failed writer.old ≡ false → W.failed writer.new ≡ true → result.status ≡ 5 }
    // The device's blocks stay as they were.
    ensures kept { KeepsBlocks (D.disk device.old) (D.disk device.new) }
    ensures file { IsNone result.file }
{
    match pages_text(alloc, device, from, to) {
        Ok(text) => print(writer, text.as_slice(), 0),
        Err(why) => refuse_page(why, writer),
    }
}

/// Sends where and why a text isn't written: `line L: CAUSE`.
#[tactic(auto, using(inner_interpreter::proofs::Sending::appends_both))]
fn send_unwritten<W: Output>(writer: &mut W, fault: &TextFault) -> Result<(), EndFault>
    ensures sent { OnOk result (Appends (W.sent writer.old) (W.sent writer.new)
        (numbered_line fault.now.line (text_cause fault.now.cause))) }
    ensures passed { OnOk result (W.passed writer.new ≡ true) }
    ensures mark { Marks (W.failed writer.old) (W.failed writer.new) result }
{
    send_all(writer, b"line ")?;
    send_decimal(writer, fault.line)?;
    send_all(writer, b": ")?;
    fault.cause.send(writer)?;
    end_line(writer)
}

/// Prints where and why a text isn't written.
fn refuse_text<W: Output>(fault: TextFault, writer: &mut W) -> Ended
    ensures printed { W.failed writer.new ≡ false → fault.cause ≢ Cause.OutOfMemory →
        Prints (numbered_line fault.line (text_cause fault.cause)) 1 result.status (W.sent writer.old)
        (W.sent writer.new) }
    ensures wanting { W.failed writer.new ≡ false → fault.cause ≡ Cause.OutOfMemory →
        PrintsOutOfMemory result.status (W.sent writer.old) (W.sent writer.new) }
    ensures passed { W.failed writer.new ≡ false → W.passed writer.new ≡ true }
    ensures cut { W.failed writer.old ≡ false → W.failed writer.new ≡ true → result.status ≡ 5 }
    ensures status { IsRefusal result.status (W.failed writer.new) }
    ensures file { IsNone result.file }
{
    if fault.cause == Cause::OutOfMemory {
        return print_out_of_memory(writer);
    }
    let sent = send_unwritten(writer, &fault);
    ended(sent, 1)
}

/// Writes the screens of a text into the bytes of a block file: those that the text names, and no other; it grows with
/// blanks if it must. Status 0, with the bytes of the new file. Without a file 1: the text is refused (`line L: CAUSE` is
/// printed) or memory ran out; 5: that can't be printed.
pub fn do_screens<W: Output>(alloc: Global, blocks: Vec<u8>, text: &[u8], writer: &mut W) -> Ended
    ensures file { MatchOption result.file (0 < result.status)
        (λ file. (result.status ≡ 0) × HasScreens (read text.now) blocks.items file.items) }
    // Beside the file nothing is printed; if there is none, it is printed why.
    ensures silent { IsSome result.file → writer.new ≡ writer.old }
    ensures refused { W.failed writer.new ≡ false → IsNone result.file →
        EndsUnwritten (read text.now) result.status (W.sent writer.old) (W.sent writer.new) }
    ensures passed { W.failed writer.new ≡ false → IsNone result.file → W.passed writer.new ≡ true }
    ensures cut { W.failed writer.old ≡ false → W.failed writer.new ≡ true → (result.status ≡ 5) × IsNone result.file }
{
    let screens = match read_text(alloc, text) {
        Ok(screens) => screens,
        Err(fault) => return refuse_text(fault, writer),
    };
    match put_screens(blocks, &screens) {
        Ok(file) => end_with_file(file),
        Err(_) => print_out_of_memory(writer),
    }
}

/// Prints the headings of a text, each as a line: the number of its screen, and that of its line. Status 0; 1: memory ran out; 5: they can't be printed.
pub fn do_headings<W: Output>(alloc: Global, text: &[u8], writer: &mut W) -> Ended
    ensures printed { W.failed writer.new ≡ false →
        EndsHeadings text.now result.status (W.sent writer.old) (W.sent writer.new) }
    ensures passed { W.failed writer.new ≡ false → W.passed writer.new ≡ true }
    ensures cut { W.failed writer.old ≡ false → W.failed writer.new ≡ true → result.status ≡ 5 }
    ensures file { IsNone result.file }
{
    match list_headings(alloc, text) {
        Ok(listing) => print(writer, listing.as_slice(), 0),
        Err(_) => print_out_of_memory(writer),
    }
}

/// Blank blocks.
#[tactic(auto, unfolding(crate::specs::Kernel::blanks))]
fn blank_blocks(alloc: Global, count: u32) -> Result<Vec<u8>, AllocError>
    requires { count ≤ 65536 }
    ensures { IfOk result (λ file. file.items ≡ blanks (1024 * count)) }
{
    vec![in alloc; b' '; BLOCK_SIZE * count as usize]
}

/// Makes a block file of `count` blank screens. Status 0; without a file 1, if memory ran out, or 5, if that can't be
/// printed.
pub fn do_new<W: Output>(alloc: Global, count: u32, writer: &mut W) -> Ended
    requires { count ≤ 65536 }
    ensures file { MatchOption result.file (0 < result.status)
        (λ file. (result.status ≡ 0) × (file.items ≡ blanks (1024 * count))) }
    // Beside the file nothing is printed; if there is none, that memory ran out.
    ensures silent { IsSome result.file → writer.new ≡ writer.old }
    ensures wanting { W.failed writer.new ≡ false → IsNone result.file →
        PrintsOutOfMemory result.status (W.sent writer.old) (W.sent writer.new) }
    ensures passed { W.failed writer.new ≡ false → IsNone result.file → W.passed writer.new ≡ true }
    ensures cut { W.failed writer.old ≡ false → W.failed writer.new ≡ true → (result.status ≡ 5) × IsNone result.file }
{
    match blank_blocks(alloc, count) {
        Ok(file) => end_with_file(file),
        Err(_) => print_out_of_memory(writer),
    }
}
