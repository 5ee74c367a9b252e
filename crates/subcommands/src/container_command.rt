//! The subcommands that read the screens of a container, and write screens into one.

ghost use Rattle.std.specs.Prelude.{◌≡◌, ◌≢◌, ◌<◌, codes, IfErr, IfOk, IsNone, IsSome, MatchOption, None, unwrap_or, false, true};
ghost use Rattle.containers.specs.Containers.{IsWritten, unread, unwritten};
ghost use Rattle.containers.specs.declared.cause.Cause.{Cause};
ghost use Rattle.subcommands.specs.Disks.{PrintsCause, PrintsUnread, IsImported, container_cause};
ghost use Rattle.subcommands.specs.Ends.{IsRefusal};

use crate::causes::Reason;
use crate::commands::{Ended, end_with_file, print_out_of_memory, refuse};
use crate::sends::send_numbered;
use containers::{Cause, Layout, clean, read_screens, write_screens};
use inner_interpreter::{EndFault, Output, send_all};
use std::alloc::Global;

impl Reason for Cause {
    ghost spelling = { λ c. container_cause c };

    fn send<W: Output>(&self, writer: &mut W) -> Result<(), EndFault> {
        match *self {
            Cause::BadSector => send_all(writer, b"BadSector"),
            Cause::BadSkew => send_all(writer, b"BadSkew"),
            Cause::CutShort => send_all(writer, b"CutShort"),
            Cause::TooLarge => send_all(writer, b"TooLarge"),
            Cause::NoEnding(at) => send_numbered(writer, b"NoEnding ", at),
            Cause::CutBlock => send_all(writer, b"CutBlock"),
            Cause::NoRoom => send_all(writer, b"NoRoom"),
            Cause::OutOfMemory => send_all(writer, b"out of memory"),
        }
    }
}

/// Prints why a container isn't read or written: `container: CAUSE`, or `out of memory`.
#[tactic(auto, using(crate::proofs::Refusing::cause_printed, crate::proofs::Refusing::memory_printed))]
pub fn refuse_container<W: Output>(why: Cause, writer: &mut W) -> Ended
    ensures printed { W.failed writer.new ≡ false →
        PrintsCause why result.status (W.sent writer.old) (W.sent writer.new) }
    ensures passed { W.failed writer.new ≡ false → W.passed writer.new ≡ true }
    ensures cut { W.failed writer.old ≡ false → W.failed writer.new ≡ true → result.status ≡ 5 }
    ensures status { IsRefusal result.status (W.failed writer.new) }
    ensures file { IsNone result.file }
{
    if why == Cause::OutOfMemory {
        return print_out_of_memory(writer);
    }
    refuse("container", why, writer)
}

/// The screens of a container, made text if that is wanted.
fn imported(
    alloc: Global,
    layout: &Layout,
    container: &[u8],
    cleans: bool,
) -> Result<Vec<u8>, Cause>
    ensures screens { IfOk result (λ v. IsImported layout.now container.now cleans v.items) }
    ensures cause { IfErr result (λ why. why ≡ unwrap_or (unread layout.now container.now) Cause.OutOfMemory) }
{
    let mut screens = read_screens(alloc, layout, container)?;
    if cleans {
        clean(screens.as_mut_slice());
    }
    Ok(screens)
}

/// Reads the screens of a container as the bytes of a file of blocks, made text if that is wanted. Status 0, with these bytes. Without a file 1: the
/// container isn't read (`container: CAUSE` is printed) or memory ran out; 5: that can't be printed.
#[tactic(auto, using(crate::proofs::Refusing::unread_printed))]
pub fn do_import<W: Output>(
    alloc: Global,
    layout: &Layout,
    container: &[u8],
    cleans: bool,
    writer: &mut W,
) -> Ended
    ensures file { MatchOption result.file (0 < result.status)
        (λ file. (result.status ≡ 0) × IsImported layout.now container.now cleans file.items) }
    // Beside the file nothing is printed; if there is none, it is printed why.
    ensures silent { IsSome result.file → writer.new ≡ writer.old }
    ensures refused { W.failed writer.new ≡ false → IsNone result.file →
        PrintsUnread (unread layout.now container.now) result.status (W.sent writer.old) (W.sent writer.new) }
    ensures passed { W.failed writer.new ≡ false → IsNone result.file → W.passed writer.new ≡ true }
    ensures cut { W.failed writer.old ≡ false → W.failed writer.new ≡ true → (result.status ≡ 5) × IsNone result.file }
{
    match imported(alloc, layout, container, cleans) {
        Ok(screens) => end_with_file(screens),
        Err(why) => refuse_container(why, writer),
    }
}

/// Writes the bytes of a file of blocks into those of a container, if all else stays. Status 0, with the bytes of the
/// container. Without a file 1: they aren't written (`container: CAUSE` is printed); 5: that can't be printed.
#[tactic(auto, using(crate::proofs::Refusing::unwritten_printed))]
pub fn do_export<W: Output>(
    alloc: Global,
    layout: &Layout,
    screens: &[u8],
    container: Vec<u8>,
    writer: &mut W,
) -> Ended
    ensures file { MatchOption result.file (0 < result.status)
        (λ file. (result.status ≡ 0) × IsWritten layout.now screens.now container.items file.items) }
    // A file is made unless something is wrong.
    ensures done { unwritten layout.now screens.now container.items ≡ None → IsSome result.file }
    // Beside the file nothing is printed; if there is none, it is printed why.
    ensures silent { IsSome result.file → writer.new ≡ writer.old }
    ensures refused { W.failed writer.new ≡ false → IsNone result.file →
        PrintsUnread (unwritten layout.now screens.now container.items) result.status (W.sent writer.old) (W.sent writer.new) }
    ensures passed { W.failed writer.new ≡ false → IsNone result.file → W.passed writer.new ≡ true }
    ensures cut { W.failed writer.old ≡ false → W.failed writer.new ≡ true → (result.status ≡ 5) × IsNone result.file }
{
    match write_screens(layout, screens, container) {
        Ok(written) => end_with_file(written),
        Err(why) => refuse_container(why, writer),
    }
}
