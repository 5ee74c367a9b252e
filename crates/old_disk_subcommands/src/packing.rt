//! `pack`.

ghost use Rattle.std.specs.Prelude.{◌≡◌, ◌<◌, false, true, MatchOption, length};
ghost use Rattle.named_files.specs.Done.{IsPassedOn, status_of};
ghost use Rattle.named_files.specs.Begun.{Began, NotBegun};
ghost use Rattle.old_disk_subcommands.specs.Unpacked.{Packs, PrintsSome, PrintsWhy, RefusesPack};

use crate::options::{OldDisk, options_of};
use crate::refusing::{is_said, refuse_disk, refuse_unread};
use disk_volumes::{Unreadable, is_tracks};
use inner_interpreter::Output;
use named_files::{Guards, write_made};
use old_disks::{Options, Remark, pack};
use std::alloc::{AllocError, Global};
use subcommands::{Ended, end_with, print_out_of_memory};

/// What is said of a container that was written.
fn remarks(alloc: Global, remark: Option<Remark>) -> Result<String, AllocError> {
    match remark {
        Some(remark) => format!(in alloc; "{remark}\n"),
        None => Ok(String::new(alloc)),
    }
}

/// Writes blocks into the bytes of a container. Status 0, with the bytes of the container. Without a file 1: they are not written
/// (`container: SENTENCE` is printed) or memory ran out; 5: that can't be printed.
fn do_pack<W: Output>(
    alloc: Global,
    options: &Options,
    blocks: &[u8],
    container: &[u8],
    writer: &mut W,
) -> Ended
    ensures file { MatchOption result.file (0 < result.status)
        (λ file. (result.status ≡ 0) × (length file.items ≡ length container.now)) }
    ensures printed { W.failed writer.new ≡ false → result.status ≡ 0 → PrintsSome (W.sent writer.old) (W.sent writer.new) }
    ensures refused { W.failed writer.new ≡ false → 0 < result.status → PrintsWhy result.status (W.sent writer.old) (W.sent writer.new) }
    ensures passed { W.failed writer.new ≡ false → W.passed writer.new ≡ true }
    ensures cut { W.failed writer.old ≡ false → W.failed writer.new ≡ true → result.status ≡ 5 }
{
    if let Some(tracks) = is_tracks(container) {
        return refuse_unread(alloc, &Unreadable::ReadOnly(tracks), writer);
    }
    let packed = match pack(alloc, blocks, container, options) {
        Ok(packed) => packed,
        Err(why) => return refuse_disk(alloc, &why, writer),
    };
    let Ok(text) = remarks(alloc, packed.remark) else {
        return print_out_of_memory(writer);
    };
    if !is_said(text.as_bytes(), writer) {
        return end_with(5);
    }
    Ended {
        status: 0,
        file: Some(packed.container),
    }
}

/// Writes the container that `pack` names with the screens of the blocks in it. If it cannot begin, that is printed, and the status is the
/// error.
pub fn pack_disk<F: Guards, W: Output>(
    files: &mut F,
    writer: &mut W,
    disk: OldDisk<'_>,
) -> Result<u8, u8>
    ensures packed { Began F.log W.Output files.old files.new writer.old writer.new result
        (Packs disk.entry.blocks.now disk.entry.container.now) }
    ensures refused { NotBegun F.log W.Output files.old files.new writer.old writer.new result
        (RefusesPack disk.entry.blocks.now disk.entry.container.now disk.entry.format.now) }
    ensures cut { W.failed writer.old ≡ false → W.failed writer.new ≡ true → status_of result ≡ 5 }
    ensures passed { IsPassedOn (status_of result) (W.failed writer.new) (W.passed writer.new) (W.sent writer.old) (W.sent writer.new) }
{
    let OldDisk {
        container,
        blocks,
        ..
    } = disk;
    let options = options_of(files, disk)?;
    files.keep_apart(blocks, container, "the blocks and the container")?;
    files.keep_blocks(blocks)?;
    files.keep_blocks(container)?;
    let screens = files.file_bytes(blocks)?;
    files.hold(container)?;
    let old = files.file_bytes(container)?;
    let Ended { status, file } = do_pack(
        files.alloc(),
        &options,
        screens.as_slice(),
        old.as_slice(),
        writer,
    );
    Ok(write_made(files, status, file, container))
}
