//! `unpack`.

ghost use Rattle.std.specs.Prelude.{◌≡◌, ◌<◌, [], false, true, IfOk, MatchOption};
ghost use Rattle.named_files.specs.Asking.{AnswersAll};
ghost use Rattle.named_files.specs.Done.{IsPassedOn, status_of};
ghost use Rattle.named_files.specs.Begun.{Began, NotBegun};
ghost use Rattle.old_disk_subcommands.specs.Unpacked.{IsGrown, PrintsSome, PrintsWhy, RefusesUnpack, Unpacks, before_steps, grown, read_before};

use crate::options::{Unpacking, asked_for, options_of, with_records};
use crate::refusing::{is_said, refuse_disk, refuse_unread};
use disk_volumes::{Asked, Tracks, read_disk};
use inner_interpreter::Output;
use named_files::{Guards, write_made};
use old_disks::{Options, Refusal, Unpacked, unpack};
use std::alloc::{AllocError, Global};
use subcommands::{Ended, end_with, print_out_of_memory};

/// How many bytes a block has.
const BLOCK_BYTES: usize = 1024;

/// How many bytes a file of blocks has at most.
const MOST_BYTES: usize = 65536 * BLOCK_BYTES;

/// The blocks that come before those that are read: none, if the file of this name is new, or else its own. If it can't be so, that is
/// printed, and the status is the error.
#[tactic(auto, unfolding(named_files::specs::Asking::Asks))]
fn blocks_before<F: Guards>(files: &mut F, blocks: &str, appends: bool) -> Result<Vec<u8>, u8>
    ensures asked { AnswersAll (before_steps blocks.now appends) result (F.log files.old).asked (F.log files.new).asked }
    ensures read { IfOk result (λ before. (F.log files.new).files ≡ read_before blocks.now appends before.items (F.log files.old).files) }
    ensures none { IfOk result (λ before. appends ≡ false → before.items ≡ []) }
    ensures written { (F.log files.new).files.written ≡ (F.log files.old).files.written }
{
    if appends {
        files.keep_blocks(blocks)?;
        files.hold(blocks)?;
        return files.old_blocks(blocks);
    }
    files.keep_absent(blocks)?;
    Ok(Vec::new(files.alloc()))
}

/// Blocks, with others after them, of which the first has at least this number; blank ones are between them.
fn grown(before: Vec<u8>, unpacked: &Unpacked) -> Result<Vec<u8>, AllocError>
    ensures { IfOk result (λ file. file.items ≡ grown before.items unpacked.now.first unpacked.now.blocks.items) }
{
    let mut file = before;
    let begin = unpacked.first.saturating_mul(BLOCK_BYTES);
    if file.len() < begin {
        file.resize(begin, b' ')?;
    }
    file.extend_from_slice(unpacked.blocks.as_slice())?;
    Ok(file)
}

/// The names of a container and of the file of blocks that is made of it.
#[derive(Clone, Copy)]
struct Names<'a> {
    container: &'a str,
    blocks: &'a str,
}

/// What is said of blocks that were read: of the tracks that they come from, and of their numbers if the first is not 0.
fn remarks(
    alloc: Global,
    names: Names<'_>,
    tracks: Option<Tracks>,
    unpacked: &Unpacked,
    last: usize,
) -> Result<String, AllocError> {
    let count = unpacked.blocks.len() / BLOCK_BYTES;
    let first = last.saturating_sub(count.saturating_sub(1));
    let mut text = String::new(alloc);
    if let Some(tracks) = tracks {
        let container = names.container;
        text.push_str(format!(in alloc;
            "{container} is {tracks}; its sectors are taken in the order of their numbers\n"
        )?.as_str())?;
    }
    if let Some(remark) = unpacked.remark {
        text.push_str(format!(in alloc; "{remark}\n")?.as_str())?;
    }
    if first > 0 {
        let name = names.blocks;
        text.push_str(format!(in alloc;
            "{name} has them as screens {first} to {last}\n"
        )?.as_str())?;
    }
    Ok(text)
}

/// Reads the blocks of a container, or of a file that its directory names, as those of a file, after those that it has before. Status 0, with the bytes of the file. Without a file
/// 1: the container is not read (`container: SENTENCE` is printed) or memory ran out; 5: that can't be printed.
#[tactic(auto, using(crate::proofs::Growing::grows))]
fn do_unpack<W: Output>(
    alloc: Global,
    options: &Options,
    container: &[u8],
    asked: Asked<'_>,
    names: Names<'_>,
    before: Vec<u8>,
    writer: &mut W,
) -> Ended
    ensures file { MatchOption result.file (0 < result.status)
        (λ file. (result.status ≡ 0) × IsGrown before.items file.items) }
    ensures printed { W.failed writer.new ≡ false → result.status ≡ 0 → PrintsSome (W.sent writer.old) (W.sent writer.new) }
    ensures refused { W.failed writer.new ≡ false → 0 < result.status → PrintsWhy result.status (W.sent writer.old) (W.sent writer.new) }
    ensures passed { W.failed writer.new ≡ false → W.passed writer.new ≡ true }
    ensures cut { W.failed writer.old ≡ false → W.failed writer.new ≡ true → result.status ≡ 5 }
{
    let read = match read_disk(alloc, container, asked) {
        Ok(read) => read,
        Err(why) => return refuse_unread(alloc, &why, writer),
    };
    let unpacked = match unpack(alloc, read.bytes.as_slice(), options) {
        Ok(unpacked) => unpacked,
        Err(why) => return refuse_disk(alloc, &why, writer),
    };
    let Ok(file) = grown(before, &unpacked) else {
        return print_out_of_memory(writer);
    };
    if file.len() > MOST_BYTES {
        return refuse_disk(alloc, &Refusal::TooLarge, writer);
    }
    let last = (file.len() / BLOCK_BYTES).saturating_sub(1);
    let Ok(text) = remarks(alloc, names, read.tracks, &unpacked, last) else {
        return print_out_of_memory(writer);
    };
    if !is_said(text.as_bytes(), writer) {
        return end_with(5);
    }
    Ended {
        status: 0,
        file: Some(file),
    }
}

/// Writes the file of blocks that `unpack` names: a new one, or an old one with more blocks. If it cannot begin, that is printed, and the
/// status is the error.
pub fn unpack_disk<F: Guards, W: Output>(
    files: &mut F,
    writer: &mut W,
    unpacking: Unpacking<'_>,
) -> Result<u8, u8>
    ensures unpacked { Began F.log W.Output files.old files.new writer.old writer.new result
        (Unpacks unpacking.entry.disk.container.now unpacking.entry.disk.blocks.now unpacking.entry.appends) }
    ensures refused { NotBegun F.log W.Output files.old files.new writer.old writer.new result
        (RefusesUnpack unpacking.entry.disk.container.now unpacking.entry.disk.blocks.now unpacking.entry.disk.format.now unpacking.entry.appends) }
    ensures cut { W.failed writer.old ≡ false → W.failed writer.new ≡ true → status_of result ≡ 5 }
    ensures passed { IsPassedOn (status_of result) (W.failed writer.new) (W.passed writer.new) (W.sent writer.old) (W.sent writer.new) }
{
    let disk = unpacking.disk;
    let plain = options_of(files, disk)?;
    let options = with_records(plain, unpacking);
    let before = blocks_before(files, disk.blocks, unpacking.appends)?;
    let bytes = files.file_bytes(disk.container)?;
    let Ended { status, file } = do_unpack(
        files.alloc(),
        &options,
        bytes.as_slice(),
        asked_for(unpacking),
        Names {
            container: disk.container,
            blocks: disk.blocks,
        },
        before,
        writer,
    );
    Ok(write_made(files, status, file, disk.blocks))
}
