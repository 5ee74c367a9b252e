//! `import` and `export`.

ghost use Rattle.std.specs.Prelude.{◌≡◌, ◌⊎◌, ◌<◌, false, true, Some, None, Err, option_map, IfErr, IfOk, IfSome, IsNone, IsSome, OnOk, MatchOption};
ghost use Rattle.containers.specs.Containers.{new_container};
ghost use Rattle.file_subcommands.specs.Filed.{AreNumbers, Exports, Imports, IsExported, IsWantedLayout, PrintsNoContainer, PrintsUnexported, RefusesExport, RefusesImport, RefusesLayout, RefusesSkew, items_of, numbers_in, wanted_of};
ghost use Rattle.named_files.specs.Done.{IsPassedOn, done, status_of};
ghost use Rattle.named_files.specs.Begun.{Began};
ghost use Rattle.subcommands.specs.Ends.{IsRefusal};

use crate::screens::MOST_BLOCKS;
use containers::{Cause, Layout, named, new_container};
use inner_interpreter::Output;
use named_files::{Files, Guards, write_made};
use std::alloc::Global;
use subcommands::{Ended, do_export, do_import, print_out_of_memory, refuse_container};

/// How many bytes a block has.
const BLOCK_BYTES: usize = 1024;

/// A container, a file of blocks, and how screens lie in the container.
#[derive(Clone, Copy)]
pub struct Disk<'a> {
    pub container: &'a str,
    pub blocks: &'a str,
    /// The name of the format.
    pub format: &'a str,
    /// Numbers in place of the format's own. Commas separate those of a skew.
    pub offset: Option<u32>,
    pub sector: Option<u16>,
    pub skew: Option<&'a str>,
}

/// The numbers of a text that separates them with commas. The error: one is no number of 16 bits (`true`), or memory ran out.
fn numbers_of(alloc: Global, text: &str) -> Result<Vec<usize>, bool>
    ensures numbers { IfOk result (λ numbers. numbers.items ≡ numbers_in (Some text.now)) }
    ensures none { result ≡ Err true → ¬ AreNumbers (Some text.now) }
{
    let mut numbers = Vec::new(alloc);
    for number in text.split(',') {
        let Ok(number) = number.parse::<u16>() else {
            return Err(true);
        };
        if numbers.push(usize::from(number)).is_err() {
            return Err(false);
        }
    }
    Ok(numbers)
}

/// The numbers of a skew, or none if it is not given. If one is no number of 16 bits, that is printed, and the status is the error.
fn skew_of<F: Files>(files: &mut F, skew: Option<&str>) -> Result<Vec<usize>, u8>
    ensures numbers { IfOk result (λ numbers. numbers.items ≡ numbers_in (option_map (λ text. text.now) skew.entry)) }
    ensures same { OnOk result (files.new ≡ files.old) }
    ensures files { (F.log files.new).files ≡ (F.log files.old).files }
    ensures refused { IfErr result (λ status.
        RefusesSkew (option_map (λ text. text.now) skew.entry) status (F.log files.old).asked (F.log files.new).asked) }
{
    let Some(skew) = skew else {
        return Ok(Vec::new(files.alloc()));
    };
    match numbers_of(files.alloc(), skew) {
        Ok(numbers) => Ok(numbers),
        Err(true) => Err(files.refuse_use(
            "--skew",
            "takes numbers from 0 to 65535, with commas between them",
        )),
        Err(false) => Err(files.out_of_memory()),
    }
}

/// How screens lie in the container. If nothing can lie so, it is printed why, and the status is the error.
fn layout_of<F: Files, W: Output>(
    files: &mut F,
    writer: &mut W,
    disk: Disk<'_>,
) -> Result<Layout, u8>
    ensures wanted { IfOk result (IsWantedLayout (wanted_of disk.entry)) }
    ensures silent { OnOk result (writer.new ≡ writer.old) }
    ensures same { OnOk result (files.new ≡ files.old) }
    ensures refused { IfErr result (λ status. RefusesLayout (wanted_of disk.entry) status (W.failed writer.new)
        (done (F.log files.old) (W.sent writer.old)) (done (F.log files.new) (W.sent writer.new))) }
    ensures cut { W.failed writer.old ≡ false → W.failed writer.new ≡ true → IfErr result (λ status. status ≡ 5) }
    ensures passed { IfErr result (λ _. W.failed writer.new ≡ false → (W.passed writer.new ≡ true) ⊎ (writer.new ≡ writer.old)) }
{
    let Some(format) = named(disk.format) else {
        return Err(files.refuse_use(
            disk.format,
            "is no format; docs/OLD-SOURCES.md has them all",
        ));
    };
    let sector = disk.sector.map(usize::from);
    let skew = skew_of(files, disk.skew)?;
    match format.layout(files.alloc(), disk.offset, sector, skew.as_slice()) {
        Ok(layout) => Ok(layout),
        Err(why) => Err(refuse_container(why, writer).status),
    }
}

/// Writes the new file of blocks that `import` names; one that exists is left alone. `cleans`: what is read is made text. If it
/// cannot begin, that is printed, and the status is the error.
pub fn import_screens<F: Guards, W: Output>(
    files: &mut F,
    writer: &mut W,
    disk: Disk<'_>,
    cleans: bool,
) -> Result<u8, u8>
    ensures imported { Began F.log W.Output files.old files.new writer.old writer.new result
        (Imports (wanted_of disk.entry) cleans) }
    ensures refused { IfErr result (λ status. RefusesImport (wanted_of disk.entry) status (W.failed writer.new)
        (done (F.log files.old) (W.sent writer.old)) (done (F.log files.new) (W.sent writer.new))) }
    ensures cut { W.failed writer.old ≡ false → W.failed writer.new ≡ true → status_of result ≡ 5 }
    ensures passed { IsPassedOn (status_of result) (W.failed writer.new) (W.passed writer.new) (W.sent writer.old) (W.sent writer.new) }
{
    let Disk {
        container,
        blocks,
        ..
    } = disk;
    let layout = layout_of(files, writer, disk)?;
    files.keep_absent(blocks)?;
    let bytes = files.file_bytes(container)?;
    let Ended { status, file } = do_import(
        files.alloc(),
        &layout,
        bytes.as_slice(),
        cleans,
        writer,
    );
    Ok(write_made(files, status, file, blocks))
}

/// The bytes of the container: those that it has, or else those of a new one for so many bytes of screens. If these are too many, or
/// memory runs out, that is printed, and how the program ends is the error.
fn container_for<W: Output>(
    alloc: Global,
    writer: &mut W,
    layout: &Layout,
    before: Option<Vec<u8>>,
    bytes: usize,
) -> Result<Vec<u8>, Ended>
    ensures made { IfOk result (λ container. MatchOption before (container.items ≡ new_container layout.now bytes) (λ old. container ≡ old)) }
    ensures silent { OnOk result (writer.new ≡ writer.old) }
    ensures new { IfErr result (λ ended. (before ≡ None) × (ended.file ≡ None) × IsRefusal ended.status (W.failed writer.new)) }
    ensures refused { IfErr result (λ ended. W.failed writer.new ≡ false →
        PrintsNoContainer bytes ended.status (W.sent writer.old) (W.sent writer.new)) }
    ensures cut { W.failed writer.old ≡ false → W.failed writer.new ≡ true → IfErr result (λ ended. ended.status ≡ 5) }
    ensures passed { IfErr result (λ _. W.failed writer.new ≡ false → W.passed writer.new ≡ true) }
{
    if let Some(before) = before {
        return Ok(before);
    }
    if bytes > BLOCK_BYTES * MOST_BLOCKS as usize {
        return Err(refuse_container(Cause::TooLarge, writer));
    }
    match new_container(alloc, layout, bytes) {
        Ok(container) => Ok(container),
        Err(_) => Err(print_out_of_memory(writer)),
    }
}

/// Writes screens into the bytes of a container, or of a new one.
fn exported<W: Output>(
    alloc: Global,
    writer: &mut W,
    layout: &Layout,
    screens: &[u8],
    before: Option<Vec<u8>>,
) -> Ended
    ensures file { MatchOption result.file (0 < result.status)
        (λ file. (result.status ≡ 0) × IsExported layout.now screens.now (items_of before) file.items) }
    ensures silent { IsSome result.file → writer.new ≡ writer.old }
    ensures refused { W.failed writer.new ≡ false → IsNone result.file →
        PrintsUnexported layout.now screens.now (items_of before) result.status (W.sent writer.old) (W.sent writer.new) }
    ensures cut { W.failed writer.old ≡ false → W.failed writer.new ≡ true → (result.status ≡ 5) × IsNone result.file }
    ensures passed { W.failed writer.new ≡ false → IsNone result.file → W.passed writer.new ≡ true }
{
    match container_for(alloc, writer, layout, before, screens.len()) {
        Ok(container) => do_export(alloc, layout, screens, container, writer),
        Err(ended) => ended,
    }
}

/// Writes the container that `export` names: the old one with the screens of the blocks, or a new one. If it cannot begin, that is
/// printed, and the status is the error.
pub fn export_screens<F: Guards, W: Output>(
    files: &mut F,
    writer: &mut W,
    disk: Disk<'_>,
) -> Result<u8, u8>
    ensures exported { Began F.log W.Output files.old files.new writer.old writer.new result
        (Exports (wanted_of disk.entry)) }
    ensures refused { IfErr result (λ status. RefusesExport (wanted_of disk.entry) status (W.failed writer.new)
        (done (F.log files.old) (W.sent writer.old)) (done (F.log files.new) (W.sent writer.new))) }
    ensures cut { W.failed writer.old ≡ false → W.failed writer.new ≡ true → status_of result ≡ 5 }
    ensures passed { IsPassedOn (status_of result) (W.failed writer.new) (W.passed writer.new) (W.sent writer.old) (W.sent writer.new) }
{
    let Disk {
        container,
        blocks,
        ..
    } = disk;
    let layout = layout_of(files, writer, disk)?;
    files.keep_apart(blocks, container, "the blocks and the container")?;
    files.keep_blocks(blocks)?;
    files.keep_blocks(container)?;
    let screens = files.file_bytes(blocks)?;
    files.hold(container)?;
    let before = files.old_file(container)?;
    let Ended { status, file } = exported(
        files.alloc(),
        writer,
        &layout,
        screens.as_slice(),
        before,
    );
    Ok(write_made(files, status, file, container))
}
