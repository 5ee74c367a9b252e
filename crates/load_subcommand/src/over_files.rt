//! `load` over the files that the command line names.

ghost use Rattle.std.specs.Prelude.{◌≡◌, false, true};
ghost use Rattle.load_subcommand.specs.Files.{Loads, load_steps};
ghost use Rattle.named_files.specs.Done.{IsPassedOn, Refuses, status_of};
ghost use Rattle.named_files.specs.Begun.{Began, NotBegun};

use crate::load_command::do_load;
use block_buffers::{BLOCK_SIZE, Device, MemoryDevice};
use inner_interpreter::{LentMachine, Output};
use machine_parts::faults::{BAD_LENGTH, NOT_FOUND};
use memory::Memory;
use memory::system::{BLK, TO_IN};
use metacompiler::{LoadFault, load_on};
use named_files::{
    Ends, Files, Places, blocks_of, read_screen, word_before, word_behind, write_made,
};
use subcommands::Ended;

/// Where the word begins for which the screen stopped when the stream had come to `place`: a name that isn't found, or that
/// is too long, wasn't passed.
fn word_at_fault(screen: &[u8; BLOCK_SIZE], place: u16, cause: LoadFault) -> u16 {
    match cause {
        LoadFault::Fault(NOT_FOUND) | LoadFault::Fault(BAD_LENGTH) => word_behind(screen, place),
        _ => word_before(screen, place),
    }
}

/// Says on standard error where and why the image couldn't load the screens from the first to the last: it is tried again
/// with the blocks as they were before. If that isn't known, nothing is promised.
fn show_stop<F: Files + Places>(
    files: &F,
    name: &str,
    image: &[u8],
    blocks: &mut MemoryDevice,
    (from, to): (u16, u16),
    limit: u64,
) {
    let alloc = files.alloc();
    let Ok(image) = image_loader::read(alloc, image) else {
        return;
    };
    let Ok(mut memory) = Memory::with_front(alloc, image.bytes()) else {
        return;
    };
    let memory: &mut Memory = &mut memory;
    let mut machine = LentMachine::load(alloc, memory, &image, blocks.count());
    if let Err(cause) = load_on(&mut machine, alloc, blocks, image.entry(), from, to, limit) {
        let number = machine.memory().cell(BLK);
        if number == 0 {
            return;
        }
        if let Some(bytes) = read_screen(files, name, blocks, number) {
            let offset = word_at_fault(&bytes, machine.memory().cell(TO_IN), cause);
            files.show_line(name, (number, &bytes), offset, cause);
        }
    }
}

/// What `load` names: the image, the screens from the first to the last of a file of blocks, the image that is made, and the most
/// ticks.
#[derive(Clone, Copy)]
pub struct Load<'a> {
    pub image: &'a str,
    pub blocks: &'a str,
    pub from: u16,
    pub to: u16,
    pub out: &'a str,
    pub limit: u64,
    /// Whether it is shown where the screens stopped, also if standard error is no terminal.
    pub shows_place: bool,
}

/// Lets the image that `load` names compile screens, and writes the image that results. If that cannot begin, it is printed why, and
/// the status is the error.
pub fn load_screens<F: Ends + Places, W: Output>(
    files: &mut F,
    writer: &mut W,
    load: Load<'_>,
) -> Result<u8, u8>
    ensures loaded { Began F.log W.Output files.old files.new writer.old writer.new result
        (Loads load.entry.image.now load.entry.blocks.now load.entry.from load.entry.to load.entry.out.now load.entry.limit) }
    ensures refused { NotBegun F.log W.Output files.old files.new writer.old writer.new result
        (Refuses (load_steps load.entry.image.now load.entry.blocks.now load.entry.out.now)) }
    ensures cut { W.failed writer.old ≡ false → W.failed writer.new ≡ true → status_of result ≡ 5 }
    ensures passed { IsPassedOn (status_of result) (W.failed writer.new) (W.passed writer.new) (W.sent writer.old) (W.sent writer.new) }
{
    let Load {
        blocks,
        from,
        to,
        out,
        limit,
        ..
    } = load;
    files.keep_apart(blocks, out, "the blocks and the new image")?;
    files.keep_image(out)?;
    let bytes = files.image_bytes(load.image)?;
    let bytes = bytes.as_slice();
    let mut device = files.run_blocks(Some(blocks))?;
    let mut before = if load.shows_place || files.is_watched() {
        blocks_of(files.alloc(), &mut device)
    } else {
        None
    };
    let Ended { status, file } = do_load(
        files.alloc(),
        bytes,
        &mut device,
        from,
        to,
        limit,
        writer,
    );
    files.close_blocks(device);
    if let (1, Some(before)) = (status, &mut before) {
        show_stop(files, blocks, bytes, before, (from, to), limit);
    }
    Ok(write_made(files, status, file, out))
}
