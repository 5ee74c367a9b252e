//! `build` and `upgrade`.

ghost use Rattle.std.specs.Prelude.{◌≡◌, ◌↔◌, false, true, IfSome};
ghost use Rattle.memory.specs.Bytes.{IsCount};
ghost use Rattle.file_subcommands.specs.Filed.{Builds, RefusesBuild, RefusesUpgrade, Upgrades};
ghost use Rattle.named_files.specs.Done.{IsPassedOn, status_of};
ghost use Rattle.named_files.specs.Begun.{Began, NotBegun};

use crate::screens::Screens;
use block_buffers::MemoryDevice;
use image_builder::{Cause, build};
use inner_interpreter::Output;
use named_files::{Ends, Files, Guards, Places, blocks_of, read_screen, write_made};
use subcommands::{Ended, do_build, do_upgrade};

/// A number of block buffers that an image may have. The command line has no other.
fn is_count(buffers: u16) -> bool
    ensures { (result ≡ true) ↔ IsCount buffers }
{
    (2..=16).contains(&buffers)
}

/// Whether an image may have so many block buffers, if a number is given.
fn may_be_wanted(buffers: Option<u16>) -> bool
    ensures { (result ≡ true) ↔ IfSome buffers IsCount }
{
    match buffers {
        Some(count) => is_count(count),
        None => true,
    }
}

/// Says on standard error where and why the source in the screens from the first to the last is refused, with that line of
/// the screen and a mark below the place: a copy of the blocks is built again. If it can't be found out, or can't be said, nothing is.
fn show_place<F: Files + Places>(
    files: &F,
    name: &str,
    blocks: &mut MemoryDevice,
    screens: (u16, u16),
    buffers: u16,
)
    requires { IsCount buffers }
{
    let (from, to) = screens;
    if let Err(fault) = build(files.alloc(), blocks, from, to, buffers) {
        match fault.cause {
            Cause::OutOfMemory => {}
            Cause::Device => files.say_missing(name, fault.screen),
            cause => {
                if let Some(bytes) = read_screen(files, name, blocks, fault.screen) {
                    files.show_line(name, (fault.screen, &bytes), fault.offset, cause);
                }
            }
        }
    }
}

/// What `build` names: the screens, the image that is made, and how many block buffers it has.
#[derive(Clone, Copy)]
pub struct Build<'a> {
    pub screens: Screens<'a>,
    pub image: &'a str,
    pub buffers: u16,
    /// Whether it is shown where a source is refused, also if standard error is no terminal.
    pub shows_place: bool,
}

/// What `upgrade` names: the image, the one that is made, and how many block buffers that has, if it is said.
#[derive(Clone, Copy)]
pub struct Upgrade<'a> {
    pub image: &'a str,
    pub out: &'a str,
    pub buffers: Option<u16>,
}

/// Builds the screens that `build` names, and writes the image. If it cannot begin, that is printed, and the status is the error.
pub fn build_image<F: Ends + Places, W: Output>(
    files: &mut F,
    writer: &mut W,
    build: Build<'_>,
) -> Result<u8, u8>
    ensures built { Began F.log W.Output files.old files.new writer.old writer.new result
        (Builds build.entry.screens.blocks.now build.entry.screens.from build.entry.screens.to build.entry.image.now build.entry.buffers) }
    ensures refused { NotBegun F.log W.Output files.old files.new writer.old writer.new result
        (RefusesBuild build.entry.screens.blocks.now build.entry.image.now build.entry.buffers) }
    ensures cut { W.failed writer.old ≡ false → W.failed writer.new ≡ true → status_of result ≡ 5 }
    ensures passed { IsPassedOn (status_of result) (W.failed writer.new) (W.passed writer.new) (W.sent writer.old) (W.sent writer.new) }
{
    let Build { image, buffers, .. } = build;
    if !is_count(buffers) {
        return Err(files.refuse_use("--buffers", "takes a number from 2 to 16"));
    }
    let Screens { blocks, from, to } = build.screens;
    files.keep_apart(blocks, image, "the blocks and the image")?;
    files.keep_image(image)?;
    files.keep_blocks(blocks)?;
    let mut device = files.read_alone(blocks)?;
    let Ended { status, file } = do_build(files.alloc(), &mut device, from, to, buffers, writer);
    let copy = if status == 1 && (build.shows_place || files.is_watched()) {
        blocks_of(files.alloc(), &mut device)
    } else {
        None
    };
    files.close_blocks(device);
    if let Some(mut copy) = copy {
        show_place(files, blocks, &mut copy, (from, to), buffers);
    }
    Ok(write_made(files, status, file, image))
}

/// Writes the image that `upgrade` names anew, for other block buffers. If it cannot begin, that is printed, and the status is the
/// error.
pub fn upgrade_image<F: Guards, W: Output>(
    files: &mut F,
    writer: &mut W,
    upgrade: Upgrade<'_>,
) -> Result<u8, u8>
    ensures upgraded { Began F.log W.Output files.old files.new writer.old writer.new result
        (Upgrades upgrade.entry.image.now upgrade.entry.out.now upgrade.entry.buffers) }
    ensures refused { NotBegun F.log W.Output files.old files.new writer.old writer.new result
        (RefusesUpgrade upgrade.entry.image.now upgrade.entry.out.now upgrade.entry.buffers) }
    ensures cut { W.failed writer.old ≡ false → W.failed writer.new ≡ true → status_of result ≡ 5 }
    ensures passed { IsPassedOn (status_of result) (W.failed writer.new) (W.passed writer.new) (W.sent writer.old) (W.sent writer.new) }
{
    let Upgrade {
        image,
        out,
        buffers,
    } = upgrade;
    if !may_be_wanted(buffers) {
        return Err(files.refuse_use("--buffers", "takes a number from 2 to 16"));
    }
    files.keep_image(out)?;
    let bytes = files.image_bytes(image)?;
    let Ended { status, file } = do_upgrade(files.alloc(), bytes.as_slice(), buffers, writer);
    Ok(write_made(files, status, file, out))
}
