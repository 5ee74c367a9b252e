//! `kernel`, `text`, `screens`, `headings` and `new`.

ghost use Rattle.std.specs.Prelude.{◌≡◌, true, false};
ghost use Rattle.file_subcommands.specs.Filed.{ListsHeadings, MakesKernel, MakesNew, MakesScreens, Prints, RefusesNew, headings_steps, kernel_steps, screens_steps, text_steps};
ghost use Rattle.named_files.specs.Done.{IsPassedOn, Refuses, status_of};
ghost use Rattle.named_files.specs.Begun.{Began, NotBegun};

use inner_interpreter::Output;
use named_files::{Ends, Files, Guards, write_made};
use subcommands::{Ended, do_headings, do_kernel, do_new, do_screens, do_text};

/// How many blocks a file has at most.
pub const MOST_BLOCKS: u32 = 65536;

/// Screens of a file of blocks, one after another.
#[derive(Clone, Copy)]
pub struct Screens<'a> {
    pub blocks: &'a str,
    pub from: u16,
    pub to: u16,
}

/// Writes the new file that `kernel` names. If it cannot begin, that is printed, and the status is the error.
pub fn write_kernel<F: Guards, W: Output>(
    files: &mut F,
    writer: &mut W,
    blocks: &str,
) -> Result<u8, u8>
    ensures made { Began F.log W.Output files.old files.new writer.old writer.new result
        (MakesKernel blocks.now) }
    ensures refused { NotBegun F.log W.Output files.old files.new writer.old writer.new result
        (Refuses (kernel_steps blocks.now)) }
    ensures cut { W.failed writer.old ≡ false → W.failed writer.new ≡ true → status_of result ≡ 5 }
    ensures passed { IsPassedOn (status_of result) (W.failed writer.new) (W.passed writer.new) (W.sent writer.old) (W.sent writer.new) }
{
    files.hold(blocks)?;
    let Ended { status, file } = do_kernel(files.alloc(), writer);
    Ok(write_made(files, status, file, blocks))
}

/// Prints the screens that `text` names. If it cannot begin, that is printed, and the status is the error.
pub fn print_text<F: Ends, W: Output>(
    files: &mut F,
    writer: &mut W,
    screens: Screens<'_>,
) -> Result<u8, u8>
    ensures printed { Began F.log W.Output files.old files.new writer.old writer.new result
        (Prints screens.entry.blocks.now screens.entry.from screens.entry.to) }
    ensures refused { NotBegun F.log W.Output files.old files.new writer.old writer.new result
        (Refuses (text_steps screens.entry.blocks.now)) }
    ensures cut { W.failed writer.old ≡ false → W.failed writer.new ≡ true → status_of result ≡ 5 }
    ensures passed { IsPassedOn (status_of result) (W.failed writer.new) (W.passed writer.new) (W.sent writer.old) (W.sent writer.new) }
{
    let Screens { blocks, from, to } = screens;
    files.keep_blocks(blocks)?;
    let mut device = files.read_alone(blocks)?;
    let ended = do_text(files.alloc(), &mut device, from, to, writer);
    files.close_blocks(device);
    Ok(ended.status)
}

/// Writes the screens of the text that `screens` names. A text isn't written over by its screens. If it cannot begin, that is
/// printed, and the status is the error.
pub fn write_screens<F: Guards, W: Output>(
    files: &mut F,
    writer: &mut W,
    text: &str,
    blocks: &str,
) -> Result<u8, u8>
    ensures made { Began F.log W.Output files.old files.new writer.old writer.new result
        (MakesScreens text.now blocks.now) }
    ensures refused { NotBegun F.log W.Output files.old files.new writer.old writer.new result
        (Refuses (screens_steps text.now blocks.now)) }
    ensures cut { W.failed writer.old ≡ false → W.failed writer.new ≡ true → status_of result ≡ 5 }
    ensures passed { IsPassedOn (status_of result) (W.failed writer.new) (W.passed writer.new) (W.sent writer.old) (W.sent writer.new) }
{
    files.keep_apart(text, blocks, "the text and the blocks")?;
    let bytes = files.file_bytes(text)?;
    files.keep_blocks(blocks)?;
    files.hold(blocks)?;
    let old = files.old_blocks(blocks)?;
    let Ended { status, file } = do_screens(files.alloc(), old, bytes.as_slice(), writer);
    Ok(write_made(files, status, file, blocks))
}

/// Prints the headings of the text that `headings` names. If it cannot begin, that is printed, and the status is the error.
pub fn print_headings<F: Files, W: Output>(
    files: &mut F,
    writer: &mut W,
    text: &str,
) -> Result<u8, u8>
    ensures listed { Began F.log W.Output files.old files.new writer.old writer.new result
        (ListsHeadings text.now) }
    ensures refused { NotBegun F.log W.Output files.old files.new writer.old writer.new result
        (Refuses (headings_steps text.now)) }
    ensures cut { W.failed writer.old ≡ false → W.failed writer.new ≡ true → status_of result ≡ 5 }
    ensures passed { IsPassedOn (status_of result) (W.failed writer.new) (W.passed writer.new) (W.sent writer.old) (W.sent writer.new) }
{
    let bytes = files.file_bytes(text)?;
    Ok(do_headings(files.alloc(), bytes.as_slice(), writer).status)
}

/// Writes the new file that `new` names; one that exists is left alone. If it cannot begin, that is printed, and the status is the
/// error.
pub fn write_new<F: Guards, W: Output>(
    files: &mut F,
    writer: &mut W,
    blocks: &str,
    count: u32,
) -> Result<u8, u8>
    ensures made { Began F.log W.Output files.old files.new writer.old writer.new result
        (MakesNew blocks.now count) }
    ensures refused { NotBegun F.log W.Output files.old files.new writer.old writer.new result
        (RefusesNew blocks.now count) }
    ensures cut { W.failed writer.old ≡ false → W.failed writer.new ≡ true → status_of result ≡ 5 }
    ensures passed { IsPassedOn (status_of result) (W.failed writer.new) (W.passed writer.new) (W.sent writer.old) (W.sent writer.new) }
{
    if count > MOST_BLOCKS {
        return Err(files.refuse_use("a file", "has at most 65536 blocks"));
    }
    files.keep_absent(blocks)?;
    let Ended { status, file } = do_new(files.alloc(), count, writer);
    Ok(write_made(files, status, file, blocks))
}
