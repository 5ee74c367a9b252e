//! `survey` over the files that the command line names.
#![tactic(auto)]

ghost use Rattle.std.specs.Prelude.{◌≡◌, ◌⊎◌, false, true, IsNone};
ghost use Rattle.named_files.specs.Done.{IsPassedOn, Refuses, status_of};
ghost use Rattle.named_files.specs.Begun.{Began, NotBegun};
ghost use Rattle.subcommands.specs.Lines.{OfImageFile, Prints, PrintsNoImage};
ghost use Rattle.survey_subcommand.specs.Surveyed.{EndsSurveyed, Surveys, survey_steps};

use forth_names::forth_names;
use inner_interpreter::{Output, send_all};
use memory::Memory;
use named_files::Guards;
use std::alloc::{AllocError, Global};
use subcommands::{Ended, end_with, print_out_of_memory, refuse_image};
use survey::{Asked, survey};

/// How many places of a word are listed, if not all are.
const SEVERAL: usize = 8;

/// What `survey` names: the image of the Forth for which the screens are, and the screens from the first to the last of a file of
/// blocks.
#[derive(Clone, Copy)]
pub struct Surveyed<'a> {
    pub image: &'a str,
    pub blocks: &'a str,
    pub from: u16,
    pub to: u16,
    /// Whether all places of a word are listed.
    pub lists_all: bool,
}

/// The report on screens of these blocks, for a Forth with this memory.
fn report(
    alloc: Global,
    memory: &Memory,
    blocks: &[u8],
    surveyed: Surveyed<'_>,
) -> Result<Vec<u8>, AllocError> {
    let known = forth_names(alloc, memory)?;
    let asked = Asked {
        name: surveyed.blocks.as_bytes(),
        blocks,
        first: usize::from(surveyed.from),
        last: usize::from(surveyed.to),
        known: known.as_slice(),
        most: if surveyed.lists_all {
            usize::MAX
        } else {
            SEVERAL
        },
    };
    Ok(survey(alloc, asked)?.text)
}

/// Prints a report.
fn print_report<W: Output>(text: &[u8], writer: &mut W) -> Ended
    ensures printed { W.failed writer.new ≡ false → Prints text.now 0 result.status (W.sent writer.old) (W.sent writer.new) }
    ensures passed { W.failed writer.new ≡ false → W.passed writer.new ≡ true }
    ensures cut { W.failed writer.old ≡ false → W.failed writer.new ≡ true → result.status ≡ 5 }
    ensures file { IsNone result.file }
{
    if send_all(writer, text).is_err() || writer.flush().is_err() {
        return end_with(5);
    }
    end_with(0)
}

/// Prints the report on screens of these blocks, for the Forth of an image. Status 0; 1: the bytes are no image (`image: CAUSE` is
/// printed), or memory ran out; 5: the report can't be printed.
fn do_survey<W: Output>(
    alloc: Global,
    image: &[u8],
    blocks: &[u8],
    surveyed: Surveyed<'_>,
    writer: &mut W,
) -> Ended
    ensures printed { W.failed writer.new ≡ false →
        OfImageFile image.now (λ _. EndsSurveyed result.status (W.sent writer.old) (W.sent writer.new)) }
    ensures refused { W.failed writer.new ≡ false →
        PrintsNoImage image.now result.status (W.sent writer.old) (W.sent writer.new) }
    ensures passed { W.failed writer.new ≡ false → W.passed writer.new ≡ true }
    ensures cut { W.failed writer.old ≡ false → W.failed writer.new ≡ true → result.status ≡ 5 }
    ensures file { IsNone result.file }
{
    let image = match image_loader::read(alloc, image) {
        Ok(image) => image,
        Err(fault) => return refuse_image(fault, writer),
    };
    let Ok(memory) = Memory::with_front(alloc, image.bytes()) else {
        return print_out_of_memory(writer);
    };
    match report(alloc, &memory, blocks, surveyed) {
        Ok(text) => print_report(text.as_slice(), writer),
        Err(_) => print_out_of_memory(writer),
    }
}

/// Reports on the screens that `survey` names. If it cannot begin, that is printed, and the status is the error.
pub fn survey_screens<F: Guards, W: Output>(
    files: &mut F,
    writer: &mut W,
    surveyed: Surveyed<'_>,
) -> Result<u8, u8>
    ensures surveyed { Began F.log W.Output files.old files.new writer.old writer.new result
        (Surveys surveyed.entry.image.now surveyed.entry.blocks.now) }
    ensures refused { NotBegun F.log W.Output files.old files.new writer.old writer.new result
        (Refuses (survey_steps surveyed.entry.image.now surveyed.entry.blocks.now)) }
    ensures cut { W.failed writer.old ≡ false → W.failed writer.new ≡ true → status_of result ≡ 5 }
    ensures passed { IsPassedOn (status_of result) (W.failed writer.new) (W.passed writer.new) (W.sent writer.old) (W.sent writer.new) }
{
    let image = files.image_bytes(surveyed.image)?;
    files.keep_blocks(surveyed.blocks)?;
    let blocks = files.file_bytes(surveyed.blocks)?;
    let ended = do_survey(
        files.alloc(),
        image.as_slice(),
        blocks.as_slice(),
        surveyed,
        writer,
    );
    Ok(ended.status)
}
