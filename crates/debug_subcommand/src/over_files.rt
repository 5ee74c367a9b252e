//! `debug` over the files that the command line names.

ghost use Rattle.std.specs.Prelude.{◌≡◌, false, true};
ghost use Rattle.debug_subcommand.specs.Files.{Debugs, RefusesDebug, apart_from};
ghost use Rattle.named_files.specs.Asking.{AnswersAll, given};
ghost use Rattle.named_files.specs.Done.{IsPassedOn, status_of};
ghost use Rattle.named_files.specs.Begun.{Began, NotBegun};

use crate::debug_command::do_debug;
use inner_interpreter::Output;
use named_files::{Ends, Guards};

/// Sees to it that the trace isn't written over the blocks, if the run has some.
#[tactic(auto, unfolding(named_files::specs::Asking::Asks))]
fn keep_blocks_apart<F: Guards>(files: &mut F, blocks: Option<&str>, trace: &str) -> Result<(), u8>
    ensures asked { AnswersAll (apart_from trace.now (given blocks.entry)) result (F.log files.old).asked (F.log files.new).asked }
    ensures files { (F.log files.new).files ≡ (F.log files.old).files }
{
    match blocks {
        Some(file) => files.keep_apart(file, trace, "the blocks and the trace"),
        None => Ok(()),
    }
}

/// What `debug` names: the image, the word, the file of the trace, the blocks, if there are some, and the most ticks.
#[derive(Clone, Copy)]
pub struct Debugged<'a> {
    pub image: &'a str,
    pub name: &'a str,
    pub trace: &'a str,
    pub blocks: Option<&'a str>,
    pub limit: u64,
}

/// Opens what `debug` names, and runs the image with a trace of the word. If nothing is run, no new trace is left. If the run cannot
/// begin, it is printed why, and the status is the error.
pub fn debug_word<F: Ends, W: Output>(
    files: &mut F,
    writer: &mut W,
    debugged: Debugged<'_>,
) -> Result<u8, u8>
    ensures debugged { Began F.log W.Output files.old files.new writer.old writer.new result
        (Debugs debugged.entry.image.now debugged.entry.name.now debugged.entry.trace.now (given debugged.entry.blocks) debugged.entry.limit) }
    ensures refused { NotBegun F.log W.Output files.old files.new writer.old writer.new result
        (RefusesDebug debugged.entry.image.now debugged.entry.trace.now (given debugged.entry.blocks)) }
    ensures cut { W.failed writer.old ≡ false → W.failed writer.new ≡ true → status_of result ≡ 5 }
    ensures passed { IsPassedOn (status_of result) (W.failed writer.new) (W.passed writer.new) (W.sent writer.old) (W.sent writer.new) }
{
    let Debugged {
        image,
        name,
        trace,
        blocks,
        limit,
    } = debugged;
    files.keep_apart(image, trace, "the image and the trace")?;
    keep_blocks_apart(files, blocks, trace)?;
    files.keep_trace(trace)?;
    let bytes = files.image_bytes(image)?;
    let mut reader = files.input()?;
    let (mut device, mut lines) = files.run_traced(blocks, trace)?;
    let ended = do_debug(
        files.alloc(),
        bytes.as_slice(),
        name,
        &mut device,
        limit,
        &mut reader,
        writer,
        &mut lines,
    );
    files.close_input(reader);
    files.close_blocks(device);
    files.close_trace(trace, lines, ended.status == 1);
    Ok(ended.status)
}
