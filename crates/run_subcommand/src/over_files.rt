//! `run` over the files that the command line names, and standard input and output.

ghost use Rattle.std.specs.Prelude.{◌≡◌, false, true};
ghost use Rattle.named_files.specs.Asking.{given};
ghost use Rattle.named_files.specs.Done.{IsPassedOn, Refuses, status_of};
ghost use Rattle.named_files.specs.Begun.{Began, NotBegun};
ghost use Rattle.run_subcommand.specs.Files.{Runs, run_steps};

use crate::run_command::do_run;
use inner_interpreter::Output;
use named_files::Ends;

/// What `run` names: the image, the blocks, if there are some, and the most ticks.
#[derive(Clone, Copy)]
pub struct Run<'a> {
    pub image: &'a str,
    pub blocks: Option<&'a str>,
    pub limit: u64,
}

/// Opens what `run` names, and runs the image over it, and over standard input. If it cannot start, the reason is printed, and the
/// status is the error.
pub fn run_image<F: Ends, W: Output>(files: &mut F, writer: &mut W, run: Run<'_>) -> Result<u8, u8>
    ensures ran { W.failed writer.old ≡ false → Began F.log W.Output files.old files.new writer.old writer.new result
        (Runs run.entry.image.now (given run.entry.blocks) run.entry.limit) }
    ensures cut { W.failed writer.old ≡ false → W.failed writer.new ≡ true → status_of result ≡ 5 }
    ensures passed { IsPassedOn (status_of result) (W.failed writer.new) (W.passed writer.new) (W.sent writer.old) (W.sent writer.new) }
    ensures refused { NotBegun F.log W.Output files.old files.new writer.old writer.new result
        (Refuses (run_steps run.entry.image.now (given run.entry.blocks))) }
{
    let Run { image, blocks, .. } = run;
    let bytes = files.image_bytes(image)?;
    let mut reader = files.input()?;
    let mut device = files.run_blocks(blocks)?;
    let ended = do_run(
        files.alloc(),
        bytes.as_slice(),
        &mut device,
        run.limit,
        &mut reader,
        writer,
    );
    files.close_input(reader);
    files.close_blocks(device);
    Ok(ended.status)
}
