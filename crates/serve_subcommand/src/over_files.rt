//! `serve` over the files that the command line names, and standard input and output.

ghost use Rattle.std.specs.Prelude.{◌≡◌, false, true};
ghost use Rattle.named_files.specs.Asking.{given};
ghost use Rattle.named_files.specs.Done.{IsPassedOn, Refuses, status_of};
ghost use Rattle.named_files.specs.Begun.{Began, NotBegun};
ghost use Rattle.serve_subcommand.specs.Files.{ServesFiles, serve_steps};

use crate::serve_command::do_serve;
use inner_interpreter::Output;
use named_files::Ends;

/// Opens what `serve` names, and serves the requests of a host over it. If it cannot start, the reason is printed, and the status is the
/// error.
pub fn serve_image<F: Ends, W: Output>(
    files: &mut F,
    writer: &mut W,
    image: &str,
    blocks: Option<&str>,
) -> Result<u8, u8>
    ensures served { W.failed writer.old ≡ false → Began F.log W.Output files.old files.new writer.old writer.new result
        (ServesFiles image.now (given blocks.entry)) }
    ensures cut { W.failed writer.old ≡ false → W.failed writer.new ≡ true → status_of result ≡ 5 }
    ensures passed { IsPassedOn (status_of result) (W.failed writer.new) (W.passed writer.new) (W.sent writer.old) (W.sent writer.new) }
    ensures refused { NotBegun F.log W.Output files.old files.new writer.old writer.new result
        (Refuses (serve_steps image.now (given blocks.entry))) }
{
    let bytes = files.image_bytes(image)?;
    let mut reader = files.input()?;
    let mut device = files.run_blocks(blocks)?;
    let ended = do_serve(
        files.alloc(),
        bytes.as_slice(),
        &mut device,
        &mut reader,
        writer,
    );
    files.close_input(reader);
    files.close_blocks(device);
    Ok(ended.status)
}
