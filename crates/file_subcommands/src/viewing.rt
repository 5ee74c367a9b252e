//! `see` and `view`.

ghost use Rattle.std.specs.Prelude.{◌≡◌, true, false};
ghost use Rattle.file_subcommands.specs.Filed.{Sees, Views, image_steps};
ghost use Rattle.named_files.specs.Done.{IsPassedOn, Refuses, status_of};
ghost use Rattle.named_files.specs.Begun.{Began, NotBegun};

use inner_interpreter::Output;
use named_files::Files;
use subcommands::{do_see, do_view};

/// Prints in which screen the word that `view` names was made. If it cannot begin, that is printed, and the status is the error.
pub fn view_word<F: Files, W: Output>(
    files: &mut F,
    writer: &mut W,
    image: &str,
    name: &str,
) -> Result<u8, u8>
    ensures viewed { Began F.log W.Output files.old files.new writer.old writer.new result
        (Views image.now name.now) }
    ensures refused { NotBegun F.log W.Output files.old files.new writer.old writer.new result
        (Refuses (image_steps image.now)) }
    ensures cut { W.failed writer.old ≡ false → W.failed writer.new ≡ true → status_of result ≡ 5 }
    ensures passed { IsPassedOn (status_of result) (W.failed writer.new) (W.passed writer.new) (W.sent writer.old) (W.sent writer.new) }
{
    let bytes = files.image_bytes(image)?;
    Ok(do_view(files.alloc(), bytes.as_slice(), name, writer).status)
}

/// Shows the definition of the word that `see` names. If it cannot begin, that is printed, and the status is the error.
pub fn see_word<F: Files, W: Output>(
    files: &mut F,
    writer: &mut W,
    image: &str,
    name: &str,
) -> Result<u8, u8>
    ensures seen { Began F.log W.Output files.old files.new writer.old writer.new result
        (Sees image.now name.now) }
    ensures refused { NotBegun F.log W.Output files.old files.new writer.old writer.new result
        (Refuses (image_steps image.now)) }
    ensures cut { W.failed writer.old ≡ false → W.failed writer.new ≡ true → status_of result ≡ 5 }
    ensures passed { IsPassedOn (status_of result) (W.failed writer.new) (W.passed writer.new) (W.sent writer.old) (W.sent writer.new) }
{
    let bytes = files.image_bytes(image)?;
    Ok(do_see(files.alloc(), bytes.as_slice(), name, writer).status)
}
