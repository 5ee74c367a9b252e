//! `guess`.

ghost use Rattle.std.specs.Prelude.{◌≡◌, ◌⊎◌, false, true, IsNone};
ghost use Rattle.named_files.specs.Done.{IsPassedOn, Refuses, status_of};
ghost use Rattle.named_files.specs.Begun.{Began, NotBegun};
ghost use Rattle.subcommands.specs.Lines.{Prints};
ghost use Rattle.old_disk_subcommands.specs.Guessed.{EndsGuessed, Guesses, guess_steps};

use crate::refusing::refuse_unread;
use disk_volumes::{Unreadable, list_files, sectors_of};
use inner_interpreter::{Output, send_all};
use named_files::Files;
use old_disks::{better_order, show_likeness, show_orders};
use std::alloc::Global;
use subcommands::{Ended, end_with};

/// What `guess` names.
#[derive(Clone, Copy)]
pub struct Guess<'a> {
    pub disk: &'a str,
    /// Whether only an order is printed that looks clearly better than as it is.
    pub is_better: bool,
    /// Whether only a score is printed.
    pub is_score: bool,
    /// Whether it is printed what the file is, and the names of its files.
    pub lists_files: bool,
}

/// What is printed of a disk. Refused if it has no directory that is to be listed, its tracks are damaged, or memory runs out.
fn report(alloc: Global, disk: &[u8], guess: Guess<'_>) -> Result<String, Unreadable> {
    if guess.lists_files {
        return list_files(alloc, disk);
    }
    if guess.is_score {
        return Ok(show_likeness(alloc, disk)?);
    }
    let sectors = sectors_of(alloc, disk)?;
    if guess.is_better {
        return Ok(better_order(alloc, sectors.bytes.as_slice())?);
    }
    Ok(show_orders(alloc, sectors.bytes.as_slice())?)
}

/// Prints a text.
fn print_report<W: Output>(text: &[u8], writer: &mut W) -> Ended
    ensures printed { W.failed writer.new ≡ false → Prints text.now 0 result.status (W.sent writer.old) (W.sent writer.new) }
    ensures passed { W.failed writer.new ≡ false → W.passed writer.new ≡ true }
    ensures cut { W.failed writer.old ≡ false → W.failed writer.new ≡ true → result.status ≡ 5 }
    ensures file { IsNone result.file }
{
    if send_all(writer, text).is_err() || writer.flush().is_err() {
        return end_with(5);
    }
    end_with(0)
}

/// Prints what the sectors of a disk look like, or which files it has. Status 0; 1: it is not read (`container: SENTENCE` is printed) or
/// memory ran out; 5: the text can't be printed.
fn do_guess<W: Output>(alloc: Global, disk: &[u8], guess: Guess<'_>, writer: &mut W) -> Ended
    ensures printed { W.failed writer.new ≡ false → EndsGuessed result.status (W.sent writer.old) (W.sent writer.new) }
    ensures passed { W.failed writer.new ≡ false → W.passed writer.new ≡ true }
    ensures cut { W.failed writer.old ≡ false → W.failed writer.new ≡ true → result.status ≡ 5 }
    ensures file { IsNone result.file }
{
    match report(alloc, disk, guess) {
        Ok(text) => print_report(text.as_bytes(), writer),
        Err(why) => refuse_unread(alloc, &why, writer),
    }
}

/// Reads the disk that `guess` names, and prints what its sectors look like. If it cannot begin, that is printed, and the status is the error.
pub fn guess_order<F: Files, W: Output>(
    files: &mut F,
    writer: &mut W,
    guess: Guess<'_>,
) -> Result<u8, u8>
    ensures guessed { Began F.log W.Output files.old files.new writer.old writer.new result
        (Guesses guess.entry.disk.now) }
    ensures refused { NotBegun F.log W.Output files.old files.new writer.old writer.new result
        (Refuses (guess_steps guess.entry.disk.now)) }
    ensures cut { W.failed writer.old ≡ false → W.failed writer.new ≡ true → status_of result ≡ 5 }
    ensures passed { IsPassedOn (status_of result) (W.failed writer.new) (W.passed writer.new) (W.sent writer.old) (W.sent writer.new) }
{
    let disk = files.file_bytes(guess.disk)?;
    let ended = do_guess(files.alloc(), disk.as_slice(), guess, writer);
    Ok(ended.status)
}
