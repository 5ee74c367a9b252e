//! `judge` over the files that the command line names.
#![tactic(auto)]

ghost use Rattle.std.specs.Prelude.{◌≡◌, ◌⊎◌, false, true, IsNone};
ghost use Rattle.named_files.specs.Done.{IsPassedOn, Refuses, status_of};
ghost use Rattle.named_files.specs.Begun.{Began, NotBegun};
ghost use Rattle.subcommands.specs.Lines.{OfImageFile, PrintsNoImage};
ghost use Rattle.judge_subcommand.specs.Judged.{EndsJudged, Judges, judge_steps};

use inner_interpreter::{Output, send_all};
use lessons::{JudgedFiles, Judgment, judge_files};
use named_files::Files;
use std::alloc::Global;
use subcommands::{Ended, end_with, print_out_of_memory, refuse_image};

/// What `judge` names: the image that has loaded the course's checkers, what is said of faults, the course, and a pupil's file; and how many
/// ticks a lesson may take.
#[derive(Clone, Copy)]
pub struct Judged<'a> {
    pub image: &'a str,
    pub texts: &'a str,
    pub course: &'a str,
    pub pupil: &'a str,
    pub ticks: u64,
}

/// Prints a text with status 0, or why there is none with status 1.
fn print_judgment<W: Output>(judgment: &Judgment, writer: &mut W) -> Ended
    ensures printed { W.failed writer.new ≡ false → EndsJudged result.status (W.sent writer.old) (W.sent writer.new) }
    ensures passed { W.failed writer.new ≡ false → W.passed writer.new ≡ true }
    ensures cut { W.failed writer.old ≡ false → W.failed writer.new ≡ true → result.status ≡ 5 }
    ensures file { IsNone result.file }
{
    if send_all(writer, judgment.text.as_slice()).is_err() || writer.flush().is_err() {
        return end_with(5);
    }
    if judgment.is_judged {
        end_with(0)
    } else {
        end_with(1)
    }
}

/// Prints the results of a pupil, for the image of these bytes. Status 0; 1: the bytes are no image (`image: CAUSE` is printed), the course
/// or the pupil's file has no blocks (`course: CAUSE`, `pupil: CAUSE`), or memory ran out; 5: the text can't be printed.
fn do_judge<W: Output>(
    alloc: Global,
    image: &[u8],
    answers: JudgedFiles<'_>,
    ticks: u64,
    writer: &mut W,
) -> Ended
    ensures printed { W.failed writer.new ≡ false →
        OfImageFile image.now (λ _. EndsJudged result.status (W.sent writer.old) (W.sent writer.new)) }
    ensures refused { W.failed writer.new ≡ false →
        PrintsNoImage image.now result.status (W.sent writer.old) (W.sent writer.new) }
    ensures passed { W.failed writer.new ≡ false → W.passed writer.new ≡ true }
    ensures cut { W.failed writer.old ≡ false → W.failed writer.new ≡ true → result.status ≡ 5 }
    ensures file { IsNone result.file }
{
    let image = match image_loader::read(alloc, image) {
        Ok(image) => image,
        Err(fault) => return refuse_image(fault, writer),
    };
    match judge_files(alloc, &image, answers, ticks) {
        Ok(judgment) => print_judgment(&judgment, writer),
        Err(_) => print_out_of_memory(writer),
    }
}

/// Judges the pupil's file that `judge` names, and prints a line for each lesson. If it cannot begin, that is printed, and the status is
/// the error.
pub fn judge_pupil<F: Files, W: Output>(
    files: &mut F,
    writer: &mut W,
    judged: Judged<'_>,
) -> Result<u8, u8>
    ensures judged { Began F.log W.Output files.old files.new writer.old writer.new result
        (Judges judged.entry.image.now judged.entry.texts.now judged.entry.course.now judged.entry.pupil.now) }
    ensures refused { NotBegun F.log W.Output files.old files.new writer.old writer.new result
        (Refuses (judge_steps judged.entry.image.now judged.entry.texts.now judged.entry.course.now judged.entry.pupil.now)) }
    ensures cut { W.failed writer.old ≡ false → W.failed writer.new ≡ true → status_of result ≡ 5 }
    ensures passed { IsPassedOn (status_of result) (W.failed writer.new) (W.passed writer.new) (W.sent writer.old) (W.sent writer.new) }
{
    let image = files.image_bytes(judged.image)?;
    let texts = files.file_bytes(judged.texts)?;
    let course = files.file_bytes(judged.course)?;
    let pupil = files.file_bytes(judged.pupil)?;
    let answers = JudgedFiles {
        texts: texts.as_slice(),
        course: course.as_slice(),
        pupil: pupil.as_slice(),
    };
    let ended = do_judge(
        files.alloc(),
        image.as_slice(),
        answers,
        judged.ticks,
        writer,
    );
    Ok(ended.status)
}
