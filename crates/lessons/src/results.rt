//! The results of a pupil, a line a lesson.

ghost use Rattle.std.specs.Prelude.{◌≡◌, ◌<◌, ◌≤◌, ◌+◌, ◌/◌, ◌⊎◌, IfErr, IfOk, IsTrue, OnOk, length};

use crate::bytes::put_number;
use crate::files::{FileFault, blocks_of};
use crate::judging::{Desk, Mark, Verdict, judge};
use crate::screens::{Lesson, lessons_of};
use crate::sitting::Limits;
use image_loader::Image;
use std::alloc::{AllocError, Global};

/// After so many lessons of a pupil that a limit had to stop, the others get a tenth of the ticks.
const PATIENCE: u16 = 3;

/// The bytes that a lesson may show.
const MOST_SHOWN: usize = 1_000_000;

/// Adds bytes as they are read: with a dot for each control byte.
fn put_readable(text: &mut Vec<u8>, bytes: &[u8]) -> Result<(), AllocError> {
    for byte in bytes {
        text.push(if *byte < b' ' || *byte == 127 {
            b'.'
        } else {
            *byte
        })?;
    }
    Ok(())
}

/// Adds the line of a lesson: its number, screen and title, the mark, the word that it is about and what a person reads, with a tab
/// between them.
fn put_result(
    text: &mut Vec<u8>,
    alloc: Global,
    lesson: Lesson<'_>,
    verdict: &Verdict,
) -> Result<(), AllocError>
    ensures { OnOk result (0 < length text.new.items) }
{
    put_number(text, alloc, i64::from(lesson.number))?;
    text.extend_from_slice(b"\t")?;
    put_number(text, alloc, i64::from(lesson.screen))?;
    text.extend_from_slice(b"\t")?;
    put_readable(text, lesson.title)?;
    text.extend_from_slice(b"\t")?;
    text.extend_from_slice(verdict.mark.name())?;
    text.extend_from_slice(b"\t")?;
    put_readable(text, verdict.word.as_slice())?;
    text.extend_from_slice(b"\t")?;
    put_readable(text, verdict.text.as_slice())?;
    text.push(b'\n')?;
    Ok(())
}

/// How far the judging of a pupil's file is.
#[derive(Clone, Copy, Debug, PartialEq, Eq, Drop)]
pub struct Progress {
    /// The place of the next lesson among those of the course, in the order of their numbers, from 0 on.
    pub next: u16,
    /// How many lessons a limit had to stop.
    pub stopped: u16,
}

impl Progress {
    /// Nothing was judged yet.
    pub fn begun() -> Progress
        ensures { result ≡ record { next = 0; stopped = 0 } }
    {
        Progress {
            next: 0,
            stopped: 0,
        }
    }

    /// What the next lesson may do, if one may take so many ticks.
    fn limits(self, ticks: u64) -> Limits
        ensures patient { self.stopped < 3 → result.ticks ≡ ticks }
        ensures hasty { 3 ≤ self.stopped → result.ticks ≡ ticks / 10 }
    {
        Limits {
            ticks: if self.stopped < PATIENCE {
                ticks
            } else {
                ticks / 10
            },
            shown: MOST_SHOWN,
        }
    }

    /// After a lesson with this verdict, of which the next one has this place.
    fn after(self, next: u16, verdict: &Verdict) -> Progress
        ensures next { result.next ≡ next }
        ensures stopped { (result.stopped ≡ self.stopped) ⊎ (result.stopped ≡ self.stopped + 1) }
    {
        let is_stopped = verdict.mark == Mark::Endless && verdict.word.is_empty();
        Progress {
            next,
            stopped: if is_stopped {
                self.stopped.saturating_add(1)
            } else {
                self.stopped
            },
        }
    }
}

/// What lessons are judged with, the pupil's blocks, the lessons of the course, and how many ticks each of them may take.
#[derive(Clone, Copy)]
struct Sheet<'a> {
    desk: Desk<'a>,
    pupil: &'a [u8],
    lessons: &'a [Lesson<'a>],
    ticks: u64,
}

/// Judges the next lesson, and adds its line; whether there was one.
fn put_next(
    text: &mut Vec<u8>,
    alloc: Global,
    sheet: Sheet<'_>,
    progress: &mut Progress,
) -> Result<bool, AllocError>
    ensures onward { IfOk result (λ found. IsTrue found → progress.new.next ≡ progress.old.next + 1) }
    ensures stopped { IfOk result (λ _. (progress.new.stopped ≡ progress.old.stopped) ⊎ (progress.new.stopped ≡ progress.old.stopped + 1)) }
    ensures added { IfOk result (λ found. IsTrue found → 0 < length text.new.items) }
    ensures ended { IfOk result (λ found. ¬ IsTrue found → progress.new ≡ progress.old) }
    ensures silent { IfOk result (λ found. ¬ IsTrue found → text.new.items ≡ text.old.items) }
    ensures stays { IfErr result (λ _. progress.new ≡ progress.old) }
{
    let Some(lesson) = sheet.lessons.get(usize::from(progress.next)).copied() else {
        return Ok(false);
    };
    let Some(next) = progress.next.checked_add(1) else {
        return Ok(false);
    };
    let verdict = judge(
        alloc,
        sheet.desk,
        lesson,
        sheet.pupil,
        progress.limits(sheet.ticks),
    )?;
    put_result(text, alloc, lesson, &verdict)?;
    *progress = progress.after(next, &verdict);
    Ok(true)
}

/// What lessons are judged with, and what a pupil wrote: what is said of faults, a line for each; the course, and the pupil's file. These two are
/// blocks or texts of screens for `judge_files`, and blocks for `judge_next`.
#[derive(Clone, Copy)]
pub struct JudgedFiles<'a> {
    pub texts: &'a [u8],
    pub course: &'a [u8],
    pub pupil: &'a [u8],
}

impl<'a> JudgedFiles<'a> {
    /// The course and the pupil's file as blocks, with this image, these lessons of the course, and the ticks of a lesson.
    fn sheet(self, image: &'a Image, lessons: &'a [Lesson<'a>], ticks: u64) -> Sheet<'a>
        ensures { result.ticks ≡ ticks }
    {
        Sheet {
            desk: Desk {
                image,
                course: self.course,
                texts: self.texts,
            },
            pupil: self.pupil,
            lessons,
            ticks,
        }
    }
}

/// The results, a line for each lesson; or, if nothing was judged, a line `course: CAUSE` or `pupil: CAUSE`.
#[derive(Drop)]
pub struct Judgment {
    pub is_judged: bool,
    pub text: Vec<u8>,
}

/// A file is neither blocks nor a text of screens.
fn unjudged(alloc: Global, what: &str, fault: FileFault) -> Result<Judgment, AllocError> {
    let line = format!(in alloc; "{what}: {fault}\n")?;
    Ok(Judgment {
        is_judged: false,
        text: Vec::from_slice(alloc, line.as_bytes())?,
    })
}

/// Judges all lessons of a course by a pupil's blocks.
fn all_results(
    alloc: Global,
    image: &Image,
    blocks: JudgedFiles<'_>,
    ticks: u64,
) -> Result<Vec<u8>, AllocError> {
    let lessons = lessons_of(alloc, blocks.course)?;
    let sheet = blocks.sheet(image, lessons.as_slice(), ticks);
    let mut text = Vec::new(alloc);
    let mut progress = Progress::begun();
    for _ in 0..lessons.len() {
        put_next(&mut text, alloc, sheet, &mut progress)?;
    }
    Ok(text)
}

/// Judges what a pupil hands in, with the image that has loaded the course's checkers, each lesson for at most so many ticks. There is no line
/// if the course has no lessons.
pub fn judge_files(
    alloc: Global,
    image: &Image,
    files: JudgedFiles<'_>,
    ticks: u64,
) -> Result<Judgment, AllocError> {
    let course = match blocks_of(alloc, files.course) {
        Ok(blocks) => blocks,
        Err(fault) => return unjudged(alloc, "course", fault),
    };
    let pupil = match blocks_of(alloc, files.pupil) {
        Ok(blocks) => blocks,
        Err(fault) => return unjudged(alloc, "pupil", fault),
    };
    let blocks = JudgedFiles {
        texts: files.texts,
        course: course.as_slice(),
        pupil: pupil.as_slice(),
    };
    Ok(Judgment {
        is_judged: true,
        text: all_results(alloc, image, blocks, ticks)?,
    })
}

/// Judges the next lesson by blocks, as `judge_files` judges it: its line, or nothing if no lesson is left. So a host can do something else
/// between two lessons.
pub fn judge_next(
    alloc: Global,
    image: &Image,
    blocks: JudgedFiles<'_>,
    ticks: u64,
    progress: &mut Progress,
) -> Result<Vec<u8>, AllocError>
    // After a line comes the next lesson, and at the end nothing changes.
    ensures onward { IfOk result (λ line. 0 < length line.items → progress.new.next ≡ progress.old.next + 1) }
    ensures ended { IfOk result (λ line. length line.items ≡ 0 → progress.new ≡ progress.old) }

    // A lesson that a limit had to stop is counted.
    ensures stopped { IfOk result (λ _. (progress.new.stopped ≡ progress.old.stopped) ⊎ (progress.new.stopped ≡ progress.old.stopped + 1)) }
    ensures stays { IfErr result (λ _. progress.new ≡ progress.old) }
{
    let lessons = lessons_of(alloc, blocks.course)?;
    let sheet = blocks.sheet(image, lessons.as_slice(), ticks);
    let mut text = Vec::new(alloc);
    put_next(&mut text, alloc, sheet, progress)?;
    Ok(text)
}
