//! The judging of one lesson of one pupil: CHECK says what a pupil would read, and if it says that the lesson is right, the trials are made
//! once more from outside. What a line leaves is read from the machine's stack, so a screen that answers in CHECK's place is found out.

use crate::bytes::{
    LINES, after, after_beginning, begins, find, first_line, first_word, front, is_blank, one_line,
    place_of, put_number, trimmed, trimmed_end,
};
use crate::screens::{
    CHECKERS, Lesson, MOST_SCREENS, is_blank_screen, line_of, screen_of, text_of,
};
use crate::sealing::is_left;
use crate::sitting::{Ending, Given, Limits, Typed, type_lines};
use crate::trials::{Trial, trials_of};
use image_loader::Image;
use std::alloc::{AllocError, Global};

/// The bytes of what a trial shows that are quoted.
const QUOTED: usize = 99;

/// What came of a lesson.
#[derive(Clone, Copy, Debug, PartialEq, Eq, Drop)]
pub enum Mark {
    Right,
    Wrong,
    /// A word that the lesson needs is not defined.
    Missing,
    /// It never ends: a loop of it, or a limit had to stop it.
    Endless,
    /// Nothing was written.
    Empty,
}

impl Mark {
    /// Its name.
    pub fn name(self) -> &'static [u8] {
        match self {
            Mark::Right => b"right",
            Mark::Wrong => b"wrong",
            Mark::Missing => b"missing",
            Mark::Endless => b"endless",
            Mark::Empty => b"empty",
        }
    }
}

/// What came of a lesson: the mark, the word that it is about, and what a person reads.
#[derive(Drop)]
pub struct Verdict {
    pub mark: Mark,
    pub word: Vec<u8>,
    pub text: Vec<u8>,
}

/// What lessons are judged with: the image that has loaded the course's checkers, the course's blocks, and what is said of faults, a
/// line for each: its number or name, and the text.
#[derive(Clone, Copy)]
pub struct Desk<'a> {
    pub image: &'a Image,
    pub course: &'a [u8],
    pub texts: &'a [u8],
}

fn judged(alloc: Global, mark: Mark, word: &[u8], text: &[u8]) -> Result<Verdict, AllocError> {
    Ok(Verdict {
        mark,
        word: Vec::from_slice(alloc, word)?,
        text: Vec::from_slice(alloc, text)?,
    })
}

/// Whether a pupil has written a line into a screen that the course has not written there.
fn is_written(screen: &[u8], task: &[u8]) -> bool {
    for line in 0..LINES {
        let written = line_of(screen, line);
        let is_given = (0..LINES).any(|other| line_of(task, other) == written);
        if !written.is_empty() && !is_given {
            return true;
        }
    }
    false
}

/// The course with a pupil's screen of a lesson, and with the pupil's screens of which the course has nothing: that screen may load these.
fn blocks_with(
    alloc: Global,
    course: &[u8],
    screen: u16,
    pupil: &[u8],
) -> Result<Vec<u8>, AllocError> {
    let mut made = Vec::new(alloc);
    for number in 0..MOST_SCREENS {
        let Some(own) = screen_of(course, number) else {
            break;
        };
        let theirs = screen_of(pupil, number).unwrap_or(own);
        let is_theirs = number == screen || is_blank_screen(own);
        made.extend_from_slice(if is_theirs { theirs } else { own })?;
    }
    Ok(made)
}

/// The last line of a text that is not blank; an empty one if there is none.
fn last_line(text: &[u8]) -> &[u8] {
    let shown = trimmed_end(text);
    match shown.iter().rposition(|byte| *byte == b'\n') {
        Some(end) => after(shown, end.saturating_add(1)),
        None => shown,
    }
}

/// The first line of a text that has this part.
fn line_with<'a>(text: &'a [u8], part: &[u8]) -> Option<&'a [u8]> {
    let mut rest = text;
    for _ in 0..text.len() {
        let line = first_line(rest);
        if find(line.piece, part).is_some() {
            return Some(trimmed(line.piece));
        }
        rest = line.rest;
    }
    None
}

/// Whether a line names a place, as `screen 22 line 3`.
fn is_place(line: &[u8]) -> bool {
    let number = first_word(after_beginning(line, b"screen ").unwrap_or(b""));
    let at = first_word(number.rest);
    number.piece.iter().all(|byte| byte.is_ascii_digit()) && matches!(at.piece, b"line")
}

/// The first line of a text that names a place.
fn place_in(text: &[u8]) -> Option<&[u8]> {
    let mut rest = text;
    for _ in 0..text.len() {
        let line = first_line(rest);
        if is_place(line.piece) {
            return Some(trimmed(line.piece));
        }
        rest = line.rest;
    }
    None
}

/// The word between two parts of a text.
fn word_between<'a>(text: &'a [u8], front_part: &[u8], end_part: &[u8]) -> Option<&'a [u8]> {
    let at = find(text, front_part)?;
    let word = first_word(after_beginning(after(text, at), front_part)?);
    if begins(word.rest, end_part) {
        Some(word.piece)
    } else {
        None
    }
}

/// What was shown as CHECK compares it: a slash for a new line, a backslash for a slash, no blanks before a new line, and none of both at the ends.
fn as_compared(alloc: Global, shown: &[u8], is_shown: bool) -> Result<Vec<u8>, AllocError> {
    let mut made: Vec<u8> = Vec::new(alloc);
    for byte in shown {
        let one = match *byte {
            b'/' if is_shown => b'\\',
            b'\n' if is_shown => b'/',
            b'\n' => b' ',
            other => other,
        };
        if one == b'/' {
            cut_blanks(&mut made);
        }
        if one != b'\r' {
            made.push(one)?;
        }
    }
    let start = made
        .iter()
        .position(|byte| *byte != b'/' && *byte != b' ')
        .unwrap_or(made.len());
    let end = made
        .iter()
        .rposition(|byte| *byte != b'/' && *byte != b' ')
        .map(|last| last.saturating_add(1))
        .unwrap_or(start);
    Vec::from_slice(
        alloc,
        front(after(made.as_slice(), start), end.saturating_sub(start)),
    )
}

/// Drops the blanks at the end.
fn cut_blanks(text: &mut Vec<u8>) {
    let end = trimmed_blanks(text.as_slice());
    text.truncate(end);
}

/// Where the blanks at the end of a text begin.
fn trimmed_blanks(text: &[u8]) -> usize {
    match text.iter().rposition(|byte| *byte != b' ') {
        Some(last) => last.saturating_add(1),
        None => 0,
    }
}

/// The check of a lesson of a pupil.
#[derive(Clone, Copy)]
struct Check<'a> {
    alloc: Global,
    desk: Desk<'a>,
    lesson: Lesson<'a>,
    pupil: &'a [u8],
    limits: Limits,
    trials: &'a [Trial<'a>],
}

impl<'a> Check<'a> {
    /// Types lines at the course's image, over the course's blocks with this lesson's screen of the pupil's.
    fn type_lines(&self, lines: &[&[u8]]) -> Result<Typed, AllocError> {
        let mut blocks = blocks_with(self.alloc, self.desk.course, self.lesson.screen, self.pupil)?;
        let given = Given {
            image: self.desk.image,
            lines,
            texts: self.desk.texts,
            limits: self.limits,
        };
        type_lines(self.alloc, given, &mut blocks)
    }

    /// What CHECK says, and, if it says that the lesson is right, whether the trials made from outside agree.
    fn judge(&self) -> Result<Verdict, AllocError> {
        let mut line = Vec::new(self.alloc);
        put_number(&mut line, self.alloc, i64::from(self.lesson.number))?;
        line.extend_from_slice(b" CHECK")?;
        let typed = self.type_lines(&[line.as_slice()])?;
        let ending = typed.ending;
        let said = typed.shown(0, usize::MAX);
        match ending {
            Ending::Ticks => judged(self.alloc, Mark::Endless, b"", b"never ends"),
            Ending::Shown => judged(
                self.alloc,
                Mark::Endless,
                b"",
                b"never ends, or shows too much",
            ),
            Ending::Left => self.left(said),
            Ending::Whole | Ending::Fault => self.judge_said(said),
        }
    }

    /// The machine left the Forth.
    fn left(&self, said: &[u8]) -> Result<Verdict, AllocError> {
        let last = last_line(said);
        let mut text = Vec::from_slice(self.alloc, last)?;
        if !last.is_empty() {
            text.extend_from_slice(b" / ")?;
        }
        text.extend_from_slice(b"leaves the Forth, or waits for a key")?;
        Ok(Verdict {
            mark: Mark::Wrong,
            word: Vec::new(self.alloc),
            text,
        })
    }

    /// The line that says that the lesson is right.
    fn right_line(&self) -> Result<Vec<u8>, AllocError> {
        let mut line = Vec::from_slice(self.alloc, b"Lesson ")?;
        put_number(&mut line, self.alloc, i64::from(self.lesson.number))?;
        line.extend_from_slice(b" is right.")?;
        Ok(line)
    }

    /// The verdict by what CHECK says.
    fn judge_said(&self, said: &[u8]) -> Result<Verdict, AllocError> {
        let last = last_line(said);
        let right = self.right_line()?;
        if begins(last, right.as_slice()) {
            return match self.first_deceived()? {
                Some(found) => Ok(found),
                None => judged(self.alloc, Mark::Right, b"", right.as_slice()),
            };
        }
        self.judge_wrong(
            said,
            if last.is_empty() {
                b"CHECK says nothing"
            } else {
                last
            },
        )
    }

    /// The verdict by what CHECK says of a lesson that is not right.
    fn judge_wrong(&self, said: &[u8], last: &[u8]) -> Result<Verdict, AllocError> {
        let first = first_word(last);
        if begins(first.rest, b" is not defined yet") {
            return judged(self.alloc, Mark::Missing, first.piece, last);
        }
        let joined = one_line(self.alloc, said)?;
        if let Some(word) = word_between(joined.as_slice(), b"is the ; of ", b" missing?") {
            return self.unended(word);
        }
        let word = self.word_of(last)?;
        if let Some(looping) = word_between(last, b"never ends: the loop in ", b" ") {
            let named = if word.is_empty() { looping } else { word };
            return judged(self.alloc, Mark::Endless, named, last);
        }
        match line_with(said, b"(fault ") {
            Some(fault) if word.is_empty() => self.faulty(fault, said),
            _ => judged(self.alloc, Mark::Wrong, word, last),
        }
    }

    /// A definition has no end.
    fn unended(&self, word: &[u8]) -> Result<Verdict, AllocError> {
        let mut text = Vec::from_slice(self.alloc, b"the ; of ")?;
        text.extend_from_slice(word)?;
        text.extend_from_slice(b" is missing")?;
        judged(self.alloc, Mark::Wrong, word, text.as_slice())
    }

    /// A fault of a screen, in one line: what it is, and where.
    fn faulty(&self, fault: &[u8], said: &[u8]) -> Result<Verdict, AllocError> {
        let mut text = Vec::from_slice(self.alloc, fault)?;
        if let Some(place) = place_in(said) {
            text.extend_from_slice(b", ")?;
            text.extend_from_slice(place)?;
        }
        judged(self.alloc, Mark::Wrong, b"", text.as_slice())
    }

    /// The word whose trial begins what was said: of several trials the longest one counts.
    fn word_of(&self, said: &[u8]) -> Result<&'a [u8], AllocError> {
        let mut plain = one_line(self.alloc, said)?;
        plain.extend_from_slice(b" ")?;
        let mut word: &[u8] = b"";
        let mut length = 0;
        for trial in self.trials {
            let mut text = trial.text(self.alloc)?;
            text.extend_from_slice(b" ")?;
            if trial.is_tested && text.len() > length && begins(plain.as_slice(), text.as_slice()) {
                word = trial.word;
                length = text.len();
            }
        }
        Ok(word)
    }

    /// The lines of all trials: numbers that no word may take, the screen, and of each trial DECIMAL and its lines.
    fn trial_lines(&self, load: &'a [u8]) -> Result<Script<'a>, AllocError> {
        let mut script = Script {
            lines: Vec::new(self.alloc),
            starts: Vec::new(self.alloc),
        };
        script.lines.push(b"7919 7919 7919 7919")?;
        if !self.loads(load)? {
            script.lines.push(load)?;
        }
        for trial in self.trials {
            script.lines.push(b"DECIMAL")?;
            let start = script.lines.len();
            script.starts.push(start)?;
            script.add_lines(trial.lines)?;
        }
        Ok(script)
    }

    /// Whether a trial loads the pupil's screen itself.
    fn loads(&self, load: &[u8]) -> Result<bool, AllocError> {
        for trial in self.trials {
            if trial.text(self.alloc)?.as_slice() == load {
                return Ok(true);
            }
        }
        Ok(false)
    }

    /// The first trial that is not right when it is made from outside.
    fn first_deceived(&self) -> Result<Option<Verdict>, AllocError> {
        let mut load = Vec::new(self.alloc);
        put_number(&mut load, self.alloc, i64::from(self.lesson.screen))?;
        load.extend_from_slice(b" LOAD")?;
        let script = self.trial_lines(load.as_slice())?;
        let typed = self.type_lines(script.lines.as_slice())?;
        for (index, trial) in self.trials.iter().enumerate() {
            let start = script.starts.get(index).copied().unwrap_or(0);
            let end = match script.starts.get(index.saturating_add(1)) {
                Some(next) => next.saturating_sub(1),
                None => script.lines.len(),
            };
            let wrong = self.against(trial, &typed, start, end)?;
            if !wrong.is_empty() {
                return Ok(Some(self.deceived(trial, wrong.as_slice())?));
            }
        }
        Ok(None)
    }

    fn deceived(&self, trial: &Trial<'a>, wrong: &[u8]) -> Result<Verdict, AllocError> {
        let mut text = Vec::from_slice(self.alloc, b"CHECK was deceived: ")?;
        text.extend_from_slice(trial.text(self.alloc)?.as_slice())?;
        text.extend_from_slice(b" ")?;
        text.extend_from_slice(wrong)?;
        judged(self.alloc, Mark::Wrong, trial.word, text.as_slice())
    }

    /// Why a trial, whose lines are these of all lines, is not right; nothing if it is.
    fn against(
        &self,
        trial: &Trial<'a>,
        typed: &Typed,
        start: usize,
        end: usize,
    ) -> Result<Vec<u8>, AllocError> {
        let (Some(before), Some(now)) = (typed.stack(start), typed.stack(end)) else {
            return Vec::from_slice(self.alloc, b"does not come to its end");
        };
        if now.get(..before.len()) != Some(before) {
            return Vec::from_slice(self.alloc, b"takes more from the stack than it is given");
        }
        let left = now.get(before.len()..).unwrap_or(&[]);
        if !is_left(trial.kind, trial.wanted.as_slice(), left) {
            return self.leaves(left);
        }
        let shown = as_compared(self.alloc, typed.shown(start, end), true)?;
        let wanted = as_compared(self.alloc, trial.shows, false)?;
        let mut text = Vec::new(self.alloc);
        if shown.as_slice() != wanted.as_slice() {
            text.extend_from_slice(b"shows ")?;
            text.extend_from_slice(front(shown.as_slice(), QUOTED))?;
        }
        Ok(text)
    }

    /// What a trial leaves, in words.
    fn leaves(&self, left: &[u16]) -> Result<Vec<u8>, AllocError> {
        let mut text = Vec::from_slice(self.alloc, b"leaves")?;
        for cell in left {
            text.extend_from_slice(b" ")?;
            let number = i64::from(*cell);
            put_number(
                &mut text,
                self.alloc,
                if number < 32768 {
                    number
                } else {
                    number - 65536
                },
            )?;
        }
        if left.is_empty() {
            text.extend_from_slice(b" nothing")?;
        }
        Ok(text)
    }
}

/// The lines of trials, and the first line of each trial.
#[derive(Drop)]
struct Script<'a> {
    lines: Vec<&'a [u8]>,
    starts: Vec<usize>,
}

impl<'a> Script<'a> {
    /// Adds the lines of a trial.
    fn add_lines(&mut self, text: &'a [u8]) -> Result<(), AllocError> {
        let mut rest = text;
        for _ in 0..text.len() {
            let line = first_line(rest);
            self.lines.push(trimmed(line.piece))?;
            if place_of(rest, b'\n') == rest.len() {
                break;
            }
            rest = line.rest;
        }
        Ok(())
    }
}

/// Judges a lesson of a pupil: with the mark come the word that it is about, if there is one, and what a person reads.
pub fn judge(
    alloc: Global,
    desk: Desk<'_>,
    lesson: Lesson<'_>,
    pupil: &[u8],
    limits: Limits,
) -> Result<Verdict, AllocError> {
    let Some(screen) = screen_of(pupil, lesson.screen) else {
        return judged(alloc, Mark::Empty, b"", b"the file ends before this screen");
    };
    let task = screen_of(desk.course, lesson.screen).unwrap_or(b"");
    if !is_written(screen, task) {
        return judged(alloc, Mark::Empty, b"", b"nothing was written");
    }
    let checker = screen_of(desk.course, lesson.screen.saturating_add(CHECKERS)).unwrap_or(b"");
    let text = text_of(alloc, checker)?;
    let trials = trials_of(alloc, text.as_slice())?;
    let check = Check {
        alloc,
        desk,
        lesson,
        pupil,
        limits,
        trials: trials.as_slice(),
    };
    check.judge()
}
