//! Texts read as screens.

ghost use Rattle.std.specs.Prelude.{◌≡◌, ◌==◌, ◌||◌, ◌++◌, ◌*◌, length, Ok, Err, IfErr, IfOk, OnOk, map};
ghost use Rattle.std.specs.List.{list_any};
ghost use Rattle.bstr.specs.Text.{line_len, without_terminator};
ghost use Rattle.screen_text.specs.Reading.{Refuses, RefusesText, IsRead, nothing, read, text_lines, whole, with_escapes, with_line, with_plain, with_screen, with_text, with_texts};
ghost use Rattle.screen_text.specs.Bytes.{padded};
ghost use Rattle.screen_text.specs.Escapes.{unescaped};

use crate::bytes::{LINE, bad_byte, is_line, pad, spread, trimmed};
use crate::cause::{Cause, TextFault};
use crate::escapes::{has_sign, unescaped};
use crate::headings::{behind, has_mark, named};
use std::alloc::{AllocError, Global};
use std::marker::Model;

/// How many bytes a screen has.
pub const SCREEN: usize = 1024;

/// The last screen that a block file can have.
const LAST_SCREEN: usize = 65535;

/// Lack of memory, if no line is at fault.
const OUT_OF_MEMORY: TextFault = TextFault {
    line: 0,
    cause: Cause::OutOfMemory,
};

/// The screens of a text.
#[derive(Drop)]
pub struct Screens {
    /// Their numbers.
    pub numbers: Vec<u16>,
    /// 1,024 bytes for each of them.
    pub bytes: Vec<u8>,
}

/// What is read of a text so far.
#[derive(Drop)]
struct Reading {
    headed: bool,
    numbers: Vec<u16>,
    bytes: Vec<u8>,
}

impl Model for Reading {
    ghost use Rattle.std.specs.Prelude.{◌≤◌, vec_len};
    ghost use Rattle.screen_text.specs.Reading.{State};

    ghost Value = { State };

    ghost view = { λ r. record { headed = r.headed; numbers = r.numbers.items; bytes = r.bytes.items } };

    ghost invariant = { λ r. vec_len r.numbers ≤ 65536 };
}

impl Reading {
    /// Before the first line.
    #[tactic(auto, unfolding(crate::specs::Reading::nothing))]
    fn new(alloc: Global) -> Reading
        ensures { result ≡ nothing }
    {
        Reading {
            headed: false,
            numbers: Vec::new(alloc),
            bytes: Vec::new(alloc),
        }
    }

    /// Fills the last screen.
    #[tactic(auto, unfolding(crate::specs::Reading::whole))]
    fn fill(&mut self) -> Result<(), AllocError>
        ensures { IfOk result (λ _. self.new ≡ record self.old { bytes = whole self.old }) }
    {
        pad(&mut self.bytes, SCREEN * self.numbers.len())
    }

    /// Whether a heading can be here.
    fn takes_heading(&self) -> bool
        ensures { result ≡ (self.now.headed || length self.now.numbers == 0) }
    {
        self.headed || self.numbers.is_empty()
    }

    /// Whether a screen of this number was started.
    fn has_screen(&self, number: u16) -> bool
        ensures { result ≡ list_any (λ n. n == number) self.now.numbers }
    {
        self.numbers.contains(&number)
    }

    /// Begins the screen that a heading names.
    #[tactic(auto, unfolding(crate::specs::Reading::with_screen))]
    fn begin(&mut self, number: u16) -> Result<(), Cause>
        ensures begun { IfOk result (λ _. with_screen self.old number ≡ Ok self.new) }
        ensures refused { IfErr result (Refuses (with_screen self.old number)) }
    {
        if !self.takes_heading() {
            return Err(Cause::LateHeading);
        }
        if self.has_screen(number) {
            return Err(Cause::NamedTwice);
        }
        if self.numbers.len() > LAST_SCREEN {
            return Err(Cause::NoScreen);
        }
        if self.fill().is_err() || self.numbers.push(number).is_err() {
            return Err(Cause::OutOfMemory);
        }
        self.headed = true;
        Ok(())
    }

    /// Adds a line, filled to 64 bytes.
    fn push_line(&mut self, line: &[u8]) -> Result<(), AllocError>
        ensures { IfOk result (λ _. self.new ≡ record self.old { bytes = self.old.bytes ++ padded 64 line.now }) }
    {
        push_padded(&mut self.bytes, line)
    }

    /// Adds a line to the last screen, or begins the next one with it in a text without headings.
    #[tactic(auto, unfolding(crate::specs::Reading::with_line))]
    fn add(&mut self, line: &[u8]) -> Result<(), Cause>
        ensures added { IfOk result (λ _. with_line self.old line.now ≡ Ok self.new) }
        ensures refused { IfErr result (Refuses (with_line self.old line.now)) }
    {
        if line.len() > LINE {
            return Err(Cause::LongLine);
        }
        let count = self.numbers.len();
        if self.bytes.len() >= SCREEN * count {
            if self.headed {
                return Err(Cause::FullScreen);
            }
            if count >= LAST_SCREEN {
                return Err(Cause::NoScreen);
            }
            if self.numbers.push(count as u16 + 1).is_err() {
                return Err(Cause::OutOfMemory);
            }
        }
        if self.push_line(line).is_err() {
            return Err(Cause::OutOfMemory);
        }
        Ok(())
    }

    /// Takes a line of what comes after `%~`.
    #[tactic(auto, unfolding(crate::specs::Reading::with_escapes))]
    fn take_escaped(&mut self, alloc: Global, text: &[u8]) -> Result<(), Cause>
        ensures taken { IfOk result (λ _. with_escapes self.old (unescaped text.now) ≡ Ok self.new) }
        ensures refused { IfErr result (Refuses (with_escapes self.old (unescaped text.now))) }
    {
        match unescaped(alloc, text) {
            Ok(Some(line)) => self.add(line.as_slice()),
            Ok(None) => Err(Cause::BadEscape),
            Err(_) => Err(Cause::OutOfMemory),
        }
    }

    /// Takes a line without tabs and blanks at its end: one that begins with one `%` is a heading.
    #[tactic(auto, unfolding(crate::specs::Reading::with_plain))]
    fn take_plain(&mut self, alloc: Global, line: &[u8]) -> Result<(), Cause>
        ensures taken { IfOk result (λ _. with_plain self.old line.now ≡ Ok self.new) }
        ensures refused { IfErr result (Refuses (with_plain self.old line.now)) }
    {
        if !has_mark(line) {
            return self.add(line);
        }
        let unmarked = behind(line, 1);
        if has_mark(unmarked) {
            return self.add(unmarked);
        }
        if has_sign(unmarked) {
            return self.take_escaped(alloc, behind(line, 2));
        }
        match named(alloc, line) {
            Ok(Some(number)) => self.begin(number),
            Ok(None) => Err(Cause::BadHeading),
            Err(_) => Err(Cause::OutOfMemory),
        }
    }

    /// Takes a line of a text.
    #[tactic(auto, unfolding(crate::specs::Reading::with_text))]
    fn take(&mut self, alloc: Global, line: &[u8]) -> Result<(), Cause>
        ensures taken { IfOk result (λ _. with_text self.old line.now ≡ Ok self.new) }
        ensures refused { IfErr result (Refuses (with_text self.old line.now)) }
    {
        if !is_line(line) {
            return Err(Cause::BadByte(bad_byte(line)));
        }
        match spread(alloc, line) {
            Ok(plain) => self.take_plain(alloc, trimmed(plain.as_slice())),
            Err(_) => Err(Cause::OutOfMemory),
        }
    }

    /// Takes lines, of which the first is line 1.
    fn take_lines(&mut self, alloc: Global, lines: &[&[u8]]) -> Result<(), TextFault>
        ensures taken { IfOk result (λ _. with_texts 1 self.old (map (λ x. x.now) lines.now) ≡ Ok self.new) }
        ensures refused { IfErr result (RefusesText (with_texts 1 self.old (map (λ x. x.now) lines.now))) }
    {
        for (index, line) in lines.iter().enumerate() {
            match self.take(alloc, line) {
                Ok(()) => {}
                Err(cause) => {
                    return Err(TextFault {
                        line: index + 1,
                        cause,
                    });
                }
            }
        }
        Ok(())
    }

    /// The screens that are read.
    #[tactic(auto, unfolding(crate::specs::Reading::whole))]
    fn finish(self) -> Result<Screens, AllocError>
        ensures { IfOk result (λ s. (s.numbers.items ≡ self.numbers) × (s.bytes.items ≡ whole self)) }
    {
        let Reading {
            headed: _,
            numbers,
            mut bytes,
        } = self;
        pad(&mut bytes, SCREEN * numbers.len())?;
        Ok(Screens { numbers, bytes })
    }
}

/// Adds a line, filled to 64 bytes.
#[tactic(auto, unfolding(crate::specs::Bytes::padded, crate::specs::Bytes::blanks))]
fn push_padded(bytes: &mut Vec<u8>, line: &[u8]) -> Result<(), AllocError>
    ensures { OnOk result (bytes.new.items ≡ bytes.old.items ++ padded 64 line.now) }
{
    bytes.extend_from_slice(line)?;
    let blanks = LINE.saturating_sub(line.len());
    bytes.resize(bytes.len().saturating_add(blanks), b' ')
}

/// How many bytes the first line of a text has, with its line feed.
#[tactic(auto, unfolding(bstr::specs::Text::line_len))]
fn line_len(text: &[u8]) -> usize
    ensures { result ≡ line_len text.now }
{
    for (index, byte) in text.iter().enumerate() {
        if *byte == b'\n' {
            return index + 1;
        }
    }
    text.len()
}

/// A line without its line feed, and without the carriage return before that.
fn without_end(line: &[u8]) -> &[u8]
    ensures { result.now ≡ without_terminator line.now }
{
    let [front @ .., b'\n'] = line else {
        return line;
    };
    match front {
        [text @ .., b'\r'] => text,
        _ => front,
    }
}

/// The lines of a text.
#[tactic(auto, unfolding(crate::specs::Reading::text_lines), using(crate::proofs::Splitting::first_line, crate::proofs::Splitting::takes_some))]
pub fn lines_of(alloc: Global, text: &[u8]) -> Result<Vec<&[u8]>, AllocError>
    ensures { IfOk result (λ v. map (λ x. x.now) v.items ≡ text_lines text.now) }
{
    let mut lines = Vec::new(alloc);
    let mut rest = text;
    while !rest.is_empty() {
        let (line, more) = rest.split_at(line_len(rest));
        lines.push(without_end(line))?;
        rest = more;
    }
    Ok(lines)
}

/// Takes all lines of a text.
#[tactic(auto, unfolding(crate::specs::Reading::read))]
fn read(alloc: Global, text: &[u8]) -> Result<Reading, TextFault>
    ensures taken { IfOk result (λ r. read text.now ≡ Ok r) }
    ensures refused { IfErr result (RefusesText (read text.now)) }
{
    let Ok(lines) = lines_of(alloc, text) else {
        return Err(OUT_OF_MEMORY);
    };
    let mut reading = Reading::new(alloc);
    reading.take_lines(alloc, lines.as_slice())?;
    Ok(reading)
}

/// Reads a text as screens. An error: the first line at fault and what is wrong with it, or memory ran out.
pub fn read_text(alloc: Global, text: &[u8]) -> Result<Screens, TextFault>
    ensures screens { IfOk result (λ s. IsRead (read text.now) s.numbers.items s.bytes.items) }
    ensures size { IfOk result (λ s. length s.bytes.items ≡ 1024 * length s.numbers.items) }
    ensures refused { IfErr result (RefusesText (read text.now)) }
{
    let reading = match read(alloc, text) {
        Ok(reading) => reading,
        Err(fault) => return Err(fault),
    };
    match reading.finish() {
        Ok(screens) => Ok(screens),
        Err(_) => Err(OUT_OF_MEMORY),
    }
}
