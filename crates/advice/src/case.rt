//! A case: what a host asks, and what it knows, as a text.

use std::alloc::{AllocError, Global};
use thiserror::Error;

/// Why a case is not answered.
#[derive(Clone, Copy, Debug, PartialEq, Eq, Drop, Error)]
pub enum AdviceRefused {
    /// There was no memory for it.
    #[error("out of memory")]
    OutOfMemory,
    /// A line begins with no word that a case has.
    #[error("it has a line that no case has")]
    UnknownLine,
    /// A fault or BASE is no number of 0 to 65,535.
    #[error("a fault or a base is no number of 0 to 65535")]
    BadNumber,
    /// No line asks for something.
    #[error("it asks for nothing: fault, report or loop")]
    NoRequest,
}

impl From<AllocError> for AdviceRefused {
    fn from(_error: AllocError) -> AdviceRefused {
        AdviceRefused::OutOfMemory
    }
}

/// What is asked for.
#[derive(Clone, Copy, Debug, PartialEq, Eq, Drop)]
pub enum Asked {
    /// Nothing yet.
    Nothing,
    /// What a fault means.
    Fault,
    /// The same, with what the source says.
    Report,
    /// What is said of EXIT in a counted loop.
    Loop,
}

/// A text, and the same with capitals in place of lower case.
#[derive(Clone, Copy)]
pub struct Spelled<'a> {
    pub typed: &'a [u8],
    pub upper: &'a [u8],
}

/// A line of a source or a word in it, in capitals, and what the line is called.
#[derive(Clone, Copy)]
pub struct Piece<'a> {
    pub text: &'a [u8],
    pub line: &'a [u8],
}

/// What a host marks.
#[derive(Clone, Copy)]
pub struct Marks {
    /// Some word has the name that is not found.
    pub is_name: bool,
    /// A dialect hides a tool of that name.
    pub is_hidden: bool,
    /// A dialect is loaded.
    pub has_dialect: bool,
    /// A text follows without its quote.
    pub is_open_text: bool,
    /// The texts of dialects and of the library are at hand.
    pub has_texts: bool,
    /// The program, or a service, has said what the fault means.
    pub is_said: bool,
}

/// A case.
#[derive(Drop)]
pub struct Case<'a> {
    pub asked: Asked,
    /// The fault's number, and how it is spelled.
    pub fault: u16,
    pub number: &'a [u8],
    pub word: Spelled<'a>,
    pub follows: &'a [u8],
    pub base: u16,
    pub left: &'a [u8],
    /// The word that is being defined, in capitals.
    pub defining: Option<&'a [u8]>,
    pub marks: Marks,
    pub names: Vec<Spelled<'a>>,
    /// What the next line of the source is called.
    line: &'a [u8],
    pub lines: Vec<Piece<'a>>,
}

/// The number that digits spell.
fn number_of(digits: &[u8]) -> Result<u16, AdviceRefused> {
    if digits.is_empty() {
        return Err(AdviceRefused::BadNumber);
    }
    let mut number = 0u16;
    for digit in digits {
        if !digit.is_ascii_digit() {
            return Err(AdviceRefused::BadNumber);
        }
        let next = number
            .checked_mul(10)
            .and_then(|tens| tens.checked_add(u16::from(*digit - b'0')));
        match next {
            Some(sum) => number = sum,
            None => return Err(AdviceRefused::BadNumber),
        }
    }
    Ok(number)
}

/// The word at the front of a line, and what comes after the blank.
fn parted(line: &[u8]) -> (&[u8], usize) {
    match line.iter().position(|byte| *byte == b' ') {
        Some(end) => (line.get(..end).unwrap_or(b""), end + 1),
        None => (line, line.len()),
    }
}

impl<'a> Case<'a> {
    /// A case of which nothing is known.
    fn new(alloc: Global) -> Case<'a> {
        Case {
            asked: Asked::Nothing,
            fault: 0,
            number: b"",
            word: Spelled {
                typed: b"",
                upper: b"",
            },
            follows: b"",
            base: 10,
            left: b"",
            defining: None,
            marks: Marks {
                is_name: false,
                is_hidden: false,
                has_dialect: false,
                is_open_text: false,
                has_texts: false,
                is_said: false,
            },
            names: Vec::new(alloc),
            line: b"",
            lines: Vec::new(alloc),
        }
    }

    /// Reads a case, and the same in capitals.
    pub fn read(alloc: Global, text: &'a [u8], upper: &'a [u8]) -> Result<Case<'a>, AdviceRefused> {
        let mut case = Case::new(alloc);
        let capitals = upper.split(|byte| *byte == b'\n');
        for (line, capital) in text.split(|byte| *byte == b'\n').zip(capitals) {
            if !line.is_empty() {
                case.read_line(line, capital)?;
            }
        }
        if matches!(case.asked, Asked::Nothing) {
            return Err(AdviceRefused::NoRequest);
        }
        Ok(case)
    }

    /// Reads a line.
    fn read_line(&mut self, line: &'a [u8], capital: &'a [u8]) -> Result<(), AdviceRefused> {
        let (key, at) = parted(line);
        let value = Spelled {
            typed: line.get(at..).unwrap_or(b""),
            upper: capital.get(at..).unwrap_or(b""),
        };
        match key {
            b"fault" => self.ask(Asked::Fault, value.typed)?,
            b"report" => self.ask(Asked::Report, value.typed)?,
            b"loop" => self.asked = Asked::Loop,
            b"word" => self.word = value,
            b"follows" => self.follows = value.typed,
            b"base" => self.base = number_of(value.typed)?,
            b"left" => self.left = value.typed,
            b"defining" => self.defining = Some(value.upper),
            b"mark" => self.mark(value.typed)?,
            b"name" => self.add_name(value)?,
            b"line" => self.line = value.typed,
            b"text" => self.add_line(value.upper)?,
            _ => return Err(AdviceRefused::UnknownLine),
        }
        Ok(())
    }

    /// Adds a name of the machine.
    fn add_name(&mut self, name: Spelled<'a>) -> Result<(), AllocError> {
        self.names.push(name)?;
        Ok(())
    }

    /// Adds a line of the source.
    fn add_line(&mut self, text: &'a [u8]) -> Result<(), AllocError> {
        self.lines.push(Piece {
            text,
            line: self.line,
        })?;
        Ok(())
    }

    /// Takes what is asked of a fault.
    fn ask(&mut self, asked: Asked, number: &'a [u8]) -> Result<(), AdviceRefused> {
        self.fault = number_of(number)?;
        self.number = number;
        self.asked = asked;
        Ok(())
    }

    /// Takes a mark.
    fn mark(&mut self, mark: &[u8]) -> Result<(), AdviceRefused> {
        match mark {
            b"name" => self.marks.is_name = true,
            b"hidden" => self.marks.is_hidden = true,
            b"dialect" => self.marks.has_dialect = true,
            b"open" => self.marks.is_open_text = true,
            b"texts" => self.marks.has_texts = true,
            b"said" => self.marks.is_said = true,
            _ => return Err(AdviceRefused::UnknownLine),
        }
        Ok(())
    }
}
