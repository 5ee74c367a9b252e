//! How a container is read or written, as words: `--format rx01 --half`.

use crate::bytes::LINES;
use crate::formats::Format;
use crate::refusal::Refusal;
use std::alloc::Global;

/// Records of one width in place of screens' lines.
#[derive(Clone, Copy)]
pub struct Records {
    /// How many bytes a record has.
    pub width: usize,
    /// How many records are a screen.
    pub lines: usize,
    /// How many bytes of a record are text.
    pub columns: usize,
}

impl Records {
    /// Records of a width, unless it is 0. No less than one is a screen; all of a record is text if it is not said how much.
    pub fn new(width: usize, lines: Option<usize>, columns: Option<usize>) -> Option<Records> {
        if width == 0 {
            return None;
        }
        let columns = columns.unwrap_or(0);
        Some(Records {
            width,
            lines: lines.unwrap_or(LINES).max(1),
            columns: if columns > 0 { columns } else { width },
        })
    }
}

/// How a container is read or written.
#[derive(Drop)]
pub struct Options {
    pub format: Format,
    /// How many bytes are before the first sector, if that is not the format's number.
    pub offset: Option<u32>,
    /// How many bytes a sector has, if that is not the format's number.
    pub sector: Option<usize>,
    /// The sectors of a track in the order in which they are read, counted from 0 or from 1; none for the format's order.
    pub skew: Vec<usize>,
    /// The number of the first screen, or 0 for that which a listing names.
    pub first: usize,
    /// How many bytes a track has, if those of two sides come in turn.
    pub side: Option<usize>,
    pub records: Option<Records>,
    /// Whether what is read is made text.
    pub cleans: bool,
    /// Whether screens have 512 bytes: 16 lines of 32.
    pub is_half: bool,
    /// Whether letters are those of code page 37.
    pub is_ebcdic: bool,
}

/// An option that has a value.
#[derive(Clone, Copy)]
enum Valued {
    Format,
    Offset,
    Sector,
    Skew,
    First,
    Sides,
    Width,
    Lines,
    Columns,
}

impl Valued {
    /// The option of this name.
    fn named(name: &[u8]) -> Option<Valued> {
        match name {
            b"--format" => Some(Valued::Format),
            b"--offset" => Some(Valued::Offset),
            b"--sector" => Some(Valued::Sector),
            b"--skew" => Some(Valued::Skew),
            b"--first" => Some(Valued::First),
            b"--sides" => Some(Valued::Sides),
            b"--width" => Some(Valued::Width),
            b"--lines" => Some(Valued::Lines),
            b"--columns" => Some(Valued::Columns),
            _ => None,
        }
    }

    /// What is said if its value is no number.
    fn no_number(self) -> Refusal {
        let option = match self {
            Valued::Format => "--format",
            Valued::Offset => "--offset",
            Valued::Sector => "--sector",
            Valued::Skew => "--skew",
            Valued::First => "--first",
            Valued::Sides => "--sides",
            Valued::Width => "--width",
            Valued::Lines => "--lines",
            Valued::Columns => "--columns",
        };
        Refusal::NoNumber { option }
    }
}

/// The number that these digits are.
fn number(digits: &[u8]) -> Option<usize> {
    if digits.is_empty() {
        return None;
    }
    let mut made = 0u32;
    for byte in digits {
        let digit = match *byte {
            b'0'..=b'9' => u32::from(*byte - b'0'),
            _ => return None,
        };
        made = made.checked_mul(10)?.checked_add(digit)?;
    }
    usize::try_from(made).ok()
}

/// The numbers of a skew, which has commas between them.
pub fn read_skew(alloc: Global, list: &[u8]) -> Result<Vec<usize>, Refusal> {
    let mut made = Vec::new(alloc);
    for digits in list.split(|byte| *byte == b',') {
        let Some(place) = number(digits) else {
            return Err(Valued::Skew.no_number());
        };
        made.push(place).map_err(|_| Refusal::OutOfMemory)?;
    }
    Ok(made)
}

/// What was given, before it is known which of it goes together.
#[derive(Drop)]
struct Given {
    options: Options,
    width: usize,
    lines: Option<usize>,
    columns: Option<usize>,
}

impl Given {
    /// Nothing.
    fn new(alloc: Global) -> Given {
        let options = Options {
            format: Format::Plain(containers::Format::Blocks),
            offset: None,
            sector: None,
            skew: Vec::new(alloc),
            first: 0,
            side: None,
            records: None,
            cleans: false,
            is_half: false,
            is_ebcdic: false,
        };
        Given {
            options,
            width: 0,
            lines: None,
            columns: None,
        }
    }

    /// Takes a word that has no value; false if it is none.
    fn take_flag(&mut self, word: &[u8]) -> bool {
        match word {
            b"--clean" => self.options.cleans = true,
            b"--half" => self.options.is_half = true,
            b"--ebcdic" => self.options.is_ebcdic = true,
            _ => return false,
        }
        true
    }

    /// Takes a number.
    fn take_number(&mut self, option: Valued, value: usize) {
        let options = &mut self.options;
        match option {
            Valued::Format | Valued::Skew => {}
            Valued::Offset => options.offset = u32::try_from(value).ok(),
            Valued::Sector => options.sector = Some(value),
            Valued::First => options.first = value,
            Valued::Sides => options.side = if value > 0 { Some(value) } else { None },
            Valued::Width => self.width = value,
            Valued::Lines => self.lines = Some(value),
            Valued::Columns => self.columns = Some(value),
        }
    }

    /// Takes an option's value.
    fn take(&mut self, alloc: Global, option: Valued, word: &[u8]) -> Result<(), Refusal> {
        match option {
            Valued::Format => {
                self.options.format = Format::named(word).ok_or(Refusal::NoFormat)?;
            }
            Valued::Skew => self.options.skew = read_skew(alloc, word)?,
            _ => {
                let value = number(word).ok_or(option.no_number())?;
                self.take_number(option, value);
            }
        }
        Ok(())
    }

    /// The options.
    fn finish(self) -> Options {
        let Given {
            mut options,
            width,
            lines,
            columns,
        } = self;
        options.records = Records::new(width, lines, columns);
        options
    }
}

/// The options that these words are, with blanks between them, as on a command line.
pub fn read_options(alloc: Global, words: &[u8]) -> Result<Options, Refusal> {
    let mut given = Given::new(alloc);
    let mut valued: Option<Valued> = None;
    for (at, word) in words
        .split(|byte| *byte == b' ')
        .filter(|word| !word.is_empty())
        .enumerate()
    {
        if let Some(option) = valued {
            given.take(alloc, option, word)?;
            valued = None;
        } else if !given.take_flag(word) {
            let word_number = at.saturating_add(1);
            valued = Some(Valued::named(word).ok_or(Refusal::NoOption { word: word_number })?);
        }
    }
    if valued.is_some() {
        return Err(Refusal::NoValue);
    }
    Ok(given.finish())
}
