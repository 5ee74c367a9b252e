//! A source: its words with their places, and the names that it defines.

use crate::names::Names;
use crate::numbers::is_number;
use crate::reader::{LINE, Reader};
use crate::screen::{Kind, Screen};
use std::alloc::{AllocError, Global};
use survey_tables::has;

/// Words that define a name outside of definitions.
const DEFINING: &[u8] =
    b"CREATE VARIABLE CONSTANT 2VARIABLE 2CONSTANT VOCABULARY CODE LABEL USER DEFER CVARIABLE CCONSTANT CASE: <BUILDS LOADS";

/// Words that make a defining word of the definition that they are in.
const MAKING: &[u8] = b"CREATE <BUILDS DOES>";

/// A choice that programs define themselves, and the Forth has.
pub const OWN_CASE: &[u8] = b"CASE OF ENDOF ENDCASE";

/// A word of the source, in capitals, and as it is written; where it is, whether in a definition, the base that the source has set
/// there, and the name that the word defines.
#[derive(Clone, Copy)]
pub struct Place<'a> {
    pub word: &'a [u8],
    pub written: &'a [u8],
    pub screen: usize,
    pub line: usize,
    pub is_inside: bool,
    pub base: u32,
    pub name: &'a [u8],
}

/// The place before the first one, and after the last.
pub const NOWHERE: Place<'static> = Place {
    word: b"",
    written: b"",
    screen: usize::MAX,
    line: usize::MAX,
    is_inside: false,
    base: 10,
    name: b"",
};

/// A name as a definition spells it.
#[derive(Clone, Copy)]
pub struct Made<'a> {
    pub name: &'a [u8],
    pub written: &'a [u8],
    pub screen: usize,
    pub line: usize,
}

/// A source.
#[derive(Drop)]
pub struct Source<'a> {
    pub places: Vec<Place<'a>>,
    /// The names that it defines, as they are spelled.
    pub made: Vec<Made<'a>>,
    /// The same names, in order once all is read.
    pub defined: Names<'a>,
    /// Definitions before whose end another one begins.
    pub unended: Vec<Made<'a>>,
    /// How many words have lower case.
    pub lower_case: usize,
    /// Whether it sets base 16 somewhere.
    pub is_base16: bool,
    makers: Vec<&'a [u8]>,
    base: u32,
    /// The definition that is open; it has no name before that is read.
    open: Option<Made<'a>>,
    /// Whether the next word is a name.
    wants_name: bool,
}

impl<'a> Source<'a> {
    fn new(alloc: Global) -> Source<'a> {
        Source {
            places: Vec::new(alloc),
            made: Vec::new(alloc),
            defined: Names::new(alloc),
            unended: Vec::new(alloc),
            lower_case: 0,
            is_base16: false,
            makers: Vec::new(alloc),
            base: 10,
            open: None,
            wants_name: false,
        }
    }

    /// The source in these screens.
    pub fn read(alloc: Global, screens: &[Screen<'a>]) -> Result<Source<'a>, AllocError> {
        let mut source = Source::new(alloc);
        for screen in screens {
            if screen.kind == Kind::Source {
                source.take_screen(screen)?;
            }
        }
        source.defined.sort();
        Ok(source)
    }

    /// Whether it defines this name.
    pub fn defines(&self, word: &[u8]) -> bool {
        self.defined.has(word)
    }

    /// The place at this index, or nowhere.
    pub fn at(&self, index: usize) -> Place<'a> {
        self.places.get(index).copied().unwrap_or(NOWHERE)
    }

    fn take_screen(&mut self, screen: &Screen<'a>) -> Result<(), AllocError> {
        let mut reader = Reader::new(screen.capitals, self.open.is_some());
        self.wants_name = false;
        for _ in 0..screen.capitals.len() {
            let Some(word) = reader.next() else {
                break;
            };
            let written = screen.text.get(word.start..word.end).unwrap_or(b"");
            self.take(Made {
                name: reader.bytes(word),
                written,
                screen: screen.number,
                line: word.start / LINE,
            })?;
        }
        Ok(())
    }

    /// Notes a word.
    fn take(&mut self, word: Made<'a>) -> Result<(), AllocError> {
        if word.written != word.name {
            self.lower_case = self.lower_case.saturating_add(1);
        }
        if matches!(word.name, b"HEX") {
            self.is_base16 = true;
        }
        if self.wants_name {
            return self.take_name(word);
        }
        self.end_open(word.name)?;
        self.set_base(word.name);
        self.places.push(Place {
            word: word.name,
            written: word.written,
            screen: word.screen,
            line: word.line,
            is_inside: self.open.is_some(),
            base: self.base,
            name: b"",
        })?;
        self.note_maker(word.name)?;
        let is_colon = matches!(word.name, b":");
        self.wants_name = is_colon || self.open.is_none() && self.is_defining(word.name);
        if is_colon {
            self.open = Some(Made { name: b"", ..word });
        } else if matches!(word.name, b";" | b";CODE") {
            self.open = None;
        }
        Ok(())
    }

    /// Whether a word makes a name of the next one.
    fn is_defining(&self, word: &[u8]) -> bool {
        has(DEFINING, word) || self.makers.iter().any(|maker| *maker == word)
    }

    /// Where a definition begins within another one, that has no end.
    fn end_open(&mut self, word: &[u8]) -> Result<(), AllocError> {
        if let Some(open) = self.open {
            if matches!(word, b":") && !open.name.is_empty() {
                self.unended.push(open)?;
                self.open = None;
            }
        }
        Ok(())
    }

    /// Notes the base that a word sets outside of definitions.
    fn set_base(&mut self, word: &[u8]) {
        if self.open.is_none() {
            self.base = match word {
                b"HEX" => 16,
                b"DECIMAL" => 10,
                b"OCTAL" => 8,
                b"BINARY" => 2,
                _ => self.base,
            };
        }
    }

    /// A definition that makes words is a defining word.
    fn note_maker(&mut self, word: &[u8]) -> Result<(), AllocError> {
        if let Some(open) = self.open {
            if has(MAKING, word) {
                self.makers.push(open.name)?;
            }
        }
        Ok(())
    }

    /// Notes a name that the word before defines.
    fn take_name(&mut self, word: Made<'a>) -> Result<(), AllocError> {
        self.wants_name = false;
        self.defined.push(word.name)?;
        self.made.push(word)?;
        if let Some(open) = self.open {
            if open.name.is_empty() {
                self.open = Some(word);
            }
        }
        if let Some(place) = self.places.pop() {
            self.places.push(Place {
                name: word.name,
                ..place
            })?;
        }
        Ok(())
    }
}

/// A word that the source uses and does not define: how often, and where first.
#[derive(Clone, Copy)]
pub struct Use<'a> {
    pub word: &'a [u8],
    pub count: usize,
    /// The index of its first place.
    pub first: usize,
}

/// The words that the source uses and does not define, those in order.
pub fn uses<'a>(alloc: Global, source: &Source<'a>) -> Result<Vec<Use<'a>>, AllocError> {
    let mut found: Vec<(&'a [u8], usize)> = Vec::new(alloc);
    for (first, place) in source.places.iter().enumerate() {
        found.push((place.word, first))?;
    }
    found.sort_unstable();
    let mut uses: Vec<Use<'a>> = Vec::new(alloc);
    for (word, first) in &found {
        if let Some(last) = uses.pop() {
            let is_same = last.word == *word;
            uses.push(Use {
                count: last.count.saturating_add(usize::from(is_same)),
                ..last
            })?;
            if is_same {
                continue;
            }
        }
        if !source.defines(word) {
            uses.push(Use {
                word: *word,
                count: 1,
                first: *first,
            })?;
        }
    }
    Ok(uses)
}

/// The words among these that are neither of these names nor numbers, the most used first.
pub fn unknown<'a>(
    alloc: Global,
    uses: &[Use<'a>],
    is_base16: bool,
    known: &Names<'_>,
    more: &Names<'_>,
) -> Result<Vec<Use<'a>>, AllocError> {
    let mut found = Vec::new(alloc);
    for one in uses {
        let word = one.word;
        if !known.has(word) && !more.has(word) && !is_number(word, is_base16) {
            found.push(*one)?;
        }
    }
    found.sort_by_key(|one| (usize::MAX - one.count, one.first))?;
    Ok(found)
}
