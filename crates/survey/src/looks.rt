//! What the report says of the screens: what they look like, and which bytes are no text.

use crate::page::Page;
use crate::page::Piece::{Cut, Left, Number, Right, Text};
use crate::reader::{LINE, Reader};
use crate::screen::{Kind, Screen, is_bad, twice};
use crate::words::Word;
use std::alloc::{AllocError, Global};

/// The kinds of screens, and what they are called.
const KINDS: [(Kind, &[u8]); 6] = [
    (Kind::Source, b"source"),
    (Kind::Shadow, b"shadow"),
    (Kind::Text, b"text"),
    (Kind::Data, b"data"),
    (Kind::Dialect, b"dialect"),
    (Kind::Blank, b"blank"),
];

/// How wide a list of screens is at most.
const WIDE: usize = 100;

/// Adds numbers, with runs as `1-3`.
fn put_ranges(page: &mut Page, numbers: &[usize]) -> Result<(), AllocError> {
    let mut begins = true;
    for (index, number) in numbers.iter().enumerate() {
        let next = numbers.get(index.saturating_add(1));
        let goes_on = next.copied() == Some(number.saturating_add(1));
        if begins {
            page.put_between(index, b" ")?;
            page.put_number(*number)?;
        } else if !goes_on {
            page.put_all(&[Text(b"-"), Number(*number)])?;
        }
        begins = !goes_on;
    }
    Ok(())
}

/// The numbers of the screens of a kind.
fn numbers_of(alloc: Global, screens: &[Screen<'_>], kind: Kind) -> Result<Vec<usize>, AllocError> {
    screens
        .iter()
        .filter(|screen| screen.kind == kind)
        .map(|screen| screen.number)
        .collect(alloc)
}

/// Says which screens look like what.
pub fn tell_kinds(
    page: &mut Page,
    alloc: Global,
    screens: &[Screen<'_>],
) -> Result<(), AllocError> {
    for (kind, name) in &KINDS {
        let numbers = numbers_of(alloc, screens, *kind)?;
        if numbers.is_empty() {
            continue;
        }
        let mut ranges = Page::new(alloc);
        put_ranges(&mut ranges, numbers.as_slice())?;
        page.put_all(&[
            Left(*name, 8),
            Right(numbers.len(), 6),
            Text(b"  "),
            Cut(ranges.text.as_slice(), WIDE),
            Text(b"\n"),
        ])?;
    }
    Ok(())
}

/// The screens that are the same as others: of each the number of the first that is the same, and its own; those in order.
fn same_screens(alloc: Global, screens: &[Screen<'_>]) -> Result<Vec<(usize, usize)>, AllocError> {
    let mut sorted: Vec<(&[u8], usize)> = Vec::new(alloc);
    for screen in screens {
        if screen.kind != Kind::Blank {
            sorted.push((screen.bytes, screen.number))?;
        }
    }
    sorted.sort_unstable();
    let mut same: Vec<(usize, usize)> = Vec::new(alloc);
    let mut first: (&[u8], usize) = (b"", 0);
    let mut has_first = false;
    for (bytes, number) in &sorted {
        if *bytes != first.0 {
            first = (*bytes, *number);
            has_first = false;
            continue;
        }
        if !has_first {
            same.push((first.1, first.1))?;
            has_first = true;
        }
        same.push((first.1, *number))?;
    }
    same.sort_unstable();
    Ok(same)
}

/// Says which screens are the same.
pub fn tell_same(page: &mut Page, alloc: Global, screens: &[Screen<'_>]) -> Result<(), AllocError> {
    let same = same_screens(alloc, screens)?;
    if same.is_empty() {
        return Ok(());
    }
    let mut list = Page::new(alloc);
    for (index, (first, number)) in same.iter().enumerate() {
        if first != number {
            list.put(b" = ")?;
        } else {
            list.put_between(index, b", ")?;
        }
        list.put_number(*number)?;
    }
    page.put_all(&[
        Text(b"the same: "),
        Cut(list.text.as_slice(), WIDE),
        Text(b"\n"),
    ])
}

/// Bytes that are no text: which, or 128 for one with a high bit; how many, and where first.
#[derive(Clone, Copy)]
struct BadByte {
    byte: u8,
    count: usize,
    screen: usize,
    line: usize,
}

/// Bytes that are no text, how many of them have a high bit, and how many of these are in words of a source.
#[derive(Drop)]
struct BadBytes {
    kinds: Vec<BadByte>,
    high: usize,
    in_source: usize,
}

impl BadBytes {
    fn of(alloc: Global, screens: &[Screen<'_>]) -> Result<BadBytes, AllocError> {
        let mut bad = BadBytes {
            kinds: Vec::new(alloc),
            high: 0,
            in_source: 0,
        };
        for screen in screens {
            if matches!(screen.kind, Kind::Source | Kind::Text | Kind::Shadow) {
                bad.take(alloc, screen)?;
            }
        }
        Ok(bad)
    }

    fn take(&mut self, alloc: Global, screen: &Screen<'_>) -> Result<(), AllocError> {
        let words = words_of(alloc, screen)?;
        for (at, byte) in screen.bytes.iter().enumerate() {
            if !is_bad(*byte) {
                continue;
            }
            self.note((*byte).min(128), screen.number, at / LINE)?;
            if *byte > 127 {
                self.high = self.high.saturating_add(1);
                if words.iter().any(|word| word.start <= at && at < word.end) {
                    self.in_source = self.in_source.saturating_add(1);
                }
            }
        }
        Ok(())
    }

    fn note(&mut self, byte: u8, screen: usize, line: usize) -> Result<(), AllocError> {
        for one in self.kinds.iter_mut() {
            if one.byte == byte {
                one.count = one.count.saturating_add(1);
                return Ok(());
            }
        }
        self.kinds.push(BadByte {
            byte,
            count: 1,
            screen,
            line,
        })?;
        Ok(())
    }
}

/// The words of a source that has bytes that are no text.
fn words_of(alloc: Global, screen: &Screen<'_>) -> Result<Vec<Word>, AllocError> {
    let mut words = Vec::new(alloc);
    if screen.kind != Kind::Source || !screen.bytes.iter().any(|byte| is_bad(*byte)) {
        return Ok(words);
    }
    let mut reader = Reader::new(screen.capitals, false);
    for _ in 0..screen.capitals.len() {
        match reader.next() {
            Some(word) => words.push(word)?,
            None => break,
        }
    }
    Ok(words)
}

/// Adds what a byte is called.
fn put_byte(page: &mut Page, byte: u8) -> Result<(), AllocError> {
    match byte {
        0 => page.put(b"NUL"),
        9 => page.put(b"tab"),
        10 => page.put(b"line feed"),
        13 => page.put(b"return"),
        26 => page.put(b"^Z"),
        128 => page.put(b"high bit"),
        _ => page.put_all(&[Text(b"byte "), Number(usize::from(byte))]),
    }
}

/// Says where bytes are that are no text, by what they are, and how they are cleaned.
pub fn tell_bytes(
    page: &mut Page,
    alloc: Global,
    screens: &[Screen<'_>],
) -> Result<(), AllocError> {
    let bad = BadBytes::of(alloc, screens)?;
    for one in bad.kinds.iter() {
        page.put_all(&[Number(one.count), Text(b" x ")])?;
        put_byte(page, one.byte)?;
        page.put_all(&[
            Text(b", first on screen "),
            Number(one.screen),
            Text(b" line "),
            Number(one.line),
            Text(b"\n"),
        ])?;
    }
    if bad.high > 0 && bad.in_source == 0 && bad.kinds.len() == 1 {
        page.put(
            b"  they are all in comments and texts: leave them, they are letters of the old system; `--clean` would change them\n",
        )?;
    } else if !bad.kinds.is_empty() {
        page.put(
            b"  such bytes are parts of words here; `./forth83 import --clean` clears high bits, and replaces the rest with blanks\n",
        )?;
    }
    tell_holes(page, screens)
}

/// Where a screen has 128 NULs, first.
fn hole_in(bytes: &[u8]) -> Option<usize> {
    bytes
        .windows(128)
        .position(|window| window.iter().all(|byte| *byte == 0))
}

/// Says where a part of a disk seems to be missing.
fn tell_holes(page: &mut Page, screens: &[Screen<'_>]) -> Result<(), AllocError> {
    for screen in screens {
        if screen.kind != Kind::Source {
            continue;
        }
        if let Some(hole) = hole_in(screen.bytes) {
            page.put_all(&[
                Text(b"  screen "),
                Number(screen.number),
                Text(b" has 128 NULs or more from line "),
                Number(hole / LINE),
                Text(b": was a sector not read? its code is missing\n"),
            ])?;
        }
    }
    Ok(())
}

/// The first line that is a comment from its beginning, as a title is.
fn title_line(text: &[u8]) -> Option<usize> {
    text.chunks(LINE)
        .position(|line| matches!(line, [b'(' | b'\\', b' ', ..]))
}

/// How many screens of source have their title on a line.
fn titles_on(screens: &[Screen<'_>], line: usize) -> usize {
    screens
        .iter()
        .filter(|screen| screen.kind == Kind::Source && title_line(screen.text) == Some(line))
        .count()
}

/// Says whether the screens seem to begin at another line than the first.
pub fn tell_shift(page: &mut Page, screens: &[Screen<'_>]) -> Result<(), AllocError> {
    let count = screens
        .iter()
        .filter(|screen| screen.kind == Kind::Source)
        .count();
    for line in 1..16usize {
        let titles = titles_on(screens, line);
        if count >= 4 && twice(titles).saturating_add(titles) > twice(count) {
            page.put_all(&[
                Number(titles),
                Text(b" of "),
                Number(count),
                Text(b" titles are on line "),
                Number(line),
                Text(b": the screens seem to begin there; import again with --offset "),
                Number(line * LINE),
                Text(b" more\n"),
            ])?;
        }
    }
    Ok(())
}
