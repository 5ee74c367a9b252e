//! What the report says of words.

use crate::addresses::{AddressUse, addresses, halves};
use crate::habits::{Differing, differing_words, returns};
use crate::kept::{NotKept, not_kept};
use crate::names::Names;
use crate::page::Page;
use crate::page::Piece::{Address, Cut, Left, Number, Right, Text};
use crate::source::{Made, OWN_CASE, Place, Source, Use};
use crate::telling::SEVERAL;
use crate::verdict::Verdict;
use std::alloc::{AllocError, Global};
use survey_tables::{ADVICE, Dialect, MAPS, SYSTEMS, TOOLS, has};

/// How many unknown words have a line of their own.
const MOST_WORDS: usize = 30;

/// How wide a list of more words is at most.
const WIDE: usize = 400;

/// Adds a word, how often it is used, and where.
fn put_places(page: &mut Page, places: &[Place<'_>], most: usize) -> Result<(), AllocError> {
    page.put_all(&[Right(places.len(), 5), Text(b"  ")])?;
    page.put_spots(places, most)
}

/// Adds the dialects in which a word means this, and the meaning.
fn put_meaning(
    page: &mut Page,
    one: &Differing<'_>,
    meaning: &[u8],
    among: &[Dialect],
) -> Result<(), AllocError> {
    let mut count = 0usize;
    for dialect in among {
        if one.meaning.of(*dialect) == meaning {
            page.put_between(count, b", ")?;
            page.put(dialect.name())?;
            count = count.saturating_add(1);
        }
    }
    page.put_all(&[Text(b": "), Text(meaning)])
}

/// Adds what a word means in these dialects: those first that mean the same as the first one.
fn put_meanings(page: &mut Page, one: &Differing<'_>, among: &[Dialect]) -> Result<(), AllocError> {
    let mut groups = 0usize;
    for (index, first) in among.iter().enumerate() {
        let meaning = one.meaning.of(*first);
        let before = among.get(..index).unwrap_or(&[]);
        if before
            .iter()
            .any(|dialect| one.meaning.of(*dialect) == meaning)
        {
            continue;
        }
        page.put_between(groups, b"; ")?;
        groups = groups.saturating_add(1);
        put_meaning(page, one, meaning, among)?;
    }
    Ok(())
}

/// Says which words differ between the dialects in question.
pub fn tell_meanings(
    page: &mut Page,
    alloc: Global,
    source: &Source<'_>,
    among: &[Dialect],
    most: usize,
) -> Result<(), AllocError> {
    let mut found = differing_words(alloc, source, among, false)?;
    if found.is_empty() {
        return Ok(());
    }
    found.sort_by_key(|one| usize::MAX - one.places.len())?;
    page.put(b"these words differ between ")?;
    match among {
        [one] => page.put(one.name())?,
        [one, other] => page.put_all(&[Text(one.name()), Text(b" and "), Text(other.name())])?,
        _ => page.put(b"these dialects")?,
    }
    page.put(b"; how often they are used, and where, as screen:line:\n")?;
    for one in found.iter() {
        page.put_all(&[Text(b"  "), Left(one.what, 16)])?;
        put_places(page, one.places.as_slice(), most)?;
        page.put(b"  (")?;
        put_meanings(page, one, among)?;
        page.put(b")\n")?;
    }
    Ok(())
}

/// Whether two things are written with the same words.
fn is_same(a: &NotKept<'_>, b: &NotKept<'_>) -> bool {
    a.name == b.name
        && a.words[0] == b.words[0]
        && a.words[1] == b.words[1]
        && a.words[2] == b.words[2]
        && a.why == b.why
}

/// What is written, with blanks between its words.
fn written(alloc: Global, one: &NotKept<'_>) -> Result<Page, AllocError> {
    let mut name = Page::new(alloc);
    name.put(one.name)?;
    for (index, word) in one.words.iter().enumerate() {
        if !word.is_empty() {
            name.put_between(index, b" ")?;
            name.put(word)?;
        }
    }
    Ok(name)
}

/// Says what no dialect can keep.
pub fn tell_not_kept(
    page: &mut Page,
    alloc: Global,
    source: &Source<'_>,
    most: usize,
) -> Result<(), AllocError> {
    let found = not_kept(alloc, source)?;
    if !found.is_empty() {
        page.put(b"no dialect can keep these; where, as screen:line:\n")?;
    }
    for (index, one) in found.iter().enumerate() {
        let before = found.as_slice().get(..index).unwrap_or(&[]);
        if before.iter().any(|other| is_same(one, other)) {
            continue;
        }
        let mut places: Vec<Place<'_>> = Vec::new(alloc);
        for other in found.iter() {
            if is_same(one, other) {
                places.push(other.place)?;
            }
        }
        let name = written(alloc, one)?;
        page.put_all(&[Text(b"  "), Left(name.text.as_slice(), 16)])?;
        put_places(page, places.as_slice(), most)?;
        page.put_all(&[Text(b"  "), Text(one.why), Text(b"\n")])?;
    }
    Ok(())
}

/// Says where the source compares a key with the return key, and where it depends on the order of a cell's bytes.
pub fn tell_keys(
    page: &mut Page,
    alloc: Global,
    source: &Source<'_>,
    most: usize,
) -> Result<(), AllocError> {
    let places = returns(alloc, source)?;
    if !places.is_empty() {
        page.put(
            b"the return key is 13 after a dialect, and 10 without one; compared with one of them at ",
        )?;
        page.put_spots(places.as_slice(), most)?;
        page.put(b"\n")?;
    }
    let places = halves(alloc, source)?;
    if !places.is_empty() {
        page.put(b"one byte of a cell is used at ")?;
        page.put_spots(places.as_slice(), most)?;
        page.put(
            b": the low one comes first here; if the high one did there, load screens/dialects/high-first.txt after the dialect\n",
        )?;
    }
    Ok(())
}

/// Adds a note, if there is one, and the end of the line.
fn put_note(page: &mut Page, note: &[u8]) -> Result<(), AllocError> {
    if note.is_empty() {
        page.put(b"\n")
    } else {
        page.put_all(&[Text(b"  "), Text(note), Text(b"\n")])
    }
}

/// The machine that has something at an address.
fn machine_of(at: u32) -> &'static [u8] {
    match MAPS.iter().find(|map| map.first <= at && at <= map.last) {
        Some(map) => map.machine,
        None => b"",
    }
}

/// The addresses of a machine, as `C030`, or `C030-C05F` from the first to the last.
fn span(alloc: Global, found: &[AddressUse<'_>], machine: &[u8]) -> Result<Page, AllocError> {
    let (mut first, mut last) = (65535u32, 0u32);
    for one in found {
        if machine_of(one.at) == machine {
            first = first.min(one.at);
            last = last.max(one.at);
        }
    }
    let mut text = Page::new(alloc);
    text.put_all(&[Address(first)])?;
    if first < last {
        text.put_all(&[Text(b"-"), Address(last)])?;
    }
    Ok(text)
}

/// Says which addresses of another machine are used, and which machines have something there.
pub fn tell_addresses(
    page: &mut Page,
    alloc: Global,
    source: &Source<'_>,
    most: usize,
) -> Result<(), AllocError> {
    let found = addresses(alloc, source)?;
    if !found.is_empty() {
        page.put(
            b"addresses of another machine, in HEX, and where they are used: write a word for each device; a dialect refuses most of them\n",
        )?;
    }
    for (index, one) in found.iter().enumerate() {
        let machine = machine_of(one.at);
        let before = found.as_slice().get(..index).unwrap_or(&[]);
        if before.iter().any(|other| machine_of(other.at) == machine) {
            continue;
        }
        let mut places: Vec<Place<'_>> = Vec::new(alloc);
        for other in found.iter() {
            if machine_of(other.at) == machine {
                places.push(other.place)?;
            }
        }
        let span = span(alloc, found.as_slice(), machine)?;
        page.put_all(&[Text(b"  "), Left(span.text.as_slice(), 16)])?;
        put_places(page, places.as_slice(), most)?;
        put_note(page, machine)?;
    }
    Ok(())
}

/// What to write for a word.
fn advice_of(word: &[u8]) -> Option<&'static [u8]> {
    ADVICE
        .iter()
        .find(|advice| has(advice.words, word))
        .map(|advice| advice.text)
}

/// Why a dialect or a system leaves a word out.
fn left_out(word: &[u8], dialects: &[Dialect]) -> Option<&'static [u8]> {
    dialects
        .iter()
        .find_map(|dialect| dialect.left_out().iter().find(|out| has(out.words, word)))
        .or_else(|| SYSTEMS.iter().find_map(|system| system
            .left_out()
            .iter()
            .find(|out| has(out.words, word))))
        .map(|out| out.why)
}

/// What to do about a word that is unknown.
fn advice(word: &[u8], dialects: &[Dialect], known: &Names<'_>) -> &'static [u8] {
    if let Some(advice) = advice_of(word) {
        return advice;
    }
    if let Some(why) = left_out(word, dialects) {
        return why;
    }
    if has(TOOLS, word) && known.has(word) {
        return b"a tool of this Forth has that name, and screens do not find it";
    }
    b""
}

/// Adds a line with a word, how often it is used, where first, and what to do about it.
fn put_word(
    page: &mut Page,
    source: &Source<'_>,
    one: &Use<'_>,
    advice: &[u8],
) -> Result<(), AllocError> {
    let place = source.at(one.first);
    page.put_all(&[
        Text(b"  "),
        Left(one.word, 16),
        Right(one.count, 5),
        Text(b"  screen "),
        Number(place.screen),
        Text(b" line "),
        Number(place.line),
    ])?;
    put_note(page, advice)
}

/// Adds words that are unknown, too, without lines of their own.
fn put_more(page: &mut Page, words: &[Use<'_>]) -> Result<(), AllocError> {
    let mut list = Page::new(page.alloc());
    for (index, one) in words.iter().enumerate() {
        list.put_between(index, b" ")?;
        list.put(one.word)?;
    }
    page.put_all(&[
        Text(b"  and "),
        Number(words.len()),
        Text(b" more: "),
        Cut(list.text.as_slice(), WIDE),
        Text(b"\n"),
    ])
}

/// Words of a report: those that are unknown after the dialects, and all words that the source does not define.
#[derive(Clone, Copy)]
pub struct WordLists<'w, 'a> {
    pub unknown: &'w [Use<'a>],
    pub all: &'w [Use<'a>],
}

/// Whether a word is none of those that are unknown, and there is something else to write for it.
fn is_other(word: &[u8], unknown: &[Use<'_>]) -> bool {
    advice_of(word).is_some() && !unknown.iter().any(|one| one.word == word)
}

/// Says which words the dialects don't know.
fn tell_unknown(
    page: &mut Page,
    source: &Source<'_>,
    dialects: &[Dialect],
    known: &Names<'_>,
    unknown: &[Use<'_>],
) -> Result<(), AllocError> {
    page.put_all(&[
        Text(b"unknown words: "),
        Number(unknown.len()),
        Text(b"; how often they are used, where first, and what to do if that is clear:\n"),
    ])?;
    for one in unknown.iter().take(MOST_WORDS) {
        put_word(page, source, one, advice(one.word, dialects, known))?;
    }
    match unknown.get(MOST_WORDS..) {
        Some(more) if !more.is_empty() => put_more(page, more),
        _ => Ok(()),
    }
}

/// Says which words the dialects don't know, and for which there is something else to write.
pub fn tell_words(
    page: &mut Page,
    source: &Source<'_>,
    dialects: &[Dialect],
    known: &Names<'_>,
    lists: WordLists<'_, '_>,
) -> Result<(), AllocError> {
    let unknown = lists.unknown;
    let has_others = lists.all.iter().any(|one| is_other(one.word, unknown));
    if !unknown.is_empty() {
        tell_unknown(page, source, dialects, known, unknown)?;
    } else if has_others {
        page.put(b"every word is known, but write something else for these:\n")?;
    } else {
        page.put(b"every word is known\n")?;
    }
    for one in lists.all {
        if is_other(one.word, unknown) {
            put_word(page, source, one, advice_of(one.word).unwrap_or(b""))?;
        }
    }
    Ok(())
}

/// Says which definitions don't end.
pub fn tell_unended(page: &mut Page, source: &Source<'_>) -> Result<(), AllocError> {
    for open in source.unended.iter() {
        page.put_all(&[
            Text(b"screen "),
            Number(open.screen),
            Text(b" line "),
            Number(open.line),
            Text(b": the definition of "),
            Text(open.name),
            Text(b" has no ; before the next definition\n"),
        ])?;
    }
    Ok(())
}

/// Each way in which words are written, with the word in capitals; in order, each once.
fn written_words<'a>(
    alloc: Global,
    source: &Source<'a>,
) -> Result<Vec<(&'a [u8], &'a [u8])>, AllocError> {
    let mut words: Vec<(&'a [u8], &'a [u8])> = Vec::new(alloc);
    for place in source.places.iter() {
        words.push((place.word, place.written))?;
    }
    words.sort_unstable();
    words.dedup();
    Ok(words)
}

/// Names that were made with lower case and are used in another case, each with one of these uses; in order.
fn folded<'a>(alloc: Global, source: &Source<'a>) -> Result<Vec<(&'a [u8], &'a [u8])>, AllocError> {
    let written = written_words(alloc, source)?;
    let mut made: Vec<Made<'a>> = Vec::new(alloc);
    for one in source.made.iter() {
        made.push(*one)?;
    }
    made.sort_by_key(|one| one.name)?;
    let mut found = Vec::new(alloc);
    for (index, one) in made.iter().enumerate() {
        let is_last = !made
            .iter()
            .skip(index.saturating_add(1))
            .take(1)
            .any(|next| next.name == one.name);
        if is_last && one.written != one.name {
            let other = written.iter().find(|(word, as_written)| *word == one.name
                && *as_written != one.written);
            if let Some((_, other)) = other {
                found.push((one.written, *other))?;
            }
        }
    }
    Ok(found)
}

/// Says which names are in several cases.
pub fn tell_cases(
    page: &mut Page,
    alloc: Global,
    source: &Source<'_>,
    verdict: &Verdict<'_>,
) -> Result<(), AllocError> {
    let found = folded(alloc, source)?;
    if found.is_empty() || matches!(verdict.dialects.as_slice(), [Dialect::F83]) {
        return Ok(());
    }
    page.put(b"names in upper and lower case, which only F83 treats as the same: ")?;
    for (index, (made, used)) in found.iter().take(SEVERAL).enumerate() {
        page.put_between(index, b", ")?;
        page.put_all(&[Text(*made), Text(b" as "), Text(*used)])?;
    }
    page.put(b"\n")
}

/// Whether the source makes a name.
fn is_made(source: &Source<'_>, name: &[u8]) -> bool {
    source.made.iter().any(|one| one.name == name)
}

/// Says where the source defines a choice that the Forth has.
pub fn tell_own_case(
    page: &mut Page,
    source: &Source<'_>,
    known: &Names<'_>,
) -> Result<(), AllocError> {
    if !OWN_CASE
        .split(|byte| *byte == b' ')
        .all(|name| known.has(name) && is_made(source, name))
    {
        return Ok(());
    }
    let mut screen = None;
    for one in source.made.iter() {
        if !has(OWN_CASE, one.name) {
            continue;
        }
        if screen != Some(one.screen) {
            if screen.is_some() {
                page.put(b", which the Forth has: if it refuses them, leave them out\n")?;
            }
            page.put_all(&[Text(b"screen "), Number(one.screen), Text(b" defines")])?;
            screen = Some(one.screen);
        }
        page.put_all(&[Text(b" "), Text(one.name)])?;
    }
    page.put(b", which the Forth has: if it refuses them, leave them out\n")
}
