//! A survey of old screens.

use crate::addresses::addresses;
use crate::habits::differing_words;
use crate::looks::{tell_bytes, tell_kinds, tell_same, tell_shift};
use crate::names::{Names, names_of};
use crate::page::Page;
use crate::page::Piece::{Number, Text};
use crate::screen::{Kind, Screen, Texts, screens_of};
use crate::signs::signs_of;
use crate::source::{Source, Use, unknown, uses};
use crate::telling::{Known, tell_dialect};
use crate::verdict::{Verdict, decide};
use crate::wordlines::{
    WordLists, tell_addresses, tell_cases, tell_keys, tell_meanings, tell_not_kept, tell_own_case,
    tell_unended, tell_words,
};
use std::alloc::{AllocError, Global};
use survey_tables::{DIALECTS, Dialect, HIDDEN, TOOLS, has};

/// What is asked: of which blocks, and what they are called; from which to which screen; what the Forth knows, names with blanks
/// between them; and how many places of a word are listed.
#[derive(Clone, Copy)]
pub struct Asked<'a> {
    pub name: &'a [u8],
    pub blocks: &'a [u8],
    pub first: usize,
    pub last: usize,
    pub known: &'a [u8],
    pub most: usize,
}

/// The report, and the dialect that is to be loaded, the best first if it is undecided.
#[derive(Drop)]
pub struct Report {
    pub text: Vec<u8>,
    pub dialects: Vec<Dialect>,
}

/// What the Forth knows that screens find: not its tools, and not what dialects hide.
fn found_names<'a>(alloc: Global, list: &'a [u8]) -> Result<Names<'a>, AllocError> {
    let mut names = Names::new(alloc);
    for name in list.split(|byte| *byte == b' ') {
        if !has(TOOLS, name) && !has(HIDDEN, name) {
            names.push(name)?;
        }
    }
    names.sort();
    Ok(names)
}

/// All names of the Forth and of the dialects.
fn all_names<'a>(alloc: Global, list: &'a [u8]) -> Result<Names<'a>, AllocError> {
    let mut names = Names::new(alloc);
    names.add(list)?;
    for dialect in &DIALECTS {
        names.add(dialect.names())?;
    }
    names.sort();
    Ok(names)
}

/// How many words stay unknown after each dialect.
fn counts_of(
    alloc: Global,
    source: &Source<'_>,
    uses: &[Use<'_>],
    known: &Names<'_>,
) -> Result<Vec<(Dialect, usize)>, AllocError> {
    let mut counts = Vec::new(alloc);
    for dialect in &DIALECTS {
        let names = names_of(alloc, &[dialect.names()])?;
        let found = unknown(alloc, uses, source.is_base16, known, &names)?;
        counts.push((*dialect, found.len()))?;
    }
    Ok(counts)
}

/// The names of dialects.
fn names_of_dialects(alloc: Global, dialects: &[Dialect]) -> Result<Names<'static>, AllocError> {
    let mut names = Names::new(alloc);
    for dialect in dialects {
        names.add(dialect.names())?;
    }
    names.sort();
    Ok(names)
}

/// A survey while it is made.
#[derive(Clone, Copy)]
struct Findings<'s, 'a> {
    asked: Asked<'a>,
    source: &'s Source<'a>,
    uses: &'s [Use<'a>],
    known: &'s Names<'a>,
    tools: &'s Names<'a>,
}

impl<'s, 'a> Findings<'s, 'a> {
    /// Says which dialect it is. Answers the verdict, and whether one is to be loaded.
    fn tell_dialect(
        &self,
        page: &mut Page,
        alloc: Global,
    ) -> Result<(Verdict<'a>, bool), AllocError> {
        let counts = counts_of(alloc, self.source, self.uses, self.known)?;
        let signs = signs_of(alloc, self.source, self.uses)?;
        let verdict = decide(alloc, signs.as_slice(), counts.as_slice())?;
        let nothing = Names::new(alloc);
        let alone = unknown(
            alloc,
            self.uses,
            self.source.is_base16,
            self.known,
            &nothing,
        )?
        .len();
        let differs = !differing_words(alloc, self.source, &DIALECTS, true)?.is_empty();
        let has_addresses = !addresses(alloc, self.source)?.is_empty();
        let known = Known {
            blocks: self.asked.blocks,
            counts: counts.as_slice(),
            alone,
            differs,
            has_addresses,
        };
        let loads = tell_dialect(page, alloc, &verdict, self.uses, known)?;
        Ok((verdict, loads))
    }

    /// Says what else there is.
    fn tell_habits(
        &self,
        page: &mut Page,
        alloc: Global,
        verdict: &Verdict<'_>,
    ) -> Result<(), AllocError> {
        let (source, most) = (self.source, self.asked.most);
        if source.lower_case > 0 {
            page.put_all(&[
                Number(source.lower_case),
                Text(
                    b" words have lower case, which ./forth and its images accept; `build` and --kernel do not\n",
                ),
            ])?;
        }
        tell_own_case(page, source, self.known)?;
        tell_unended(page, source)?;
        tell_cases(page, alloc, source, verdict)?;
        tell_meanings(page, alloc, source, verdict.in_question.as_slice(), most)?;
        tell_not_kept(page, alloc, source, most)?;
        tell_keys(page, alloc, source, most)?;
        tell_addresses(page, alloc, source, most)
    }

    /// Says which words are unknown.
    fn tell_words(
        &self,
        page: &mut Page,
        alloc: Global,
        verdict: &Verdict<'_>,
    ) -> Result<(), AllocError> {
        let names = names_of_dialects(alloc, verdict.dialects.as_slice())?;
        let nothing = Names::new(alloc);
        let base16 = self.source.is_base16;
        let unknown_words = unknown(alloc, self.uses, base16, self.known, &names)?;
        let all = unknown(alloc, self.uses, base16, &nothing, &nothing)?;
        let lists = WordLists {
            unknown: unknown_words.as_slice(),
            all: all.as_slice(),
        };
        tell_words(
            page,
            self.source,
            verdict.dialects.as_slice(),
            self.tools,
            lists,
        )
    }
}

/// Says what the screens look like.
fn tell_screens(
    page: &mut Page,
    alloc: Global,
    name: &[u8],
    screens: &[Screen<'_>],
) -> Result<(), AllocError> {
    page.put_all(&[
        Text(name),
        Text(b": "),
        Number(screens.len()),
        Text(b" screens\n"),
    ])?;
    tell_kinds(page, alloc, screens)?;
    tell_same(page, alloc, screens)?;
    tell_bytes(page, alloc, screens)
}

/// Reports what screens are, which dialect they were written for and why, and which of their words are unknown.
pub fn survey(alloc: Global, asked: Asked<'_>) -> Result<Report, AllocError> {
    let texts = Texts::new(alloc, asked.blocks)?;
    let names = all_names(alloc, asked.known)?;
    let screens = screens_of(alloc, asked.blocks, &texts, asked.first, asked.last, &names)?;
    let mut page = Page::new(alloc);
    tell_screens(&mut page, alloc, asked.name, screens.as_slice())?;
    if !screens.iter().any(|screen| screen.kind == Kind::Source) {
        page.put(
            b"no screen looks like source; is it another container? docs/OLD-SOURCES.md lists the formats\n",
        )?;
        return Ok(Report {
            text: page.text,
            dialects: Vec::new(alloc),
        });
    }
    tell_shift(&mut page, screens.as_slice())?;
    let dialects = tell_source(&mut page, alloc, asked, screens.as_slice())?;
    Ok(Report {
        text: page.text,
        dialects,
    })
}

/// Reports on the source in screens. Answers the dialects of which one is to be loaded.
fn tell_source<'x>(
    page: &mut Page,
    alloc: Global,
    asked: Asked<'x>,
    screens: &[Screen<'x>],
) -> Result<Vec<Dialect>, AllocError> {
    let source = Source::read(alloc, screens)?;
    let uses = uses(alloc, &source)?;
    let known = found_names(alloc, asked.known)?;
    let tools = names_of(alloc, &[asked.known])?;
    let findings = Findings {
        asked,
        source: &source,
        uses: uses.as_slice(),
        known: &known,
        tools: &tools,
    };
    let (verdict, loads) = findings.tell_dialect(page, alloc)?;
    findings.tell_habits(page, alloc, &verdict)?;
    findings.tell_words(page, alloc, &verdict)?;
    if loads {
        Ok(verdict.dialects)
    } else {
        Ok(Vec::new(alloc))
    }
}
