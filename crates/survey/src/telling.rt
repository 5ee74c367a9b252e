//! What the report says of dialects.

use crate::page::Page;
use crate::page::Piece::{Number, Text};
use crate::screen::{BLOCK, is_blank, is_of_dialect};
use crate::signs::{Sign, is_known_word};
use crate::source::Use;
use crate::verdict::{Certainty, Verdict};
use std::alloc::{AllocError, Global};
use survey_tables::{DIALECTS, Dialect, Dialects, SYSTEMS, System, has};

/// How many words, or names, are listed.
pub const SEVERAL: usize = 8;

/// How many signs for a dialect are listed.
const MOST_FOR: usize = 6;

/// How many signs against it are listed.
const MOST_AGAINST: usize = 4;

/// Adds a sign; what is of systems, with their names.
fn put_sign(page: &mut Page, sign: &Sign<'_>) -> Result<(), AllocError> {
    page.put(sign.what)?;
    if !sign.is_of_systems {
        return Ok(());
    }
    let mut count = 0usize;
    for system in &SYSTEMS {
        if has(system.glossary(), sign.what) {
            let between: &[u8] = if count == 0 { b" of " } else { b" and " };
            page.put_all(&[Text(between), Text(system.name())])?;
            count = count.saturating_add(1);
        }
    }
    Ok(())
}

/// Adds a sign, with the dialects for which it speaks.
fn put_whose(page: &mut Page, sign: &Sign<'_>) -> Result<(), AllocError> {
    put_sign(page, sign)?;
    page.put(b" (")?;
    let mut count = 0usize;
    for dialect in &DIALECTS {
        if sign.dialects.has(*dialect) {
            page.put_between(count, b", ")?;
            page.put(dialect.name())?;
            count = count.saturating_add(1);
        }
    }
    page.put(b")")
}

/// Adds signs, with commas between them.
fn put_signs(page: &mut Page, signs: &[Sign<'_>], most: usize) -> Result<(), AllocError> {
    for (index, sign) in signs.iter().enumerate() {
        if index < most {
            page.put_between(index, b", ")?;
            put_sign(page, sign)?;
        }
    }
    Ok(())
}

/// Adds signs, with commas between them, and with the dialects for which they speak.
fn put_signs_of(page: &mut Page, signs: &[Sign<'_>], most: usize) -> Result<(), AllocError> {
    for (index, sign) in signs.iter().enumerate() {
        if index < most {
            page.put_between(index, b", ")?;
            put_whose(page, sign)?;
        }
    }
    Ok(())
}

/// Adds names of dialects as a sentence has them: `A`, `A and B`, `A, B and C`.
fn put_dialects(page: &mut Page, dialects: &[Dialect]) -> Result<(), AllocError> {
    for (index, dialect) in dialects.iter().enumerate() {
        let is_last = index.saturating_add(1) == dialects.len();
        page.put_between(index, if is_last { b" and " } else { b", " })?;
        page.put(dialect.name())?;
    }
    Ok(())
}

/// Says why the signs don't decide: no word is a sign, or the signs speak for all of these, or against one another.
fn put_undecided(page: &mut Page, alloc: Global, verdict: &Verdict<'_>) -> Result<(), AllocError> {
    if verdict.reasons.is_empty() && verdict.against.is_empty() {
        return page.put(b"because each of them has all of the words that are signs");
    }
    let tied = Dialects::such(|dialect| verdict.dialects.contains(&dialect));
    let mut apart: Vec<Sign<'_>> = Vec::new(alloc);
    for sign in verdict.reasons.iter() {
        if !tied.is_within(sign.dialects) {
            apart.push(*sign)?;
        }
    }
    if apart.is_empty() {
        page.put(b"because each of them has these signs: ")?;
        return put_signs(page, verdict.reasons.as_slice(), MOST_FOR);
    }
    page.put(b"because few signs distinguish them: ")?;
    put_signs_of(page, apart.as_slice(), MOST_FOR)
}

/// Whether the screens of a dialect have something else in this file.
fn is_taken(blocks: &[u8], dialect: Dialect) -> bool {
    dialect.screens().iter().any(|number| {
        let from = usize::from(*number) * BLOCK;
        match blocks.get(from..from + BLOCK) {
            Some(bytes) => !is_of_dialect(bytes) && !is_empty(bytes),
            None => false,
        }
    })
}

/// Whether a screen has no text, or is filled with one byte.
fn is_empty(bytes: &[u8]) -> bool {
    let is_nothing = |byte: &u8| !(33..=126).contains(&(*byte % 128));
    bytes.iter().all(is_nothing) || bytes.iter().all(|byte| Some(byte) == bytes.first())
}

/// The first screen of a text.
fn first_of(screens: &[u16]) -> usize {
    usize::from(screens.first().copied().unwrap_or(0))
}

/// Says how a dialect is loaded.
fn tell_load(
    page: &mut Page,
    dialect: Dialect,
    blocks: &[u8],
    is_guess: bool,
) -> Result<(), AllocError> {
    let first = first_of(dialect.screens());
    page.put(b"  ")?;
    if is_guess {
        page.put_all(&[Text(b"if it is "), Text(dialect.name()), Text(b": ")])?;
    }
    page.put_all(&[
        Text(b"./forth83 screens screens/dialects/"),
        Text(dialect.key()),
        Text(b".txt YOUR.blk, and "),
        Number(first),
        Text(b" LOAD before the first old screen\n"),
    ])?;
    if is_taken(blocks, dialect) {
        page.put_all(&[
            Text(b"  this file uses the screens from "),
            Number(first),
            Text(b" on: load the dialect into an image, as docs/OLD-SOURCES.md shows\n"),
        ])?;
    }
    Ok(())
}

/// The words of a system that are used here.
fn words_of<'a>(
    alloc: Global,
    uses: &[Use<'a>],
    system: System,
) -> Result<Vec<&'a [u8]>, AllocError> {
    let mut words = Vec::new(alloc);
    for one in uses {
        if has(system.glossary(), one.word) && !is_known_word(one.word) {
            words.push(one.word)?;
        }
    }
    Ok(words)
}

/// Says of which systems words are here, and the text that has some of these.
fn tell_systems(page: &mut Page, alloc: Global, uses: &[Use<'_>]) -> Result<(), AllocError> {
    for system in &SYSTEMS {
        let words = words_of(alloc, uses, *system)?;
        if words.is_empty() {
            continue;
        }
        page.put_all(&[Text(b"  words of "), Text(system.name()), Text(b": ")])?;
        for (index, word) in words.iter().take(SEVERAL).enumerate() {
            page.put_between(index, b", ")?;
            page.put(word)?;
        }
        tell_system_load(page, *system)?;
    }
    Ok(())
}

/// Says how the text of a system is loaded.
fn tell_system_load(page: &mut Page, system: System) -> Result<(), AllocError> {
    page.put_all(&[
        Text(b"; ./forth83 screens screens/dialects/"),
        Text(system.key()),
        Text(b".txt YOUR.blk, and "),
        Number(first_of(system.screens())),
        Text(b" LOAD after "),
        Text(system.dialect().name()),
        Text(b"\n"),
    ])
}

/// Which dialect it is, or between which it is undecided, and the signs for it.
fn tell_verdict(page: &mut Page, alloc: Global, verdict: &Verdict<'_>) -> Result<(), AllocError> {
    if verdict.certainty == Certainty::Undecided {
        page.put(b"dialect: undecided between ")?;
        put_dialects(page, verdict.dialects.as_slice())?;
        page.put(b", ")?;
        put_undecided(page, alloc, verdict)?;
    } else {
        page.put(b"dialect: ")?;
        put_dialects(page, verdict.dialects.as_slice())?;
        page.put(match verdict.certainty {
            Certainty::Surely => b", surely\n  signs for it: ",
            _ => b", probably\n  signs for it: ",
        })?;
        put_signs(page, verdict.reasons.as_slice(), MOST_FOR)?;
    }
    page.put(b"\n")?;
    tell_against(page, verdict.against.as_slice())
}

/// Says which signs are against a dialect, if some are.
fn tell_against(page: &mut Page, against: &[Sign<'_>]) -> Result<(), AllocError> {
    if against.is_empty() {
        return Ok(());
    }
    page.put(b"  signs against it: ")?;
    put_signs_of(page, against, MOST_AGAINST)?;
    page.put(b"\n")
}

/// How many words stay unknown after each dialect, and without one.
fn tell_counts(
    page: &mut Page,
    counts: &[(Dialect, usize)],
    alone: usize,
) -> Result<(), AllocError> {
    page.put(b"  words still unknown after each: ")?;
    for (index, (dialect, count)) in counts.iter().enumerate() {
        page.put_between(index, b", ")?;
        page.put_all(&[Text(dialect.name()), Text(b" "), Number(*count)])?;
    }
    page.put_all(&[Text(b"; without a dialect "), Number(alone), Text(b"\n")])
}

/// What is known before the dialect is named.
#[derive(Clone, Copy)]
pub struct Known<'a> {
    pub blocks: &'a [u8],
    /// How many words stay unknown after each dialect.
    pub counts: &'a [(Dialect, usize)],
    /// How many words are unknown without a dialect.
    pub alone: usize,
    /// Whether some word means something else in a dialect.
    pub differs: bool,
    /// Whether there are addresses of another machine.
    pub has_addresses: bool,
}

/// Says which dialect it is, how sure that is, and why. Answers whether one is to be loaded.
pub fn tell_dialect(
    page: &mut Page,
    alloc: Global,
    verdict: &Verdict<'_>,
    uses: &[Use<'_>],
    known: Known<'_>,
) -> Result<bool, AllocError> {
    let is_open = !known.differs && verdict.certainty == Certainty::Undecided;
    if is_open && known.alone == 0 {
        page.put(if known.has_addresses {
            b"dialect: undecided, because no word differs between them; load the one of their system, which refuses the addresses below\n"
        } else {
            b"dialect: none is needed; the Forth has all their words, and none of them means something else in a dialect\n"
        })?;
        return Ok(false);
    }
    if is_open && known.counts.iter().all(|(_, count)| *count >= known.alone) {
        page.put_all(&[
            Text(
                b"dialect: undecided, because no word differs between them, and none of them has the ",
            ),
            Number(known.alone),
            Text(b" unknown words below\n"),
        ])?;
        return Ok(false);
    }
    tell_verdict(page, alloc, verdict)?;
    tell_counts(page, known.counts, known.alone)?;
    for dialect in verdict.dialects.iter() {
        tell_load(page, *dialect, known.blocks, verdict.dialects.len() > 1)?;
    }
    tell_systems(page, alloc, uses)?;
    Ok(true)
}
