//! What in a source has another meaning elsewhere, and what no dialect can keep.

use crate::numbers::{Number, is_plain, value};
use crate::source::{Place, Source};
use std::alloc::{AllocError, Global};
use survey_tables::{
    Dialect, FLAG_IN_SUM, LONELY_J, LOOP_DOWN, MEANINGS, Meaning, RETURN_KEY, has,
};

/// Words that leave a flag.
const COMPARING: &[u8] = b"= < > 0= 0< 0> U< <> D< D= D0=";

/// Words with which a program computes from a flag.
const SUMMING: &[u8] = b"+ - * +! NEGATE MINUS";

/// The places of a word, or of a habit, and what it means.
#[derive(Drop)]
pub struct Differing<'a> {
    pub what: &'a [u8],
    pub meaning: &'static Meaning,
    pub places: Vec<Place<'a>>,
}

/// What a word means in the dialects, if that differs.
fn meaning_of(word: &[u8]) -> Option<&'static Meaning> {
    MEANINGS.iter().find(|meaning| has(meaning.words, word))
}

/// Whether a meaning differs between these dialects, or without one, if that counts.
pub fn differs(meaning: &Meaning, among: &[Dialect], with_none: bool) -> bool {
    let [first, ..] = among else {
        return false;
    };
    let one = meaning.of(*first);
    among.iter().any(|dialect| meaning.of(*dialect) != one) || with_none && meaning.none != one
}

/// Whether a DO has two numbers before it, or FORTH is outside of definitions: then it is clear what happens.
fn is_fixed(source: &Source<'_>, index: usize) -> bool {
    let place = source.at(index);
    match place.word {
        b"DO" if index >= 2 => is_plain(source.at(index - 1).word)
            && is_plain(source.at(index - 2).word),
        b"FORTH" => !place.is_inside,
        _ => false,
    }
}

/// Adds a place to those of its word.
fn add<'a>(
    alloc: Global,
    found: &mut Vec<Differing<'a>>,
    what: &'a [u8],
    meaning: &'static Meaning,
    place: Place<'a>,
) -> Result<(), AllocError> {
    for one in found.iter_mut() {
        if one.what == what {
            one.places.push(place)?;
            return Ok(());
        }
    }
    found.push(Differing {
        what,
        meaning,
        places: vec![in alloc; place]?,
    })?;
    Ok(())
}

/// Adds the places of a habit, if there are some.
fn add_all<'a>(
    found: &mut Vec<Differing<'a>>,
    meaning: &'static Meaning,
    places: Vec<Place<'a>>,
) -> Result<(), AllocError> {
    if !places.is_empty() {
        found.push(Differing {
            what: meaning.words,
            meaning,
            places,
        })?;
    }
    Ok(())
}

/// Where J is in no loop of its definition.
fn lonely_js<'a>(alloc: Global, source: &Source<'a>) -> Result<Vec<Place<'a>>, AllocError> {
    let mut found = Vec::new(alloc);
    let (mut begun, mut ended) = (0usize, 0usize);
    for place in source.places.iter() {
        match place.word {
            b":" => (begun, ended) = (0, 0),
            b"J" if place.is_inside && begun <= ended => found.push(*place)?,
            word => {
                begun = begun.saturating_add(usize::from(has(b"DO ?DO", word)));
                ended = ended.saturating_add(usize::from(has(b"LOOP +LOOP /LOOP", word)));
            }
        }
    }
    Ok(found)
}

/// Whether a program compares a number with what follows it, and the return key gives that number somewhere.
fn compares_return(place: &Place<'_>, next: &[u8]) -> bool {
    place.is_inside
        && has(b"= OF - XOR <> CASE?", next)
        && matches!(
            value(place.word, place.base),
            Some(Number {
                is_negative: false,
                size: 10 | 13
            })
        )
}

/// Where a program that reads keys compares with 13 or 10.
pub fn returns<'a>(alloc: Global, source: &Source<'a>) -> Result<Vec<Place<'a>>, AllocError> {
    let mut found = Vec::new(alloc);
    let reads_keys = source
        .places
        .iter()
        .any(|place| matches!(place.word, b"KEY"));
    for (place, next) in source.places.iter().zip(source.places.iter().skip(1)) {
        if reads_keys && compares_return(place, next.word) {
            found.push(*place)?;
        }
    }
    Ok(found)
}

/// Where a comparison's flag is used in arithmetic.
fn flag_sums<'a>(alloc: Global, source: &Source<'a>) -> Result<Vec<Place<'a>>, AllocError> {
    let mut found = Vec::new(alloc);
    for (place, next) in source.places.iter().zip(source.places.iter().skip(1)) {
        if has(COMPARING, place.word) && has(SUMMING, next.word) {
            found.push(*place)?;
        }
    }
    for (place, (next, third)) in source.places.iter().zip(
        source
            .places
            .iter()
            .skip(1)
            .zip(source.places.iter().skip(2)),
    ) {
        if (has(COMPARING, place.word) || matches!(place.word, b"NOT"))
            && is_plain(next.word)
            && has(b"AND *", third.word)
        {
            found.push(*place)?;
        }
    }
    Ok(found)
}

/// Whether a word is a number below 0, or makes one.
fn steps_down(word: &[u8]) -> bool {
    word.starts_with(b"-") && is_plain(word) || has(b"NEGATE MINUS", word)
}

/// Where a loop goes down.
fn downwards<'a>(alloc: Global, source: &Source<'a>) -> Result<Vec<Place<'a>>, AllocError> {
    let mut found = Vec::new(alloc);
    for (place, next) in source.places.iter().zip(source.places.iter().skip(1)) {
        if steps_down(place.word) && matches!(next.word, b"+LOOP") {
            found.push(*next)?;
        }
    }
    Ok(found)
}

/// Where the source uses words, or habits, whose meaning differs between these dialects, or without one, if that counts.
pub fn differing_words<'a>(
    alloc: Global,
    source: &Source<'a>,
    among: &[Dialect],
    with_none: bool,
) -> Result<Vec<Differing<'a>>, AllocError> {
    let mut found = Vec::new(alloc);
    for (index, place) in source.places.iter().enumerate() {
        if let Some(meaning) = meaning_of(place.word) {
            if differs(meaning, among, with_none)
                && !source.defines(place.word)
                && !is_fixed(source, index)
            {
                add(alloc, &mut found, place.word, meaning, *place)?;
            }
        }
    }
    if differs(&LONELY_J, among, with_none) {
        add_all(&mut found, &LONELY_J, lonely_js(alloc, source)?)?;
    }
    if differs(&RETURN_KEY, among, with_none) {
        add_all(&mut found, &RETURN_KEY, returns(alloc, source)?)?;
    }
    if differs(&LOOP_DOWN, among, with_none) {
        add_all(&mut found, &LOOP_DOWN, downwards(alloc, source)?)?;
    }
    if differs(&FLAG_IN_SUM, among, with_none) {
        add_all(&mut found, &FLAG_IN_SUM, flag_sums(alloc, source)?)?;
    }
    Ok(found)
}
