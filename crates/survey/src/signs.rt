//! Signs: what in a source speaks for some dialects.

use crate::numbers::{has_base_sign, has_colon, is_plain, is_punctuated};
use crate::source::{NOWHERE, Place, Source, Use};
use std::alloc::{AllocError, Global};
use survey_tables::{
    BEFORE_83, DIALECTS, Dialect, Dialects, EVERYWHERE, F79, F79_POLY, F83, F83_POLY, FIG, FIG_F79,
    IN_USE, LATER, OWN_WORDS, POLY, SIGNS, SYSTEMS, System, has,
};

/// Something in a source that speaks for some dialects, and how much it says.
#[derive(Clone, Copy)]
pub struct Sign<'a> {
    pub what: &'a [u8],
    /// Whether it is a word of systems, which are named then.
    pub is_of_systems: bool,
    pub dialects: Dialects,
    pub weight: u8,
}

/// A sign that is more than a word.
const fn pattern(what: &'static [u8], dialects: Dialects, weight: u8) -> Sign<'static> {
    Sign {
        what,
        is_of_systems: false,
        dialects,
        weight,
    }
}

/// Whether the glossary of a dialect, or of a system that goes back to it, has a word.
fn is_held(dialect: Dialect, word: &[u8]) -> bool {
    has(dialect.glossary(), word)
        || SYSTEMS.iter().any(|system| system.dialect() == dialect && has(system.glossary(), word))
}

/// Whether a word says nothing of a system: it is in one of the four glossaries, or every system had it.
pub fn is_known_word(word: &[u8]) -> bool {
    has(EVERYWHERE, word) || DIALECTS.iter().any(|dialect| has(dialect.glossary(), word))
}

/// Whether a system had a word beyond its dialect.
pub fn is_of_system(system: System, word: &[u8]) -> bool {
    has(system.glossary(), word)
}

/// What a word with a weight of its own says.
fn weighed<'a>(word: &'a [u8], dialects: Dialects, weight: u8) -> Option<Sign<'a>> {
    let who = Dialects::such(|dialect| dialects.has(dialect) || is_held(dialect, word));
    if who.is_all() {
        return None;
    }
    Some(Sign {
        what: word,
        is_of_systems: false,
        dialects: who,
        weight,
    })
}

/// What a word says that only some of the glossaries have.
fn listed<'a>(word: &'a [u8]) -> Option<Sign<'a>> {
    if !is_known_word(word)
        || has(EVERYWHERE, word)
        || has(IN_USE, word)
        || SIGNS.iter().any(|sign| has(sign.words, word))
    {
        return None;
    }
    let who = Dialects::such(|dialect| is_held(dialect, word));
    if who.is_all() {
        return None;
    }
    Some(Sign {
        what: word,
        is_of_systems: false,
        dialects: who,
        weight: if who.is_one() { 2 } else { 1 },
    })
}

/// What a word says that a system had beyond its dialect, and no dialect has.
fn of_systems<'a>(word: &'a [u8]) -> Option<Sign<'a>> {
    if is_known_word(word) || !SYSTEMS.iter().any(|system| is_of_system(*system, word)) {
        return None;
    }
    Some(Sign {
        what: word,
        is_of_systems: true,
        dialects: Dialects::such(|dialect| is_held(dialect, word)),
        weight: if has(OWN_WORDS, word) { 3 } else { 1 },
    })
}

/// Whether a word is among those that the source uses.
fn is_used(used: &[Use<'_>], word: &[u8]) -> bool {
    used.binary_search_by(|one| one.word.cmp(&word)).is_ok()
}

/// Adds what the words say that have weights of their own.
fn add_weighed<'a>(found: &mut Vec<Sign<'a>>, used: &[Use<'a>]) -> Result<(), AllocError> {
    for sign in &SIGNS {
        for word in sign.words.split(|byte| *byte == b' ') {
            if is_used(used, word) {
                if let Some(sign) = weighed(word, sign.dialects, sign.weight) {
                    found.push(sign)?;
                }
            }
        }
    }
    Ok(())
}

/// Adds what the other words say.
fn add_listed<'a>(found: &mut Vec<Sign<'a>>, used: &[Use<'a>]) -> Result<(), AllocError> {
    for one in used {
        if let Some(sign) = listed(one.word) {
            found.push(sign)?;
        }
    }
    for one in used {
        if let Some(sign) = of_systems(one.word) {
            found.push(sign)?;
        }
    }
    Ok(())
}

/// What the spelling of a number says.
fn of_number(word: &[u8]) -> Option<Sign<'static>> {
    if has_colon(word) {
        return Some(pattern(b"a number with a colon", POLY, 4));
    }
    if is_punctuated(word) {
        return Some(pattern(b"a number with a comma, hyphen or slash", F83_POLY, 3));
    }
    if has_base_sign(word) {
        return Some(pattern(b"a number with the sign of its base", F83_POLY, 1));
    }
    None
}

/// Words before which a variable has no value.
const ENDS: &[u8] = b"; ( IMMEDIATE DECIMAL HEX ALLOT LOAD , EMPTY DEFINITIONS \\";

/// What a variable says: whether a value comes before it, or the end of what was before.
fn of_variable(before: &Place<'_>, of: &Place<'_>) -> Option<Sign<'static>> {
    if !matches!(of.word, b"VARIABLE") || of.is_inside {
        return None;
    }
    if is_plain(before.word) {
        return Some(pattern(b"0 VARIABLE, a variable with its value", FIG, 4));
    }
    if before.word.is_empty() || has(ENDS, before.word) || before.line != of.line {
        return Some(pattern(b"VARIABLE without a value", LATER, 3));
    }
    None
}

/// Whether a word takes the address that FIND or ' leaves.
fn is_call(word: &[u8]) -> bool {
    matches!(word, b"EXECUTE" | b"CONSTANT" | b"," | [b'\'', ..])
}

/// What a word says with the two after it, if it isn't defined: which sign that is, for whom, and how much it says.
fn of_word(a: &[u8], b: &[u8], c: &[u8]) -> Option<Sign<'static>> {
    match a {
        b"0" if has(b"PICK ROLL", b) => Some(pattern(b"0 PICK", F83, 2)),
        b"IN" if has(b"@ ! +!", b) => Some(pattern(b"IN @", FIG, 3)),
        b"TIB" if has(b"@", b) => Some(pattern(b"TIB @", FIG, 2)),
        b"WORD" => of_the_word_word(b),
        b"FIND" if !has(b"IF DUP ?DUP 0= SWAP DROP ; NOT", b) && is_call(c) => {
            Some(pattern(b"FIND with a name", F79, 3))
        }
        b"VOCABULARY" if has(b"IMMEDIATE", b) => {
            Some(pattern(b"a vocabulary that is IMMEDIATE", FIG_F79, 2))
        }
        b"|" if has(b": VARIABLE CREATE CONSTANT DEFER", b) => {
            Some(pattern(b"a word without a header, by |", F83, 3))
        }
        b"'" => of_tick(c),
        b"ROT" if has(b"SIGN", b) => Some(pattern(b"ROT SIGN", LATER, 2)),
        b"FORGET" if has(b"TASK", b) => Some(pattern(b"FORGET TASK", FIG_F79, 1)),
        b"2/" if has(b"MOVE", b) => Some(pattern(b"MOVE of a count in cells", FIG_F79, 1)),
        b"KEY?" if has(b"IF UNTIL", b) => Some(pattern(b"a key by KEY?", F83, 1)),
        _ => of_port(a, b),
    }
}

/// What a number says before OUTPUT or INPUT.
fn of_port(a: &[u8], b: &[u8]) -> Option<Sign<'static>> {
    if is_plain(a) && has(b"OUTPUT INPUT", b) {
        return Some(pattern(b"a number and OUTPUT or INPUT", POLY, 3));
    }
    None
}

/// What comes after WORD.
fn of_the_word_word(b: &[u8]) -> Option<Sign<'static>> {
    match b {
        b"HERE" => Some(pattern(b"WORD HERE", FIG, 3)),
        b"COUNT" | b"C@" | b"NUMBER" | b"DUP" | b"PAD" | b"DROP" | b"1+" => {
            Some(pattern(b"WORD COUNT", LATER, 2))
        }
        b"FIND" => Some(pattern(b"WORD FIND", F83, 3)),
        _ => None,
    }
}

/// What comes after ' and a name.
fn of_tick(c: &[u8]) -> Option<Sign<'static>> {
    match c {
        b"CFA" => Some(pattern(b"' NAME CFA", FIG_F79, 3)),
        b"@" | b"C@" | b"2+" | b"2@" => Some(pattern(b"' NAME @", FIG_F79, 1)),
        b"!" => Some(pattern(b"' NAME !", BEFORE_83, 2)),
        _ => None,
    }
}

/// What a word says that begins or ends a screen. EXIT, a habit of polyFORTH, ends it in Forth-79 and F83, too.
fn of_end(a: &Place<'_>, next: &Place<'_>) -> Option<Sign<'static>> {
    match a.word {
        b"EXIT" if !a.is_inside && next.screen != a.screen => {
            Some(pattern(b"EXIT that ends a screen", F79_POLY, 1))
        }
        b"EMPTY" if !a.is_inside && a.line == 0 => {
            Some(pattern(b"EMPTY on the first line of a screen", POLY, 2))
        }
        b";S" if !a.is_inside => Some(pattern(b";S that ends a screen", FIG_F79, 1)),
        b"R" if a.is_inside => Some(pattern(b"R for R@", FIG, 3)),
        _ => None,
    }
}

/// Whether SMUDGE comes before the next definition, as after fig-FORTH's CREATE, which hides the name that it makes.
fn is_smudged(after: &[Place<'_>]) -> bool {
    for place in after {
        match place.word {
            b":" | b"CREATE" | b"VARIABLE" | b"CONSTANT" => return false,
            b"SMUDGE" => return true,
            _ => {}
        }
    }
    false
}

/// What CREATE says where it makes a table outside of definitions, or a name that SMUDGE shows.
fn of_create(source: &Source<'_>, index: usize) -> Option<Sign<'static>> {
    let (next, third) = (
        source.at(index.saturating_add(1)),
        source.at(index.saturating_add(2)),
    );
    let after = source.places.get(index.saturating_add(1)..).unwrap_or(&[]);
    if is_smudged(after) {
        return Some(pattern(b"CREATE .. SMUDGE", FIG, 4));
    }
    let is_number = is_plain(next.word) && has(b", C, ALLOT", third.word);
    if is_number || has(b",\" HERE", next.word) {
        return Some(pattern(b"CREATE of a table", LATER, 3));
    }
    None
}

/// What a definition says that has CREATE and DOES>.
#[derive(Clone, Copy)]
struct Making {
    has_create: bool,
    has_builds: bool,
}

impl Making {
    const NOTHING: Making = Making {
        has_create: false,
        has_builds: false,
    };

    /// With one word more.
    fn with(self, word: &[u8]) -> Making {
        match word {
            b":" => Making::NOTHING,
            b"CREATE" => Making {
                has_create: true,
                ..self
            },
            b"<BUILDS" => Making {
                has_builds: true,
                ..self
            },
            _ => self,
        }
    }

    fn sign(self, word: &[u8]) -> Option<Sign<'static>> {
        if matches!(word, b"DOES>") && self.has_create && !self.has_builds {
            return Some(pattern(b"CREATE .. DOES>", LATER, 3));
        }
        None
    }
}

/// Whether one of the words before a place is this one.
fn is_before(source: &Source<'_>, index: usize, count: usize, word: &[u8]) -> bool {
    source
        .places
        .get(index.saturating_sub(count)..index)
        .unwrap_or(&[])
        .iter()
        .any(|place| place.word == word)
}

/// In which order SIGN has its numbers: fig-FORTH's takes the one below the double.
fn of_picture(source: &Source<'_>, index: usize) -> Option<Sign<'static>> {
    let is_plain_sign = is_before(source, index, 12, b"DABS")
        && !is_before(source, index, 3, b"ROT")
        && !is_before(source, index, 3, b"R>");
    if is_plain_sign {
        return Some(pattern(b"SIGN below the double", FIG, 2));
    }
    None
}

/// Adds a sign, if it is new.
fn add<'a>(found: &mut Vec<Sign<'a>>, sign: Option<Sign<'a>>) -> Result<(), AllocError> {
    if let Some(sign) = sign {
        if !found.iter().any(|one| one.what == sign.what) {
            found.push(sign)?;
        }
    }
    Ok(())
}

/// Adds what a word says with its neighbors.
fn add_of_place<'a>(
    found: &mut Vec<Sign<'a>>,
    source: &Source<'a>,
    index: usize,
) -> Result<(), AllocError> {
    let place = source.at(index);
    let (next, third) = (
        source.at(index.saturating_add(1)),
        source.at(index.saturating_add(2)),
    );
    let before = if index == 0 {
        NOWHERE
    } else {
        source.at(index - 1)
    };
    add(found, of_variable(&before, &place))?;
    if matches!(place.word, b"SIGN") {
        add(found, of_picture(source, index))?;
    }
    if matches!(place.word, b"CREATE") && !place.is_inside {
        add(found, of_create(source, index))?;
    }
    if !source.defines(place.word) {
        add(found, of_number(place.word))?;
        add(found, of_word(place.word, next.word, third.word))?;
    }
    if matches!(place.word, b"EXIT") || !source.defines(place.word) {
        add(found, of_end(&place, &next))?;
    }
    Ok(())
}

/// The signs that are more than a word, the strongest first.
fn patterns<'a>(alloc: Global, source: &Source<'a>) -> Result<Vec<Sign<'a>>, AllocError> {
    let mut found = Vec::new(alloc);
    let mut making = Making::NOTHING;
    for (index, place) in source.places.iter().enumerate() {
        making = making.with(place.word);
        add(&mut found, making.sign(place.word))?;
        add_of_place(&mut found, source, index)?;
    }
    found.sort_by_key(|sign| (u8::MAX - sign.weight, sign.what))?;
    Ok(found)
}

/// All signs of a source, the strongest first. Of the words that it uses, those count that it does not define.
pub fn signs_of<'a>(
    alloc: Global,
    source: &Source<'a>,
    used: &[Use<'a>],
) -> Result<Vec<Sign<'a>>, AllocError> {
    let mut found = Vec::new(alloc);
    add_weighed(&mut found, used)?;
    add_listed(&mut found, used)?;
    for sign in patterns(alloc, source)?.iter() {
        found.push(*sign)?;
    }
    found.sort_by_key(|sign| u8::MAX - sign.weight)?;
    Ok(found)
}
