//! What a word may be, by its bytes and its text.

ghost use Rattle.std.specs.Prelude.{◌≡◌};
ghost use Rattle.std.specs.Option.{option_map};
ghost use Rattle.source_words.specs.Scanned.{source_word};
ghost use Rattle.source_words.specs.Modes.{begins_comment};
ghost use Rattle.colon_bodies.specs.Draft.{token};
ghost use Rattle.image_builder.specs.Places.{place, sense};
ghost use Rattle.image_builder.specs.Spelled.{making_sort, laying_sort, number_sort, sort_of, naming, choosing, repeating, counting, saying, ending, keyword, figure_of, sense_of_word, placed};

use crate::spot::{Inner, Sort, Spot};
use colon_bodies::BodyWord;
use number_text::{Number, number};
use source_words::Word;

/// The word of an item that makes a header.
#[tactic(auto, unfolding(crate::specs::Spelled::making_sort))]
fn making_sort(name: &[u8]) -> Option<Sort>
    ensures { result ≡ making_sort name.now }
{
    if name == b"PRIM".as_slice() {
        Some(Sort::Prim)
    } else if name == b"CONSTANT".as_slice() {
        Some(Sort::Constant)
    } else if name == b"VARIABLE".as_slice() {
        Some(Sort::Variable)
    } else if name == b"CREATE".as_slice() {
        Some(Sort::Create)
    } else if name == b"VOCABULARY".as_slice() {
        Some(Sort::Vocabulary)
    } else if name == b":".as_slice() {
        Some(Sort::Colon)
    } else {
        None
    }
}

/// Another word of an item.
#[tactic(auto, unfolding(crate::specs::Spelled::laying_sort))]
fn laying_sort(name: &[u8]) -> Option<Sort>
    ensures { result ≡ laying_sort name.now }
{
    if name == b",".as_slice() {
        Some(Sort::Comma)
    } else if name == b"C,".as_slice() {
        Some(Sort::CharComma)
    } else if name == b"ALLOT".as_slice() {
        Some(Sort::Allot)
    } else if name == b"IMMEDIATE".as_slice() {
        Some(Sort::Immediate)
    } else if name == b"DEFINITIONS".as_slice() {
        Some(Sort::Definitions)
    } else if name == b"BOOT".as_slice() {
        Some(Sort::Boot)
    } else {
        None
    }
}

/// A number outside bodies, or another word.
#[tactic(auto, unfolding(crate::specs::Spelled::number_sort))]
fn number_sort(name: &[u8]) -> Sort
    ensures { result ≡ number_sort name.now }
{
    match number(name, 10) {
        Some(Number::Single(n)) => Sort::Number(n),
        Some(Number::Double(_)) => Sort::Double,
        None => Sort::Other,
    }
}

/// What a word is outside bodies.
#[tactic(auto, unfolding(crate::specs::Spelled::sort_of))]
pub fn sort_of(name: &[u8]) -> Sort
    ensures { result ≡ sort_of name.now }
{
    if let Some(sort) = making_sort(name) {
        return sort;
    }
    match laying_sort(name) {
        Some(sort) => sort,
        None => number_sort(name),
    }
}

/// A keyword that takes the name after it.
#[tactic(auto, unfolding(crate::specs::Spelled::naming))]
fn naming(name: &[u8]) -> Option<BodyWord<'_>>
    ensures { option_map token result ≡ naming name.now }
{
    if name == b"[']".as_slice() {
        Some(BodyWord::Tick)
    } else if name == b"[COMPILE]".as_slice() {
        Some(BodyWord::Force)
    } else if name == b"COMPILE".as_slice() {
        Some(BodyWord::Compile)
    } else {
        None
    }
}

/// A keyword of a choice.
#[tactic(auto, unfolding(crate::specs::Spelled::choosing))]
fn choosing(name: &[u8]) -> Option<BodyWord<'_>>
    ensures { option_map token result ≡ choosing name.now }
{
    if name == b"IF".as_slice() {
        Some(BodyWord::If)
    } else if name == b"ELSE".as_slice() {
        Some(BodyWord::Else)
    } else if name == b"THEN".as_slice() {
        Some(BodyWord::Then)
    } else {
        None
    }
}

/// A keyword of a loop without a count.
#[tactic(auto, unfolding(crate::specs::Spelled::repeating))]
fn repeating(name: &[u8]) -> Option<BodyWord<'_>>
    ensures { option_map token result ≡ repeating name.now }
{
    if name == b"BEGIN".as_slice() {
        Some(BodyWord::Begin)
    } else if name == b"UNTIL".as_slice() {
        Some(BodyWord::Until)
    } else if name == b"AGAIN".as_slice() {
        Some(BodyWord::Again)
    } else if name == b"WHILE".as_slice() {
        Some(BodyWord::While)
    } else if name == b"REPEAT".as_slice() {
        Some(BodyWord::Repeat)
    } else {
        None
    }
}

/// A keyword of a loop with a count.
#[tactic(auto, unfolding(crate::specs::Spelled::counting))]
fn counting(name: &[u8]) -> Option<BodyWord<'_>>
    ensures { option_map token result ≡ counting name.now }
{
    if name == b"DO".as_slice() {
        Some(BodyWord::Do)
    } else if name == b"LOOP".as_slice() {
        Some(BodyWord::Loop(false))
    } else if name == b"+LOOP".as_slice() {
        Some(BodyWord::Loop(true))
    } else {
        None
    }
}

/// A keyword that takes a text.
#[tactic(auto, unfolding(crate::specs::Spelled::saying))]
fn saying<'a>(name: &[u8], text: &'a [u8]) -> Option<BodyWord<'a>>
    ensures { option_map token result ≡ saying name.now text.now }
{
    if name == b".\"".as_slice() {
        Some(BodyWord::Text(false, text))
    } else if name == b"ABORT\"".as_slice() {
        Some(BodyWord::Text(true, text))
    } else {
        None
    }
}

/// A keyword that ends a part of a definition.
#[tactic(auto, unfolding(crate::specs::Spelled::ending))]
fn ending(name: &[u8]) -> Option<BodyWord<'_>>
    ensures { option_map token result ≡ ending name.now }
{
    if name == b"DOES>".as_slice() {
        Some(BodyWord::Does)
    } else if name == b";".as_slice() {
        Some(BodyWord::Semicolon)
    } else {
        None
    }
}

/// The keyword of bodies that a word is spelled as, with the text after it if it takes one.
#[tactic(auto, unfolding(crate::specs::Spelled::keyword))]
pub fn keyword<'a>(name: &'a [u8], text: &'a [u8]) -> Option<BodyWord<'a>>
    ensures { option_map token result ≡ keyword name.now text.now }
{
    if let Some(word) = naming(name) {
        return Some(word);
    }
    if let Some(word) = choosing(name) {
        return Some(word);
    }
    if let Some(word) = repeating(name) {
        return Some(word);
    }
    if let Some(word) = counting(name) {
        return Some(word);
    }
    if let Some(word) = saying(name, text) {
        return Some(word);
    }
    ending(name)
}

/// A number in a body, or another word.
#[tactic(auto, unfolding(crate::specs::Spelled::figure_of))]
fn figure_of(name: &[u8]) -> Inner<'_>
    ensures { sense result ≡ figure_of name.now }
{
    match number(name, 10) {
        Some(Number::Single(n)) => Inner::Number(n),
        Some(Number::Double(n)) => Inner::Double(n),
        None => Inner::Other,
    }
}

/// Whether the word begins a comment if no name is due.
#[tactic(auto, unfolding(source_words::specs::Modes::begins_comment))]
fn is_paren(name: &[u8]) -> bool
    ensures { result ≡ begins_comment name.now }
{
    name == b"(".as_slice()
}

/// What a word is in a body if it is no name.
#[tactic(auto, unfolding(crate::specs::Spelled::sense_of_word))]
fn inner_of<'a>(name: &'a [u8], text: &'a [u8]) -> Inner<'a>
    ensures { sense result ≡ sense_of_word name.now text.now }
{
    if is_paren(name) {
        return Inner::Paren;
    }
    match keyword(name, text) {
        Some(word) => Inner::Keyword(word),
        None => figure_of(name),
    }
}

/// A word of the screens, with what it may be.
#[tactic(auto, unfolding(crate::specs::Spelled::placed))]
pub fn spot_of(word: Word<'_>) -> Spot<'_>
    ensures { place result ≡ placed (source_word word.entry) }
{
    let text = match word.text {
        Some(text) => text,
        None => b"".as_slice(),
    };
    Spot {
        screen: word.screen,
        offset: word.offset,
        name: word.name,
        sort: sort_of(word.name),
        inner: inner_of(word.name, text),
    }
}
