//! Compiling rows that need the input stream: 168, 176, 177 and 190 to 193.

#![tactic(auto, using(machine_parts::proofs::Takes::takes, crate::proofs::Searching::searching))]

ghost use Rattle.std.specs.Prelude.{◌≡◌};
ghost use Rattle.primitives.specs.Defining.{colon, lays_past, bracket_tick, bracket_compile, quotes, dot_quote, abort_quote, constant, variable};

use crate::dictionary_rows::{create_with, make_header};
use crate::names::read_word;
use crate::streams::{open, pass};
use crate::writing::lay_text;
use compiling_words::{TextWord, literal_code, runtime_of};
use dictionary::code_fields::{COLON, CONSTANT, VARIABLE};
use input_source::{Word, parse_to, word_bytes};
use machine_parts::faults::{BAD_LENGTH, DATA_UNDERFLOW, DICTIONARY_FULL};
use machine_parts::parts::{Outcome, Parts};
use memory::cell_bytes;
use memory::system::{CONTEXT, CURRENT, DP, STATE};

/// 168 `:` ( -- )
#[tactic(auto, unfolding(memory::specs::Bytes::written))]
pub fn colon(parts: &mut Parts) -> Outcome
    ensures { (parts.new, result) ≡ colon parts.old }
{
    let stream = match open(parts) {
        Ok(stream) => stream,
        Err(outcome) => return outcome,
    };
    let current = parts.memory.cell(CURRENT);
    match make_header(parts, stream, COLON, &[], true) {
        Ok(_) => {
            parts.set_cell(STATE, 65535);
            parts.set_cell(CONTEXT, current);
            Outcome::Done
        }
        Err(outcome) => outcome,
    }
}

/// Writes bytes, and makes `>IN` the place after a word.
#[tactic(auto, unfolding(crate::specs::Defining::lays_past))]
fn lay_past(parts: &mut Parts, word: Word, bytes: &[u8]) -> Outcome
    ensures { (parts.new, result) ≡ lays_past parts.old word bytes.now }
{
    if !parts.has_room(bytes.len()) {
        return Outcome::Fault(DICTIONARY_FULL);
    }
    let here = parts.memory.cell(DP);
    pass(parts, word);
    parts.lay_at(here, bytes);
    Outcome::Done
}

/// 176 `[']` ( -- )
pub fn bracket_tick(parts: &mut Parts) -> Outcome
    ensures { (parts.new, result) ≡ bracket_tick parts.old }
{
    match read_word(parts) {
        Ok((word, w)) => {
            let code = literal_code(parts.memory, w);
            lay_past(parts, word, &code)
        }
        Err(outcome) => outcome,
    }
}

/// 177 `[COMPILE]` ( -- )
pub fn bracket_compile(parts: &mut Parts) -> Outcome
    ensures { (parts.new, result) ≡ bracket_compile parts.old }
{
    match read_word(parts) {
        Ok((word, w)) => lay_past(parts, word, &cell_bytes(w)),
        Err(outcome) => outcome,
    }
}

/// A row that writes what shows a text, and the text up to the next quote.
fn quote(parts: &mut Parts, shows: TextWord) -> Outcome
    ensures { (parts.new, result) ≡ quotes shows parts.old }
{
    let stream = match open(parts) {
        Ok(stream) => stream,
        Err(outcome) => return outcome,
    };
    let word = parse_to(parts.memory, stream, b'"');
    if word.len > 255 {
        return Outcome::Fault(BAD_LENGTH);
    }
    if !parts.has_room(3 + word.len as usize) {
        return Outcome::Fault(DICTIONARY_FULL);
    }
    let bytes = word_bytes(parts.memory, stream, word);
    let token = runtime_of(parts.memory, shows);
    let here = parts.memory.cell(DP);
    pass(parts, word);
    lay_text(parts, here, token, &bytes[..word.len as usize]);
    Outcome::Done
}

/// 190 `."` ( -- )
pub fn dot_quote(parts: &mut Parts) -> Outcome
    ensures { (parts.new, result) ≡ dot_quote parts.old }
{
    quote(parts, TextWord::Show)
}

/// 191 `ABORT"` ( -- )
pub fn abort_quote(parts: &mut Parts) -> Outcome
    ensures { (parts.new, result) ≡ abort_quote parts.old }
{
    quote(parts, TextWord::Abort)
}

/// 192 `CONSTANT` ( x -- )
pub fn constant(parts: &mut Parts) -> Outcome
    ensures { (parts.new, result) ≡ constant parts.old }
{
    let Some(x) = parts.values.pick(0) else {
        return Outcome::Fault(DATA_UNDERFLOW);
    };
    match open(parts) {
        Ok(stream) => create_with(parts, stream, CONSTANT, &cell_bytes(x), 1),
        Err(outcome) => outcome,
    }
}

/// 193 `VARIABLE` ( -- )
pub fn variable(parts: &mut Parts) -> Outcome
    ensures { (parts.new, result) ≡ variable parts.old }
{
    match open(parts) {
        Ok(stream) => create_with(parts, stream, VARIABLE, &cell_bytes(0), 0),
        Err(outcome) => outcome,
    }
}
