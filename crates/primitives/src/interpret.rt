//! Row 149: one turn of the text interpreter.

#![tactic(auto, using(crate::proofs::Searching::searching))]

ghost use Rattle.std.specs.Prelude.{◌≡◌, ◌++◌, length};
ghost use Rattle.memory.specs.Mirrored.{stored};
ghost use Rattle.input_source.specs.Words.{bytes_in};
ghost use Rattle.compiling_words.specs.Code.{literal_code};
ghost use Rattle.primitives.specs.Interpret.{compiles_past, found_word, single_word, double_word, number_word, interpret};

use crate::dictionary_rows::leave_past;
use crate::names::{number_in, sought};
use crate::streams::open;
use compiling_words::literal_code;
use dictionary::{compilation_address, is_immediate};
use input_source::{Stream, Word, next_word};
use machine_parts::faults::{BAD_BASE, CHAIN_TOO_LONG, DATA_OVERFLOW, DICTIONARY_FULL, NOT_FOUND};
use machine_parts::parts::{Outcome, Parts};
use machine_parts::top_first;
use memory::system::{BASE, DP, STATE, TO_IN};
use memory::{Memory, cell_bytes};
use number_text::Number;

/// Writes bytes, leaves -1, and makes `>IN` the place after a word.
#[tactic(auto, unfolding(machine_parts::specs::Row::room, crate::specs::Interpret::compiles_past))]
fn compile_past(parts: &mut Parts, word: Word, bytes: &[u8]) -> Outcome
    ensures { (parts.new, result) ≡ compiles_past parts.old word bytes.now }
{
    if !parts.has_room(bytes.len()) {
        return Outcome::Fault(DICTIONARY_FULL);
    }
    if parts.values.push(65535).is_err() {
        return Outcome::Fault(DATA_OVERFLOW);
    }
    let here = parts.memory.cell(DP);
    parts.set_cell(TO_IN, word.next);
    parts.lay_at(here, bytes);
    Outcome::Done
}

/// A header was found: its word is to be executed, or compiled.
fn take_word(parts: &mut Parts, word: Word, link_field: u16) -> Outcome
    ensures { (parts.new, result) ≡ found_word parts.old word link_field }
{
    let w = compilation_address(parts.memory, link_field);
    if is_immediate(parts.memory, link_field) {
        return leave_past(parts, word, &top_first!([] w, 1));
    }
    if parts.memory.cell(STATE) == 0 {
        return leave_past(parts, word, &top_first!([] w, 1));
    }
    compile_past(parts, word, &cell_bytes(w))
}

/// The code of a double: the literals of its low and its high cell.
fn literals_code(memory: &Memory, low: u16, high: u16) -> [u8; 8]
    ensures value { result ≡ literal_code (stored memory.now) low ++ literal_code (stored memory.now) high }
    ensures len { length (literal_code (stored memory.now) low ++ literal_code (stored memory.now) high) ≡ 8 }
{
    let [a, b, c, d] = literal_code(memory, low);
    let [e, f, g, h] = literal_code(memory, high);
    [a, b, c, d, e, f, g, h]
}

/// A single number is left below -1, or compiled.
fn take_single(parts: &mut Parts, word: Word, x: u16) -> Outcome
    ensures { (parts.new, result) ≡ single_word parts.old word x }
{
    if parts.memory.cell(STATE) == 0 {
        return leave_past(parts, word, &top_first!([] x, 65535));
    }
    let code = literal_code(parts.memory, x);
    compile_past(parts, word, &code)
}

/// A double is left below -1, or compiled.
fn take_double(parts: &mut Parts, word: Word, n: u32) -> Outcome
    ensures { (parts.new, result) ≡ double_word parts.old word n }
{
    let low = (n % 65536) as u16;
    let high = (n / 65536) as u16;
    if parts.memory.cell(STATE) == 0 {
        return leave_past(parts, word, &top_first!([] low, high, 65535));
    }
    let code = literals_code(parts.memory, low, high);
    compile_past(parts, word, &code)
}

/// No header was found: the word is a number, or unknown.
#[tactic(auto, unfolding(number_text::specs::Base::has_base))]
fn take_number(parts: &mut Parts, stream: Stream, word: Word) -> Outcome
    ensures { (parts.new, result) ≡ number_word parts.old word (bytes_in parts.old.memory stream word) }
{
    let base = parts.memory.cell(BASE);
    if base < 2 || base > 72 {
        return Outcome::Fault(BAD_BASE);
    }
    match number_in(parts.memory, stream, word, base) {
        Some(Number::Single(x)) => take_single(parts, word, x),
        Some(Number::Double(n)) => take_double(parts, word, n),
        None => Outcome::Fault(NOT_FOUND),
    }
}

/// 149 `(INTERPRET)` ( -- 0, w 1, -1, n -1, d -1 )
pub fn interpret(parts: &mut Parts) -> Outcome
    ensures { (parts.new, result) ≡ interpret parts.old }
{
    let stream = match open(parts) {
        Ok(stream) => stream,
        Err(outcome) => return outcome,
    };
    let word = next_word(parts.memory, stream, b' ');
    if word.len == 0 {
        return leave_past(parts, word, &[0]);
    }
    match sought(parts, stream, word) {
        Ok(Some(link_field)) => take_word(parts, word, link_field),
        Ok(None) => take_number(parts, stream, word),
        Err(_) => Outcome::Fault(CHAIN_TOO_LONG),
    }
}
