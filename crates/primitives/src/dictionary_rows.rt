//! Rows 147 to 157, except (INTERPRET): names, new headers, vocabularies, FORGET.

#![tactic(auto, using(machine_parts::proofs::Takes::takes, crate::proofs::Searching::searching))]

ghost use Rattle.std.specs.Prelude.{◌≡◌, ◌≤◌, [], ◌++◌, length, drop, false};
ghost use Rattle.primitives.specs.DictionaryRows.{find, leaves_past, tick, creates, IsHeaderMade, create, immediate, forget, to_body, here, pad_row, vocabulary, definitions};
ghost use Rattle.primitives.specs.Names.{name_word, name_in};

use crate::names::{read_word, sought_at, target_in};
use crate::streams::{open, pass};
use crate::writing::write_header;
use dictionary::code_fields::{VARIABLE, VOCABULARY};
use dictionary::{
    ForgetFault, Site, compilation_address, cut_by, is_immediate, newest_count, record_bytes,
    set_immediate,
};
use input_source::{Stream, Word, next_word, word_bytes};
use machine_parts::faults::{
    BAD_LENGTH, CHAIN_TOO_LONG, DATA_OVERFLOW, DATA_UNDERFLOW, DICTIONARY_FULL, NOT_FOUND,
};
use machine_parts::leaves;
use machine_parts::parts::{Outcome, Parts};
use memory::system::{CONTEXT, CURRENT, DP, VOC_LINK};

/// 147 `FIND` ( a -- a 0, w -1, w 1 )
pub fn find(parts: &mut Parts) -> Outcome
    ensures { (parts.new, result) ≡ find parts.old }
{
    let Some(a) = parts.values.pick(0) else {
        return Outcome::Fault(DATA_UNDERFLOW);
    };
    match sought_at(parts, a) {
        Ok(Some(link_field)) => {
            let w = compilation_address(parts.memory, link_field);
            let flag = if is_immediate(parts.memory, link_field) {
                1
            } else {
                65535
            };
            leaves!(parts, 1, [w, flag])
        }
        Ok(None) => leaves!(parts, 1, [a, 0]),
        Err(_) => Outcome::Fault(CHAIN_TOO_LONG),
    }
}

/// Leaves cells on the data stack, the first of them on top, and makes `>IN` the place after a word.
#[tactic(auto, unfolding(machine_parts::specs::Row::room, crate::specs::DictionaryRows::leaves_past))]
pub fn leave_past(parts: &mut Parts, word: Word, cells: &[u16]) -> Outcome
    ensures { (parts.new, result) ≡ leaves_past parts.old word (cells.now ++ parts.old.values) }
{
    if parts.values.replace(0, cells).is_err() {
        return Outcome::Fault(DATA_OVERFLOW);
    }
    pass(parts, word);
    Outcome::Done
}

/// 148 `'` ( -- w )
pub fn tick(parts: &mut Parts) -> Outcome
    ensures { (parts.new, result) ≡ tick parts.old }
{
    match read_word(parts) {
        Ok((word, w)) => leave_past(parts, word, &[w]),
        Err(outcome) => outcome,
    }
}

/// Makes a header of the next word's name, and gives the address of its parameter field; or says what stops the row.
#[tactic(auto, unfolding(crate::specs::DictionaryRows::creates, dictionary::specs::Adding::with_header_at, memory::specs::Bytes::written))]
pub fn make_header(
    parts: &mut Parts,
    stream: Stream,
    code: u16,
    extra: &[u8],
    hidden: bool,
) -> Result<u16, Outcome>
    requires { length extra.now ≤ 10 }
    ensures { IsHeaderMade parts.old parts.new stream hidden code extra.now result }
{
    let word = next_word(parts.memory, stream, b' ');
    if word.len == 0 || word.len > 31 {
        return Err(Outcome::Fault(BAD_LENGTH));
    }
    if !parts.has_room(7 + word.len as usize + extra.len()) {
        return Err(Outcome::Fault(DICTIONARY_FULL));
    }
    let bytes = word_bytes(parts.memory, stream, word);
    let name = &bytes[..word.len as usize];
    let site = Site::of(parts.memory, name);
    pass(parts, word);
    write_header(parts, site, name, code, extra, hidden);
    Ok(site.here.wrapping_add(7 + word.len))
}

/// Makes a header of the next word's name; `taken` cells leave the data stack.
#[tactic(auto, unfolding(memory::specs::Bytes::written))]
pub fn create_with(
    parts: &mut Parts,
    stream: Stream,
    code: u16,
    extra: &[u8],
    taken: usize,
) -> Outcome
    requires extra { length extra.now ≤ 2 }
    requires taken { taken ≤ length parts.old.values }
    ensures { (parts.new, result) ≡ creates parts.old (name_word parts.old.memory stream)
        (name_in parts.old.memory stream) false code extra.now [] (drop taken parts.old.values) }
{
    match make_header(parts, stream, code, extra, false) {
        Ok(_) => {
            parts.values.lower(taken);
            Outcome::Done
        }
        Err(outcome) => outcome,
    }
}

/// 150 `CREATE` ( -- )
pub fn create(parts: &mut Parts) -> Outcome
    ensures { (parts.new, result) ≡ create parts.old }
{
    match open(parts) {
        Ok(stream) => create_with(parts, stream, VARIABLE, &[], 0),
        Err(outcome) => outcome,
    }
}

/// 151 `IMMEDIATE` ( -- )
#[tactic(auto, using(name_index::proofs::Writes::writes), unfolding(dictionary::specs::Newest::with_immediate))]
pub fn immediate(parts: &mut Parts) -> Outcome
    ensures { (parts.new, result) ≡ immediate parts.old }
{
    let at = newest_count(parts.memory);
    set_immediate(parts.memory);
    parts.index.note(at, 1);
    Outcome::Done
}

/// 152 `FORGET` ( -- )
#[inline(never)]
#[tactic(auto, using(crate::proofs::Searching::searching), unfolding(memory::specs::Bytes::written))]
pub fn forget(parts: &mut Parts) -> Outcome
    ensures { (parts.new, result) ≡ forget parts.old }
{
    let stream = match open(parts) {
        Ok(stream) => stream,
        Err(outcome) => return outcome,
    };
    let word = next_word(parts.memory, stream, b' ');
    match target_in(parts.memory, stream, word) {
        Ok(target) => {
            let before = parts.memory.snapshot();
            pass(parts, word);
            cut_by(parts.memory, &before, target);
            parts.index.clear();
            Outcome::Done
        }
        Err(ForgetFault::NameLength) => Outcome::Fault(BAD_LENGTH),
        Err(ForgetFault::NotFound) => Outcome::Fault(NOT_FOUND),
        Err(ForgetFault::ChainTooLong) => Outcome::Fault(CHAIN_TOO_LONG),
    }
}

/// 153 `>BODY` ( w -- w+2 )
pub fn to_body(parts: &mut Parts) -> Outcome
    ensures { (parts.new, result) ≡ to_body parts.old }
{
    let Some(w) = parts.values.pick(0) else {
        return Outcome::Fault(DATA_UNDERFLOW);
    };
    leaves!(parts, 1, [w.wrapping_add(2)])
}

/// 154 `HERE` ( -- a )
pub fn here(parts: &mut Parts) -> Outcome
    ensures { (parts.new, result) ≡ here parts.old }
{
    let here = parts.memory.cell(DP);
    leaves!(parts, 0, [here])
}

/// 155 `PAD` ( -- a )
pub fn pad_row(parts: &mut Parts) -> Outcome
    ensures { (parts.new, result) ≡ pad_row parts.old }
{
    let pad = number_text::pad(parts.memory);
    leaves!(parts, 0, [pad])
}

/// 156 `VOCABULARY` ( -- )
#[tactic(auto, unfolding(memory::specs::Bytes::written))]
pub fn vocabulary(parts: &mut Parts) -> Outcome
    ensures { (parts.new, result) ≡ vocabulary parts.old }
{
    let stream = match open(parts) {
        Ok(stream) => stream,
        Err(outcome) => return outcome,
    };
    let record = record_bytes(parts.memory.cell(VOC_LINK));
    match make_header(parts, stream, VOCABULARY, &record, false) {
        Ok(body) => {
            parts.set_cell(VOC_LINK, body);
            Outcome::Done
        }
        Err(outcome) => outcome,
    }
}

/// 157 `DEFINITIONS` ( -- )
pub fn definitions(parts: &mut Parts) -> Outcome
    ensures { (parts.new, result) ≡ definitions parts.old }
{
    let context = parts.memory.cell(CONTEXT);
    parts.set_cell(CURRENT, context);
    Outcome::Done
}
