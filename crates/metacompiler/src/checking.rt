//! Whether a memory is resident.

ghost use Rattle.std.specs.Prelude.{◌≡◌, ◌≤◌, ◌&&◌, IsTrue, IfOk};
ghost use Rattle.memory.specs.Mirrored.{stored};
ghost use Rattle.std.specs.List.{list_all};
ghost use Rattle.metacompiler.specs.Resident.{end_of_header};
ghost use Rattle.metacompiler.specs.Residency.{has_keyword, has_colon, has_compile, has_naming, has_choosing, has_repeating, has_counting, has_saying, has_keys, has_jumps, has_primitives, has_thread, words_at, are_apart, is_apart_from, is_within, is_beside, has_header, Joined, JoinedAll, HasChains, has_words, is_idle, is_record, are_records_apart, is_thread_beside, are_placed, passes, IsResident};

use crate::rows;
use compiling_words::{Control, runtime};
use dictionary::{code_fields, compilation_address, find, header, is_immediate, search_from};
use memory::Memory;
use memory::system::{BASE, CONTEXT, CURRENT, DP, FORTH_VOC, STATE};
use std::alloc::{AllocError, Global};

/// How many headers of a chain are looked at.
const MOST: u16 = 32768;

/// Whether a name is found, immediate, with this primitive.
#[tactic(auto, unfolding(crate::specs::Residency::has_keyword))]
fn has_keyword(memory: &Memory, voc: u16, name: &[u8], number: u16) -> bool
    ensures { result ≡ has_keyword (stored memory.now) voc name.now number }
{
    match search_from(memory, voc, name) {
        Ok(Some(l)) => {
            is_immediate(memory, l) && memory.cell(compilation_address(memory, l)) == number
        }
        Ok(None) => false,
        Err(_) => false,
    }
}

/// Whether `:` is found, not immediate, with its primitive.
#[tactic(auto, unfolding(crate::specs::Residency::has_colon))]
fn has_colon(memory: &Memory, voc: u16) -> bool
    ensures { result ≡ has_colon (stored memory.now) voc }
{
    match search_from(memory, voc, b":") {
        Ok(Some(l)) => !is_immediate(memory, l)
            && memory.cell(compilation_address(memory, l)) == rows::COLON,
        Ok(None) => false,
        Err(_) => false,
    }
}

/// Whether COMPILE is found, not immediate, as the word of its runtime cell.
#[tactic(auto, unfolding(crate::specs::Residency::has_compile))]
fn has_compile(memory: &Memory, voc: u16) -> bool
    ensures { result ≡ has_compile (stored memory.now) voc }
{
    match search_from(memory, voc, b"COMPILE") {
        Ok(Some(l)) => {
            !is_immediate(memory, l)
                && compilation_address(memory, l) == runtime(memory, Control::Compile)
        }
        Ok(None) => false,
        Err(_) => false,
    }
}

fn has_naming(memory: &Memory, voc: u16) -> bool
    ensures { result ≡ has_naming (stored memory.now) voc }
{
    has_keyword(memory, voc, b"[']", rows::BRACKET_TICK)
        && (has_keyword(memory, voc, b"[COMPILE]", rows::BRACKET_COMPILE)
            && has_compile(memory, voc))
}

fn has_choosing(memory: &Memory, voc: u16) -> bool
    ensures { result ≡ has_choosing (stored memory.now) voc }
{
    has_keyword(memory, voc, b"IF", rows::IF)
        && (has_keyword(memory, voc, b"ELSE", rows::ELSE)
            && has_keyword(memory, voc, b"THEN", rows::THEN))
}

fn has_repeating(memory: &Memory, voc: u16) -> bool
    ensures { result ≡ has_repeating (stored memory.now) voc }
{
    has_keyword(memory, voc, b"BEGIN", rows::BEGIN)
        && (has_keyword(memory, voc, b"UNTIL", rows::UNTIL)
            && (has_keyword(memory, voc, b"AGAIN", rows::AGAIN)
                && (has_keyword(memory, voc, b"WHILE", rows::WHILE)
                    && has_keyword(memory, voc, b"REPEAT", rows::REPEAT))))
}

fn has_counting(memory: &Memory, voc: u16) -> bool
    ensures { result ≡ has_counting (stored memory.now) voc }
{
    has_keyword(memory, voc, b"DO", rows::DO)
        && (has_keyword(memory, voc, b"LOOP", rows::LOOP)
            && has_keyword(memory, voc, b"+LOOP", rows::PLUS_LOOP))
}

fn has_saying(memory: &Memory, voc: u16) -> bool
    ensures { result ≡ has_saying (stored memory.now) voc }
{
    has_keyword(memory, voc, b".\"", rows::DOT_QUOTE)
        && (has_keyword(memory, voc, b"ABORT\"", rows::ABORT_QUOTE)
            && (has_keyword(memory, voc, b"DOES>", rows::DOES)
                && has_keyword(memory, voc, b";", rows::SEMICOLON)))
}

/// Whether a vocabulary, and then FORTH, has all words of the resident compiler.
#[tactic(auto, unfolding(crate::specs::Residency::has_keys))]
fn has_keys(memory: &Memory, voc: u16) -> bool
    ensures { result ≡ has_keys (stored memory.now) voc }
{
    has_colon(memory, voc)
        && (has_keyword(memory, voc, b"(", rows::PAREN)
            && (has_naming(memory, voc)
                && (has_choosing(memory, voc)
                    && (has_repeating(memory, voc)
                        && (has_counting(memory, voc) && has_saying(memory, voc))))))
}

fn has_jumps(memory: &Memory, word: u16) -> bool
    requires { word ≤ 65511 }
    ensures { result ≡ has_jumps (stored memory.now) word }
{
    memory.cell(word + 8) == word + 22
        && (memory.cell(word + 12) == memory.cell(word + 6)
            && (memory.cell(word + 14) == word + 18 && memory.cell(word + 20) == word + 2))
}

fn has_primitives(memory: &Memory, word: u16) -> bool
    requires { word ≤ 65511 }
    ensures { result ≡ has_primitives (stored memory.now) (words_at (stored memory.now) word) }
{
    memory.cell(memory.cell(word + 2)) == rows::INTERPRET
        && (memory.cell(memory.cell(word + 4)) == rows::QUESTION_DUP
            && (memory.cell(memory.cell(word + 6)) == Control::ZeroBranch as u16
                && (memory.cell(memory.cell(word + 10)) == rows::ZERO_GREATER
                    && (memory.cell(memory.cell(word + 16)) == rows::EXECUTE
                        && (memory.cell(memory.cell(word + 18)) == Control::Branch as u16
                            && memory.cell(memory.cell(word + 22)) == Control::Exit as u16)))))
}

/// Whether INTERPRET's thread comes after this code field.
#[tactic(auto, unfolding(crate::specs::Residency::has_thread))]
fn has_thread(memory: &Memory, word: u16) -> bool
    ensures value { result ≡ has_thread (stored memory.now) word }
    ensures near { IsTrue result → word ≤ 65511 }
{
    word <= 65511
        && (memory.cell(word) == code_fields::COLON
            && (has_jumps(memory, word) && has_primitives(memory, word)))
}

/// Where a header ends, after its code field.
fn end_of_header(memory: &Memory, l: u16) -> u32
    ensures value { result ≡ end_of_header (stored memory.now) l }
    ensures most { result ≤ 65795 }
{
    u32::from(l) + (5 + u32::from(header(memory, l).length))
}

/// Whether two headers don't overlap.
#[tactic(auto, unfolding(crate::specs::Residency::are_apart))]
fn are_apart(memory: &Memory, l: u16, k: u16) -> bool
    ensures { result ≡ are_apart (stored memory.now) l k }
{
    let behind = end_of_header(memory, l) + 2 <= u32::from(k);
    let before = end_of_header(memory, k) + 2 <= u32::from(l);
    l == k || (behind || before)
}

#[tactic(auto, unfolding(crate::specs::Residency::is_apart_from))]
fn is_apart_from(memory: &Memory, headers: &[u16], l: u16) -> bool
    ensures { result ≡ is_apart_from (stored memory.now) headers.now l }
{
    headers.iter().all(|k| are_apart(memory, l, *k))
}

fn are_all_apart(memory: &Memory, headers: &[u16]) -> bool
    ensures { result ≡ list_all (is_apart_from (stored memory.now) headers.now) headers.now }
{
    headers.iter().all(|l| is_apart_from(memory, headers, *l))
}

/// Whether a header is from 258 to HERE.
#[tactic(auto, unfolding(crate::specs::Residency::is_within))]
fn is_within(memory: &Memory, l: u16) -> bool
    ensures { result ≡ is_within (stored memory.now) l }
{
    258 <= l && end_of_header(memory, l) <= u32::from(memory.cell(DP))
}

fn are_within(memory: &Memory, headers: &[u16]) -> bool
    ensures { result ≡ list_all (is_within (stored memory.now)) headers.now }
{
    headers.iter().all(|l| is_within(memory, *l))
}

/// Whether a header is beside a record.
#[tactic(auto, unfolding(crate::specs::Residency::is_beside))]
fn is_beside(memory: &Memory, voc: u16, l: u16) -> bool
    ensures { result ≡ is_beside (stored memory.now) voc l }
{
    let behind = u32::from(voc) + 12 <= u32::from(l);
    let before = end_of_header(memory, l) <= u32::from(voc);
    behind || before
}

fn are_beside(memory: &Memory, voc: u16, headers: &[u16]) -> bool
    ensures { result ≡ list_all (is_beside (stored memory.now) voc) headers.now }
{
    headers.iter().all(|l| is_beside(memory, voc, *l))
}

/// Whether a header of the list has this code field.
#[tactic(auto, unfolding(crate::specs::Residency::has_header))]
fn has_header(memory: &Memory, headers: &[u16], word: u16) -> bool
    ensures { result ≡ has_header (stored memory.now) headers.now word }
{
    headers
        .iter()
        .any(|l| compilation_address(memory, *l) == word)
}

/// Adds the headers of a chain to a list; whether it has at most 32,768.
fn push_chain(memory: &Memory, head: u16, headers: &mut Vec<u16>) -> Result<bool, AllocError>
    ensures { IfOk result (λ whole. IsTrue whole → Joined (stored memory.now) head headers.old.items headers.new.items) }
{
    let mut l = memory.cell(head);
    let mut left = MOST;
    while left > 0 {
        if l == 0 {
            return Ok(true);
        }
        headers.push(l)?;
        l = memory.cell(l);
        left -= 1;
    }
    Ok(l == 0)
}

/// Adds the headers of a vocabulary's four chains to a list; whether each has at most 32,768.
fn push_vocabulary(memory: &Memory, voc: u16, headers: &mut Vec<u16>) -> Result<bool, AllocError>
    ensures { IfOk result (λ whole. IsTrue whole → JoinedAll (stored memory.now) voc headers.old.items headers.new.items) }
{
    if !push_chain(memory, voc, headers)? {
        return Ok(false);
    }
    if !push_chain(memory, voc.wrapping_add(2), headers)? {
        return Ok(false);
    }
    if !push_chain(memory, voc.wrapping_add(4), headers)? {
        return Ok(false);
    }
    push_chain(memory, voc.wrapping_add(6), headers)
}

/// Adds the headers of the three vocabularies that are searched.
fn push_all(memory: &Memory, headers: &mut Vec<u16>) -> Result<bool, AllocError>
    ensures { IfOk result (λ whole. IsTrue whole → HasChains (stored memory.now) headers.new.items) }
{
    let current = memory.cell(CURRENT);
    let context = memory.cell(CONTEXT);
    if !push_vocabulary(memory, current, headers)? {
        return Ok(false);
    }
    if !push_vocabulary(memory, context, headers)? {
        return Ok(false);
    }
    push_vocabulary(memory, FORTH_VOC, headers)
}

fn has_words(memory: &Memory, headers: &[u16], word: u16) -> bool
    requires { word ≤ 65511 }
    ensures { result ≡ has_words (stored memory.now) headers.now (words_at (stored memory.now) word) }
{
    has_header(memory, headers, word)
        && (has_header(memory, headers, memory.cell(word + 2))
            && (has_header(memory, headers, memory.cell(word + 4))
                && (has_header(memory, headers, memory.cell(word + 6))
                    && (has_header(memory, headers, memory.cell(word + 10))
                        && (has_header(memory, headers, memory.cell(word + 16))
                            && (has_header(memory, headers, memory.cell(word + 18))
                                && has_header(memory, headers, memory.cell(word + 22))))))))
}

#[tactic(auto, unfolding(crate::specs::Residency::is_idle))]
fn is_idle(memory: &Memory, limit: u16) -> bool
    ensures { result ≡ is_idle (stored memory.now) limit }
{
    memory.cell(STATE) == 0
        && (memory.cell(BASE) == 10 && (memory.cell(DP) <= limit && 256 <= memory.cell(DP)))
}

fn is_record(memory: &Memory, voc: u16) -> bool
    ensures { result ≡ is_record (stored memory.now) voc }
{
    voc == FORTH_VOC || (256 <= voc && u32::from(voc) + 10 <= u32::from(memory.cell(DP)))
}

fn are_records_apart(voc: u16, other: u16) -> bool
    ensures { result ≡ are_records_apart voc other }
{
    voc == other
        || (u32::from(voc) + 10 <= u32::from(other) || u32::from(other) + 10 <= u32::from(voc))
}

fn is_thread_beside(voc: u16, word: u16) -> bool
    ensures { result ≡ is_thread_beside voc word }
{
    u32::from(voc) + 10 <= u32::from(word) + 2 || u32::from(word) + 24 <= u32::from(voc)
}

/// Whether records and the thread are below HERE, beside one another.
#[tactic(auto, unfolding(crate::specs::Residency::are_placed))]
fn are_placed(memory: &Memory, current: u16, context: u16, word: u16) -> bool
    ensures { result ≡ are_placed (stored memory.now) current context word }
{
    is_record(memory, current)
        && (is_record(memory, context)
            && (are_records_apart(current, context)
                && (254 <= word
                    && (u32::from(word) + 24 <= u32::from(memory.cell(DP))
                        && (is_thread_beside(current, word) && is_thread_beside(context, word))))))
}

/// All tests but those of chains.
fn passes(memory: &Memory, limit: u16, word: u16, headers: &[u16]) -> bool
    ensures { result ≡ passes (stored memory.now) limit word headers.now }
{
    let current = memory.cell(CURRENT);
    let context = memory.cell(CONTEXT);
    has_thread(memory, word)
        && (has_keys(memory, context)
            && (has_keys(memory, current)
                && (has_words(memory, headers, word)
                    && (is_idle(memory, limit)
                        && (are_within(memory, headers)
                            && (are_all_apart(memory, headers)
                                && (are_placed(memory, current, context, word)
                                    && (are_beside(memory, current, headers)
                                        && are_beside(memory, context, headers)))))))))
}

/// Whether a memory has the resident compiler, if the block buffers begin at the limit.
pub fn is_resident(alloc: Global, memory: &Memory, limit: u16) -> Result<bool, AllocError>
    ensures { IfOk result (λ resident. IsTrue resident → IsResident limit (stored memory.now)) }
{
    let word = match find(memory, b"INTERPRET") {
        Ok(Some(word)) => word,
        Ok(None) => return Ok(false),
        Err(_) => return Ok(false),
    };
    let mut headers = Vec::new(alloc);
    if !push_all(memory, &mut headers)? {
        return Ok(false);
    }
    Ok(passes(memory, limit, word, headers.as_slice()))
}
