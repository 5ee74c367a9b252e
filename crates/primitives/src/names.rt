//! Names that rows take, looked up where they are in memory. Only of a name that goes on at address 0 a copy is made, of its
//! first bytes.

ghost use Rattle.std.specs.Prelude.{◌≡◌, ◌<◌, ◌≤◌, ◌+◌, ◌++◌, length, MatchOption};
ghost use Rattle.dictionary.specs.Forgetting.{target};
ghost use Rattle.input_source.specs.Words.{bytes_in};
ghost use Rattle.memory.specs.Bytes.{bytes};
ghost use Rattle.memory.specs.Mirrored.{stored};
ghost use Rattle.number_text.specs.Numbers.{IsNumber, IsNoNumber};
ghost use Rattle.dictionary.specs.Search.{sought, IsSought};
ghost use Rattle.primitives.specs.Names.{counted_string, IsWordRead};

use crate::streams::open;
use crate::text::Text;
use dictionary::{ChainTooLong, ForgetFault, compilation_address, forget_target};
use input_source::{Stream, Word, next_word};
use machine_parts::faults::{BAD_LENGTH, CHAIN_TOO_LONG, NOT_FOUND};
use machine_parts::parts::{Outcome, Parts};
use memory::Memory;
use name_index::find_indexed;
use number_text::{Number, number, number_of_pieces};

/// The same of a name that goes on at address 0.
#[tactic(auto, using(crate::proofs::Short::sought_short))]
fn sought_in_pieces(parts: &mut Parts, from: u16, n: u16) -> Result<Option<u16>, ChainTooLong>
    ensures found { IsSought (sought parts.old.memory (bytes parts.old.memory from n)) result }
    ensures same { parts.new ≡ parts.old }
{
    let _ = parts.memory.len();
    let (head, tail) = parts.memory.span(from, n);
    let name = Text::joined(head, tail);
    find_indexed(parts.memory, &mut parts.index, name.as_slice(), parts.limit)
}

/// The link field of the header that the `n` bytes from `from` on mean.
#[tactic(auto, using(crate::proofs::Pieces::all_in_front))]
fn sought_bytes(parts: &mut Parts, from: u16, n: u16) -> Result<Option<u16>, ChainTooLong>
    ensures found { IsSought (sought parts.old.memory (bytes parts.old.memory from n)) result }
    ensures same { parts.new ≡ parts.old }
{
    let (head, tail) = parts.memory.span(from, n);
    if tail.is_empty() {
        return find_indexed(parts.memory, &mut parts.index, head, parts.limit);
    }
    sought_in_pieces(parts, from, n)
}

/// The link field of the header that a word of the stream means.
#[tactic(auto, unfolding(input_source::specs::Words::bytes_in))]
pub fn sought(parts: &mut Parts, stream: Stream, word: Word) -> Result<Option<u16>, ChainTooLong>
    ensures found { IsSought (sought parts.old.memory (bytes_in parts.old.memory stream word)) result }
    ensures same { parts.new ≡ parts.old }
{
    sought_bytes(parts, stream.at.wrapping_add(word.at), word.len)
}

/// Takes a word out of the stream, and gives it and its compilation address; or says what stops the row.
#[tactic(auto, using(crate::proofs::Searching::searching))]
pub fn read_word(parts: &mut Parts) -> Result<(Word, u16), Outcome>
    ensures { IsWordRead parts.old parts.new result }
{
    let stream = open(parts)?;
    let word = next_word(parts.memory, stream, b' ');
    if word.len == 0 {
        return Err(Outcome::Fault(BAD_LENGTH));
    }
    match sought(parts, stream, word) {
        Ok(Some(link_field)) => Ok((word, compilation_address(parts.memory, link_field))),
        Ok(None) => Err(Outcome::Fault(NOT_FOUND)),
        Err(_) => Err(Outcome::Fault(CHAIN_TOO_LONG)),
    }
}

/// The link field of the header that the counted string at `a` means.
#[tactic(auto, unfolding(crate::specs::Names::counted_string))]
pub fn sought_at(parts: &mut Parts, a: u16) -> Result<Option<u16>, ChainTooLong>
    ensures found { IsSought (sought parts.old.memory (counted_string parts.old.memory a)) result }
    ensures same { parts.new ≡ parts.old }
{
    let count = parts.memory.byte(a);
    sought_bytes(parts, a.wrapping_add(1), u16::from(count))
}

/// The number that a word of the stream spells.
#[tactic(auto, using(crate::proofs::Pieces::all_in_front), unfolding(input_source::specs::Words::bytes_in))]
pub fn number_in(memory: &Memory, stream: Stream, word: Word, base: u16) -> Option<Number>
    ensures { MatchOption result (IsNoNumber base (bytes_in (stored memory.now) stream word))
        (IsNumber base (bytes_in (stored memory.now) stream word)) }
{
    let (head, tail) = memory.span(stream.at.wrapping_add(word.at), word.len);
    if tail.is_empty() {
        return number(head, base);
    }
    if head.is_empty() {
        return number(tail, base);
    }
    number_of_pieces(head, tail, base)
}

/// Where the header begins that a word of the stream means for FORGET.
#[tactic(auto, using(crate::proofs::Pieces::all_in_front), unfolding(input_source::specs::Words::bytes_in))]
pub fn target_in(memory: &Memory, stream: Stream, word: Word) -> Result<u16, ForgetFault>
    ensures { result ≡ target (stored memory.now) (bytes_in (stored memory.now) stream word) }
{
    let (head, tail) = memory.span(stream.at.wrapping_add(word.at), word.len);
    if tail.is_empty() {
        return forget_target(memory, head);
    }
    target_in_pieces(memory, head, tail)
}

#[tactic(auto, using(crate::proofs::Short::target_short))]
fn target_in_pieces(memory: &Memory, head: &[u8], tail: &[u8]) -> Result<u16, ForgetFault>
    ensures { result ≡ target (stored memory.now) (head.now ++ tail.now) }
{
    let _ = memory.len();
    let name = Text::joined(head, tail);
    forget_target(memory, name.as_slice())
}
