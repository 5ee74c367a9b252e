//! Rows 144 to 146, and what every row does that needs the input stream.

#![tactic(auto, using(machine_parts::proofs::Takes::takes))]

ghost use Rattle.std.specs.Prelude.{◌≡◌};
ghost use Rattle.primitives.specs.Streams.{IsOpened, past, word, paren, dot_paren};

use crate::blocks::without_block;
use crate::writing::place_word;
use input_source::{Stream, Word, next_word, parse_to, stream};
use machine_parts::faults::{BAD_LENGTH, DATA_UNDERFLOW, NO_BLOCK};
use machine_parts::parts::{Outcome, Parts, Span};
use memory::system::{BLK, TO_IN};

/// References the stream's block, and gives the stream; or says what stops the row, which is then unchanged.
#[tactic(auto, unfolding(crate::specs::Streams::has_stream, crate::specs::Streams::stream_buffers, crate::specs::Blocks::has_block, crate::specs::Blocks::without_block, input_source::specs::Streams::needs_block))]
pub fn open(parts: &mut Parts) -> Result<Stream, Outcome>
    ensures { IsOpened parts.old parts.new result }
{
    let block = parts.memory.cell(BLK);
    let Ok(stream) = stream(parts.memory, &parts.buffers) else {
        return Err(without_block(parts, block));
    };
    if block == 0 {
        return Ok(stream);
    }
    if u32::from(block) >= parts.block_count {
        return Err(Outcome::Fault(NO_BLOCK));
    }
    parts.buffers.touch(block);
    Ok(stream)
}

/// Makes `>IN` the place after a word.
pub fn pass(parts: &mut Parts, word: Word)
    ensures { parts.new ≡ (record parts.old { memory = past parts.old.memory word }) }
{
    parts.set_cell(TO_IN, word.next);
}

/// 144 `WORD` ( c -- a )
pub fn word(parts: &mut Parts) -> Outcome
    ensures { (parts.new, result) ≡ word parts.old }
{
    let Some(c) = parts.values.pick(0) else {
        return Outcome::Fault(DATA_UNDERFLOW);
    };
    let stream = match open(parts) {
        Ok(stream) => stream,
        Err(outcome) => return outcome,
    };
    let word = next_word(parts.memory, stream, (c % 256) as u8);
    let Ok(here) = place_word(parts, stream, word) else {
        return Outcome::Fault(BAD_LENGTH);
    };
    parts.values.lower(1);
    parts.values.put(here);
    Outcome::Done
}

/// 145 `(` ( -- )
pub fn paren(parts: &mut Parts) -> Outcome
    ensures { (parts.new, result) ≡ paren parts.old }
{
    let stream = match open(parts) {
        Ok(stream) => stream,
        Err(outcome) => return outcome,
    };
    let word = parse_to(parts.memory, stream, b')');
    pass(parts, word);
    Outcome::Done
}

/// 146 `.(` ( -- )
pub fn dot_paren(parts: &mut Parts) -> Outcome
    ensures { (parts.new, result) ≡ dot_paren parts.old }
{
    let stream = match open(parts) {
        Ok(stream) => stream,
        Err(outcome) => return outcome,
    };
    let word = parse_to(parts.memory, stream, b')');
    pass(parts, word);
    Outcome::Show(Span {
        at: stream.at.wrapping_add(word.at),
        len: word.len,
    })
}
