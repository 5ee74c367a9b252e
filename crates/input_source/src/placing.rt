//! Words that are copied to HERE (WORD).

ghost use Rattle.std.specs.Prelude.{◌≡◌, ◌≤◌, length, take};
ghost use Rattle.memory.specs.Bytes.{bytes, put_bytes};
ghost use Rattle.memory.specs.Mirrored.{stored};
ghost use Rattle.input_source.specs.Placing.{counted, IsPlaced};
ghost use Rattle.input_source.specs.Words.{bytes_in};

use crate::words::{Stream, Word};
use memory::Memory;
use memory::system::{DP, TO_IN};
use thiserror::Error;

/// The word has more than 255 bytes, which its count byte can't say.
#[derive(Clone, Copy, Debug, PartialEq, Eq, Error)]
#[error("the word has more than 255 bytes")]
pub struct TooLong;

/// A copy of the `n` bytes from `at` on.
#[tactic(auto, using(crate::proofs::Copies::copied_all, memory::proofs::Ranges::ranges))]
fn copied(memory: &Memory, at: u16, n: u16) -> [u8; 256]
    requires { n ≤ 255 }
    ensures bytes { take n result ≡ bytes (stored memory.now) at n }
    ensures len { length (bytes (stored memory.now) at n) ≡ n }
{
    let mut copy = [0; 256];
    for i in 0..n {
        copy[i as usize] = memory.byte_in(at, n, i);
    }
    let _ = memory.len();
    copy
}

/// A copy of a word's bytes, of which it has at most 255: they are the first `word.len` of the array.
#[tactic(auto, unfolding(crate::specs::Words::bytes_in))]
pub fn word_bytes(memory: &Memory, stream: Stream, word: Word) -> [u8; 256]
    requires { word.len ≤ 255 }
    ensures bytes { take word.len result ≡ bytes_in (stored memory.now) stream word }
    ensures len { length (bytes_in (stored memory.now) stream word) ≡ word.len }
{
    copied(memory, stream.at.wrapping_add(word.at), word.len)
}

/// Writes the count, the bytes and a blank from `here` on.
#[tactic(auto, using(crate::proofs::Placings::counted_pieces))]
fn place_counted(memory: &mut Memory, here: u16, bytes: &[u8])
    requires { length bytes.now ≤ 255 }
    ensures { stored memory.new ≡ put_bytes (stored memory.old) here (counted bytes.now) }
{
    let first = here.wrapping_add(1);
    memory.set_byte(here, bytes.len() as u8);
    memory.set_bytes(first, bytes);
    memory.set_byte(first.wrapping_add(bytes.len() as u16), b' ');
}

/// Leaves a word of a stream: >IN is the place after it, and at HERE are its count, its bytes and a blank.
///
/// Its bytes and HERE are read before anything is written, and >IN is written first. Answers HERE, which stays.
/// `TooLong`, with memory as it was, if the word has more than 255 bytes. This is what WORD of the Standard writes.
#[tactic(auto, unfolding(crate::specs::Placing::with_word))]
pub fn place_word(memory: &mut Memory, stream: Stream, word: Word) -> Result<u16, TooLong>
    ensures { IsPlaced (stored memory.old) (stored memory.new) stream word result }
{
    if word.len > 255 {
        return Err(TooLong);
    }
    let bytes = word_bytes(memory, stream, word);
    let here = memory.cell(DP);
    memory.set_cell(TO_IN, word.next);
    place_counted(memory, here, &bytes[..word.len as usize]);
    Ok(here)
}
