//! Words of a stream.

ghost use Rattle.std.specs.Prelude.{◌≡◌, ◌+◌, ◌<◌, ◌≤◌, ℕ, List, length};
ghost use Rattle.memory.specs.Bytes.{bytes};
ghost use Rattle.memory.specs.Mirrored.{stored};
ghost use Rattle.input_source.specs.Words.{word_start, next_delimiter, parsed, word_at, text, word_in, parsed_in, bytes_in, bytes_of, IsTaken, IsNextWord};

use memory::Memory;

/// A stream of bytes in memory, which goes on at address 0 if it reaches memory's end.
///
/// Places are counted from the stream's beginning; one past the size counts as the size.
#[derive(Clone, Copy, Debug, PartialEq, Eq)]
pub struct Stream {
    /// The address of its first byte.
    pub at: u16,
    /// Its size in bytes.
    pub size: u16,
    /// The place that is read next.
    pub place: u16,
}

/// A word of a stream, by places counted from the stream's beginning.
#[derive(Clone, Copy, Debug, PartialEq, Eq)]
pub struct Word {
    /// The place of its first byte.
    pub at: u16,
    /// Its length in bytes.
    pub len: u16,
    /// The place that is read next: past the delimiter after the word, or the size if none exists.
    pub next: u16,
}

/// The place of the first byte at `from` or after it that isn't the delimiter, else the size.
#[tactic(auto, using(crate::proofs::Scans::starts, memory::proofs::Ranges::ranges))]
fn word_start(memory: &Memory, at: u16, size: u16, from: u16, delimiter: u8) -> u16
    requires { from ≤ size }
    ensures value { result ≡ word_start (bytes (stored memory.now) at size) from delimiter }
    ensures len { length (bytes (stored memory.now) at size) ≡ size }
    ensures within { result ≤ size }
{
    let _ = memory.len();
    let mut i = from;
    while i < size && memory.byte_in(at, size, i) == delimiter {
        i += 1;
    }
    i
}

/// The place of the first delimiter at `from` or after it, else the size.
#[tactic(auto, using(crate::proofs::Scans::ends, memory::proofs::Ranges::ranges))]
fn next_delimiter(memory: &Memory, at: u16, size: u16, from: u16, delimiter: u8) -> u16
    requires { from ≤ size }
    ensures value { result ≡ next_delimiter (bytes (stored memory.now) at size) from delimiter }
    ensures len { length (bytes (stored memory.now) at size) ≡ size }
    ensures within { (from ≤ result) × (result ≤ size) }
{
    let _ = memory.len();
    let mut i = from;
    while i < size && memory.byte_in(at, size, i) != delimiter {
        i += 1;
    }
    i
}

/// What is from a place to the first delimiter.
fn parse_from(memory: &Memory, stream: Stream, place: u16, delimiter: u8) -> Word
    requires { place ≤ stream.size }
    ensures value { result ≡ parsed (text (stored memory.now) stream) place delimiter }
    ensures within { (result.at + result.len ≤ stream.size) × (result.next ≤ stream.size) }
{
    let end = next_delimiter(memory, stream.at, stream.size, place, delimiter);
    let next = if end < stream.size {
        end + 1
    } else {
        stream.size
    };
    Word {
        at: place,
        len: end - place,
        next,
    }
}

/// The bytes from the stream's place to the first delimiter, which may be none. The place after is past a delimiter
/// that was found, else the size.
#[tactic(auto, unfolding(crate::specs::Words::parsed_in))]
pub fn parse_to(memory: &Memory, stream: Stream, delimiter: u8) -> Word
    ensures value { result ≡ parsed_in (stored memory.now) stream delimiter }
    ensures within { (result.at + result.len ≤ stream.size) × (result.next ≤ stream.size) }
{
    parse_from(memory, stream, stream.place.min(stream.size), delimiter)
}

/// The next word: the first run of bytes other than the delimiter, at the stream's place or after it. It has no
/// bytes if none but delimiters are left. The place after is past a delimiter that was found, else the size.
#[tactic(auto, unfolding(crate::specs::Words::word_in))]
pub fn next_word(memory: &Memory, stream: Stream, delimiter: u8) -> Word
    ensures value { result ≡ word_in (stored memory.now) stream delimiter }
    ensures within { (result.at + result.len ≤ stream.size) × (result.next ≤ stream.size) }
{
    let place = stream.place.min(stream.size);
    let start = word_start(memory, stream.at, stream.size, place, delimiter);
    parse_from(memory, stream, start, delimiter)
}

/// The law of words: parsing takes all bytes up to a delimiter, and the next word is the first maximal run of others.
#[tactic(auto, using(crate::proofs::WordLaw::word_laws))]
pub fn word_law()
    ensures parsing { (s : List ℕ) (p c : ℕ) → p ≤ length s → IsTaken s c (parsed s p c) }
    ensures word { (s : List ℕ) (p c : ℕ) → p ≤ length s → IsNextWord s p c (word_at s p c) }
{}

/// The law of streams: the bytes of a word, where they are in memory, are those that the stream's list has of it.
#[tactic(auto, using(crate::proofs::Ranges::bytes_part), unfolding(crate::specs::Words::bytes_in))]
pub fn stream_law()
    ensures { (m : List ℕ) (stream : Stream) (w : Word) → length m ≡ 65536 → stream.at < 65536 → stream.size < 65536 →
        w.at + w.len ≤ stream.size → bytes_in m stream w ≡ bytes_of (text m stream) w }
{}
