//! What the cells of a thread are called, and what can't be printed.

ghost use Rattle.std.specs.Prelude.{◌≡◌, ◌==◌, ◌≤◌, true, false, not, length, vec_len, vec_capacity, MatchOption};
ghost use Rattle.memory.specs.Mirrored.{stored};
ghost use Rattle.std.specs.List.{list_all};
ghost use Rattle.dictionary.specs.Header.{name_of};
ghost use Rattle.dictionary.specs.Search.{Found, sought_hiding};
ghost use Rattle.see.specs.Naming.{name_if, number_text, is_word, is_quotable, is_meant, is_free};

use crate::adding::copy_into;
use dictionary::{compilation_address, name_length, search_hiding};
use itoa::Buffer;
use memory::Memory;

/// The most bytes that a name has.
pub const NAME_ROOM: usize = 31;

/// The name of a header, in place of what there was.
#[tactic(auto, using(crate::proofs::Rooms::short_name), unfolding(dictionary::specs::Header::name_of))]
pub fn copy_name(name: &mut Vec<u8>, memory: &Memory, l: u16)
    requires { 31 ≤ vec_capacity name.old }
    ensures is { name.new.items ≡ name_of (stored memory.now) l }
    ensures short { vec_len name.new ≤ 31 }
    ensures room { vec_capacity name.old ≤ vec_capacity name.new }
{
    copy_into(
        name,
        memory,
        l.wrapping_add(3),
        u16::from(name_length(memory, l)),
    );
}

/// The name of an address, by its header; the empty one if it has none.
pub fn copy_name_if(name: &mut Vec<u8>, memory: &Memory, header: Option<u16>)
    requires { 31 ≤ vec_capacity name.old }
    ensures is { name.new.items ≡ name_if (stored memory.now) header }
    ensures short { vec_len name.new ≤ 31 }
    ensures room { vec_capacity name.old ≤ vec_capacity name.new }
{
    match header {
        Some(l) => copy_name(name, memory, l),
        None => name.clear(),
    }
}

/// Whether none of the bytes is this one.
fn is_free_of(bytes: &[u8], stop: u8) -> bool
    ensures { result ≡ list_all (λ b. not (b == stop)) bytes.now }
{
    bytes.iter().all(|b| *b != stop)
}

/// Whether a name is one word: it has a byte, and no blank.
#[tactic(auto, unfolding(crate::specs::Naming::is_word))]
pub fn is_word(name: &[u8]) -> bool
    ensures { result ≡ is_word name.now }
{
    if name.is_empty() {
        return false;
    }
    is_free_of(name, b' ')
}

/// Whether a text has no quote.
#[tactic(auto, unfolding(crate::specs::Naming::is_quotable))]
pub fn is_quotable(text: &[u8]) -> bool
    ensures { result ≡ is_quotable text.now }
{
    is_free_of(text, b'"')
}

/// The header that the search of a name gives, if the one at `hidden` counts as hidden, if this is its compilation
/// address.
#[tactic(auto, unfolding(crate::specs::Naming::is_meant))]
pub fn meant(memory: &Memory, hidden: u16, name: &[u8], w: u16) -> Option<u16>
    ensures { let m = stored memory.now in MatchOption result (is_meant m hidden name.now w ≡ false)
        (λ k. (is_meant m hidden name.now w ≡ true) × (sought_hiding m name.now hidden ≡ Found k)) }
{
    match search_hiding(memory, name, hidden) {
        Ok(Some(k)) => {
            if compilation_address(memory, k) == w {
                return Some(k);
            }
            None
        }
        _ => None,
    }
}

/// Whether the search of a name ends with none.
#[tactic(auto, unfolding(crate::specs::Naming::is_free))]
pub fn is_free(memory: &Memory, hidden: u16, name: &[u8]) -> bool
    ensures { result ≡ is_free (stored memory.now) hidden name.now }
{
    matches!(search_hiding(memory, name, hidden), Ok(None))
}

/// A number as a signed decimal.
#[tactic(auto, unfolding(crate::specs::Naming::number_text))]
pub fn number_text(buffer: &mut Buffer, n: u16) -> &[u8]
    ensures is { result.now ≡ number_text n }
    ensures short { length result.now ≤ 40 }
{
    buffer.format(n.cast_signed()).as_bytes()
}
