//! Whether words are those of a plain definition.

ghost use Rattle.std.specs.Prelude.{◌↔◌, ◌≤◌, IsTrue, length, map, slice_index};
ghost use Rattle.colon_bodies.specs.Draft.{token};
ghost use Rattle.colon_bodies.specs.Plain.{IsPlainCell};
ghost use Rattle.see.specs.Parts.{token_in};
ghost use Rattle.see.specs.PlainWords.{IsPlainWord, ArePlainWords};
ghost use Rattle.colon_bodies.specs.declared.words.Half.TheVariants.{Free};

use crate::front::control_at;
use crate::parts::{Part, word_in};
use colon_bodies::{BodyWord, Half, half_behind};

/// Whether a cell is no control's that writes more than itself.
fn is_plain_cell(w: u16, runtime: &[u16]) -> bool
    requires { 28 ≤ length runtime.now }
    ensures { IsTrue result ↔ IsPlainCell (slice_index runtime.now) w }
{
    match control_at(w, runtime) {
        None => true,
        Some(_) => false,
    }
}

/// Whether a word may be in a plain definition, after what is half read.
fn is_plain_word(half: Half, word: BodyWord, runtime: &[u16]) -> bool
    requires { 28 ≤ length runtime.now }
    ensures { IsTrue result ↔ IsPlainWord (slice_index runtime.now) half (token word.entry) }
{
    match (half, word) {
        (Half::Free, BodyWord::Name(w)) => is_plain_cell(w, runtime),
        (_, BodyWord::Double(_)) | (_, BodyWord::Tick) | (_, BodyWord::Force) => false,
        _ => true,
    }
}

/// Whether the words of the thread of these bytes may be those of a plain definition.
pub fn are_plain(words: &[Part], bytes: &[u8], runtime: &[u16]) -> bool
    requires { 28 ≤ length runtime.now }
    ensures { IsTrue result ↔ ArePlainWords (slice_index runtime.now) Free (map (token_in bytes.now) words.now) }
{
    let mut half = Half::Free;
    for word in words.iter() {
        let word = word_in(bytes, *word);
        if !is_plain_word(half, word, runtime) {
            return false;
        }
        half = half_behind(half, word);
    }
    true
}
