//! Where blanks, words, comments and texts end.

ghost use Rattle.std.specs.Prelude.{◌≡◌, ◌≢◌, ◌+◌, ◌<◌, ◌≤◌, ℕ, drop, length, false, slice_index, IfSome, IfNone};
ghost use Rattle.source_words.specs.Words.{before, enclosed, enclosing, is_comment, words_at};

use crate::modes::{Mode, begins_comment};
use bstr::ByteSlice;

/// The place of the first byte `c` at `from` or after it, else the end.
pub fn find(text: &[u8], from: usize, c: u8) -> usize
    requires { from ≤ length text.now }
    ensures value { result ≡ from + before c (drop from text.now) }
    ensures within { result ≤ length text.now }
{
    let rest = &text[from..];
    match rest.find_byte(c) {
        Some(k) => from + k,
        None => text.len(),
    }
}

/// The place of the first byte that isn't blank, at `from` or after it, else the end.
#[tactic(auto, using(crate::proofs::Places::blank_at))]
pub fn pass_blanks(text: &[u8], from: usize) -> usize
    requires { from ≤ length text.now }
    ensures same { (m : Mode) (screen : ℕ) → words_at m screen from text.now ≡ words_at m screen result text.now }
    ensures within { (from ≤ result) × (result ≤ length text.now) }
    ensures found { result < length text.now → slice_index text.now result ≢ 32 }
{
    let mut i = from;
    while i < text.len() && text[i] == b' ' {
        i += 1;
    }
    i
}

/// What a comment or text has that belongs to the word at `start`, and the place after it: past a byte `c` that was
/// found, else the end.
pub fn enclosed(text: &[u8], start: usize, end: usize, c: u8) -> (&[u8], usize)
    requires begins { start ≤ length text.now }
    requires ends { end ≡ start + before 32 (drop start text.now) }
    ensures bytes { result.0.now ≡ enclosed c (drop start text.now) }
    ensures next { (m : Mode) (screen : ℕ) →
        words_at m screen (start + enclosing c (drop start text.now)) text.now ≡ words_at m screen result.1 text.now }
    ensures within { (end ≤ result.1) × (result.1 ≤ length text.now) }
{
    if end >= text.len() {
        return (&[], text.len());
    }
    let from = end + 1;
    let to = find(text, from, c);
    let bytes = &text[from..to];
    if to < text.len() {
        (bytes, to + 1)
    } else {
        (bytes, to)
    }
}

/// If the word at `at` begins a comment, the place after that.
fn comment_end(text: &[u8], at: usize, mode: Mode) -> Option<usize>
    requires within { at < length text.now }
    requires begins { slice_index text.now at ≢ 32 }
    ensures same { IfSome result (λ next. (screen : ℕ) →
        words_at mode screen at text.now ≡ words_at mode screen next text.now) }
    ensures further { IfSome result (λ next. (at < next) × (next ≤ length text.now)) }
    ensures none { IfNone result (is_comment mode (drop at text.now) ≡ false) }
{
    if mode.is_name_due() {
        return None;
    }
    let end = find(text, at, b' ');
    let name = &text[at..end];
    if !begins_comment(name) {
        return None;
    }
    let (_, next) = enclosed(text, at, end, b')');
    Some(next)
}

/// The place of the next word, at `from` or after it, else the end: blanks and comments are passed over.
pub fn pass_comments(text: &[u8], from: usize, mode: Mode) -> usize
    requires { from ≤ length text.now }
    ensures same { (screen : ℕ) → words_at mode screen from text.now ≡ words_at mode screen result text.now }
    ensures within { (from ≤ result) × (result ≤ length text.now) }
    ensures found { result < length text.now → (slice_index text.now result ≢ 32) ×
        (is_comment mode (drop result text.now) ≡ false) }
{
    let mut at = pass_blanks(text, from);
    while at < text.len() {
        let Some(next) = comment_end(text, at, mode) else {
            return at;
        };
        at = pass_blanks(text, next);
    }
    at
}
