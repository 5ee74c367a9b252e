//! One word and its text.

ghost use Rattle.std.specs.Prelude.{◌≡◌, ◌≢◌, ◌<◌, ◌≤◌, ◌∷◌, drop, length, false, slice_index};
ghost use Rattle.source_words.specs.Words.{is_comment, words_at};
ghost use Rattle.source_words.specs.Modes.{mode_after};
ghost use Rattle.source_words.specs.Scanned.{source_word};

use crate::modes::Mode;
use crate::spans::{enclosed, find};
use crate::word::Word;

/// The word at `start`, and the place after it and its text.
pub fn word_at(text: &[u8], screen: u16, start: usize, mode: Mode) -> (Word<'_>, usize)
    requires short { length text.now < 65536 }
    requires within { start < length text.now }
    requires begins { slice_index text.now start ≢ 32 }
    requires plain { is_comment mode (drop start text.now) ≡ false }
    ensures left { words_at mode screen start text.now ≡ source_word result.0 ∷ words_at
        (mode_after mode result.0.name.now) screen result.1 text.now }
    ensures at { (result.0.offset ≡ start) × (result.0.screen ≡ screen) }
    ensures further { (start < result.1) × (result.1 ≤ length text.now) }
{
    let end = find(text, start, b' ');
    let name = &text[start..end];
    if mode.has_text(name) {
        let (bytes, next) = enclosed(text, start, end, b'"');
        let word = Word {
            screen,
            offset: start as u16,
            name,
            text: Some(bytes),
        };
        return (word, next);
    }
    let word = Word {
        screen,
        offset: start as u16,
        name,
        text: None,
    };
    (word, end)
}
