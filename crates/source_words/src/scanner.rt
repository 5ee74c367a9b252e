//! Words one at a time, lent out of the bytes that they are in.

ghost use Rattle.std.specs.Prelude.{◌≡◌, ◌<◌, ◌≤◌, [], ◌∷◌, length, IsNone, MatchOption, IfSome};
ghost use Rattle.source_words.specs.Words.{screen_words};
ghost use Rattle.source_words.specs.Modes.{mode_after};

use crate::modes::Mode;
use crate::reading::word_at;
use crate::spans::pass_comments;
use crate::word::Word;

/// The words of a screen, or of any other bytes, one after another.
#[derive(Clone, Copy, Drop)]
pub struct Scanner<'a> {
    text: &'a [u8],
    screen: u16,
    at: usize,
    mode: Mode,
    ghost within: { at ≤ length text.now },
    ghost short: { length text.now < 65536 },
}

impl<'a> Scanner<'a> {
    ghost use Rattle.source_words.specs.Scanned.{source_word, words_left};

    /// At the first word of a screen, or of any other bytes, of which there are less than 65,536.
    pub fn new(text: &'a [u8], screen: u16, mode: Mode) -> Scanner<'a>
        requires { length text.now < 65536 }
        ensures left { words_left result ≡ screen_words mode screen text.now }
        ensures mode { result.mode ≡ mode }
        ensures size { result.text.now ≡ text.now }
    {
        Scanner {
            text,
            screen,
            at: 0,
            mode,
        }
    }

    /// How the next word is read.
    pub fn mode(&self) -> Mode
        ensures { result ≡ self.now.mode }
    {
        self.mode
    }

    /// The next word; after the last there is none, and no more comes.
    pub fn next(&mut self) -> Option<Word<'a>>
        ensures left { MatchOption result (words_left self.old ≡ [])
            (λ w. words_left self.old ≡ source_word w ∷ words_left self.new) }
        ensures end { IsNone result → words_left self.new ≡ [] }
        ensures mode { MatchOption result (self.new.mode ≡ self.old.mode)
            (λ w. self.new.mode ≡ mode_after self.old.mode w.name.now) }
        ensures text { self.new.text ≡ self.old.text }
        ensures at { IfSome result (λ w.
            (self.old.at ≤ w.offset) × (w.offset < self.new.at) × (w.screen ≡ self.old.screen)) }
    {
        let text = self.text;
        let start = pass_comments(text, self.at, self.mode);
        self.at = start;
        if start >= text.len() {
            return None;
        }
        let (word, next) = word_at(text, self.screen, start, self.mode);
        self.mode = self.mode.after(word.name);
        self.at = next;
        Some(word)
    }
}
