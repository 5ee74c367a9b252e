//! The words of a screen's source, without those in comments and texts, and after the source's end.

ghost use Rattle.std.specs.Option.{ForSome};
ghost use Rattle.std.specs.Prelude.{◌≡◌, ◌<◌, ◌≤◌, IfSome, false, length};

use crate::words::{Word, place_of, word_from};

/// How many bytes a line has.
pub const LINE: usize = 64;

/// Reads the words of a screen's text, which is in capitals.
#[derive(Drop)]
pub struct Reader<'a> {
    text: &'a [u8],
    at: usize,
    /// Whether a definition is open.
    is_inside: bool,
    /// Whether the word before is a colon.
    is_after_colon: bool,
    /// The name of machine code, which comes before the next word.
    name: Option<Word>,
    ghost name_within: { ForSome name (λ w. (w.start < w.end) × (w.end ≤ length text.now)) },
}

/// Where the text after a mark ends: after the next one of this kind, or with the screen.
fn after_mark(text: &[u8], at: usize, mark: u8) -> usize {
    let end = place_of(text, mark, at.saturating_add(1).min(text.len()));
    end.saturating_add(1).min(text.len())
}

/// Where the next word ends, or the screen.
fn after_word(text: &[u8], at: usize) -> usize {
    match word_from(text, at) {
        Some(word) => word.end,
        None => text.len(),
    }
}

/// Where machine code ends: after END-CODE, C; or ;C with a blank after it, or with the screen.
fn after_code(text: &[u8], from: usize) -> usize {
    let mut at = from;
    for _ in 0..text.len() {
        let Some(word) = word_from(text, at) else {
            return text.len();
        };
        at = word.end;
        let is_end = matches!(&text[word.start..word.end], b"END-CODE" | b"C;" | b";C");
        if is_end && word.end < text.len() {
            return at;
        }
    }
    text.len()
}

impl<'a> Reader<'a> {
    /// At the beginning of a screen.
    pub fn new(text: &'a [u8], is_inside: bool) -> Reader<'a>
        ensures place { result.at ≡ 0 }
        ensures text { result.text.now ≡ text.now }
        ensures inside { (result.is_inside ≡ is_inside) × (result.is_after_colon ≡ false) }
    {
        Reader {
            text,
            at: 0,
            is_inside,
            is_after_colon: false,
            name: None,
        }
    }

    /// The bytes of a word.
    pub fn bytes(&self, word: Word) -> &'a [u8] {
        self.text.get(word.start..word.end).unwrap_or(b"")
    }

    /// The next word.
    pub fn next(&mut self) -> Option<Word>
        ensures within { IfSome result (λ w. w.end ≤ length self.old.text.now) }
        ensures nonempty { IfSome result (λ w. w.start < w.end) }
    {
        if let Some(name) = self.name.take() {
            return Some(name);
        }
        let text = self.text;
        for _ in 0..text.len() {
            let word = word_from(text, self.at)?;
            let bytes = self.bytes(word);
            let is_name = self.is_after_colon;
            self.at = word.end;
            self.is_after_colon = matches!(bytes, b":");
            if is_name {
                return Some(word);
            }
            if !matches!(bytes, b"\\") {
                self.step_over(bytes);
                return Some(word);
            }
            self.at = (word.start / LINE + 1) * LINE;
        }
        None
    }

    /// Whether machine code begins after a word.
    fn begins_code(&self, word: &[u8]) -> bool {
        match word {
            b";CODE" => true,
            b"CODE" | b"LABEL" => !self.is_inside,
            _ => false,
        }
    }

    /// Where the source goes on after what a word takes from it.
    fn place_after(&self, word: &[u8]) -> usize {
        match word {
            b".\"" | b"ABORT\"" | b"\"" | b",\"" | b"S\"" | b"$\"" => after_mark(
                self.text, self.at, b'"',
            ),
            b"(" | b"(S" | b".(" => after_mark(self.text, self.at, b')'),
            b"\\S" | b"-->" => self.text.len(),
            b";S" | b"EXIT" if !self.is_inside => self.text.len(),
            b"ASCII" | b"CONTROL" | b"[CHAR]" | b"CHAR" => after_word(self.text, self.at),
            _ => self.at,
        }
    }

    /// Whether a definition is open after a word.
    fn opens(&self, word: &[u8]) -> bool {
        match word {
            b":" => true,
            b";" | b";CODE" => false,
            _ => self.is_inside,
        }
    }

    /// Goes over what a word takes from the source.
    fn step_over(&mut self, word: &[u8]) {
        let is_inside = self.opens(word);
        if self.begins_code(word) {
            self.step_over_code();
        } else {
            self.at = self.place_after(word);
        }
        self.is_inside = is_inside;
    }

    /// Goes over machine code. The word at its beginning, a name, comes next.
    fn step_over_code(&mut self) {
        self.name = word_from(self.text, self.at);
        self.at = after_code(self.text, self.at);
    }
}
