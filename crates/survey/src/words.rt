//! Words in a screen's text, which has blanks between them.

ghost use Rattle.std.specs.Prelude.{◌≡◌, ◌≢◌, ℕ, ◌<◌, ◌≤◌, IfSome, IfNone, length, slice_index};

/// Where a word is in a screen: from its first byte to the one after its last.
#[derive(Clone, Copy)]
pub struct Word {
    pub start: usize,
    pub end: usize,
}

/// The first place from `at` on that has this byte, or the text's end.
pub fn place_of(text: &[u8], byte: u8, at: usize) -> usize
    ensures within { result ≤ length text.now }
    ensures after { at ≤ length text.now → at ≤ result }
    ensures before { (k : ℕ) → at ≤ k → k < result → slice_index text.now k ≢ byte }
    ensures found { result < length text.now → slice_index text.now result ≡ byte }
{
    for place in at..text.len() {
        if text[place] == byte {
            return place;
        }
    }
    text.len()
}

/// The first place from `at` on that has another byte than a blank, or the text's end.
fn past_blanks(text: &[u8], at: usize) -> usize
    ensures within { result ≤ length text.now }
    ensures after { at ≤ length text.now → at ≤ result }
    ensures before { (k : ℕ) → at ≤ k → k < result → slice_index text.now k ≡ 32 }
    ensures found { result < length text.now → slice_index text.now result ≢ 32 }
{
    for place in at..text.len() {
        if text[place] != b' ' {
            return place;
        }
    }
    text.len()
}

/// The first word from `at` on.
pub fn word_from(text: &[u8], at: usize) -> Option<Word>
    ensures within { IfSome result (λ w. w.end ≤ length text.now) }
    ensures nonempty { IfSome result (λ w. w.start < w.end) }
    ensures after { at ≤ length text.now → IfSome result (λ w. at ≤ w.start) }
    ensures blanks { IfSome result (λ w. (k : ℕ) → at ≤ k → k < w.start → slice_index text.now k ≡ 32) }
    ensures whole { IfSome result (λ w. (k : ℕ) → w.start ≤ k → k < w.end → slice_index text.now k ≢ 32) }
    ensures ended { IfSome result (λ w. w.end < length text.now → slice_index text.now w.end ≡ 32) }
    ensures none { IfNone result ((k : ℕ) → at ≤ k → k < length text.now → slice_index text.now k ≡ 32) }
{
    let start = past_blanks(text, at);
    if start == text.len() {
        return None;
    }
    let end = place_of(text, b' ', start);
    Some(Word { start, end })
}
