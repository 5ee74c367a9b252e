//! Lists of words.

/// Words that a text leaves out, and why.
#[derive(Clone, Copy)]
pub struct LeftOut {
    pub why: &'static [u8],
    pub words: &'static [u8],
}

/// Whether a list, of words with blanks between them, has this word.
pub fn has(list: &[u8], word: &[u8]) -> bool {
    list.split(|byte| *byte == b' ').any(|one| one == word)
}
