//! How a word is read, which the words before it decide.

ghost use Rattle.std.specs.Prelude.{◌≡◌, ◌&&◌};
ghost use Rattle.source_words.specs.Modes.{names_outside, names_in_body, takes_text, begins_body, ends_body, begins_comment, is_name_due, is_body, mode_after};

/// How the next word is read.
#[derive(Clone, Copy, Debug, PartialEq, Eq)]
pub enum Mode {
    /// Outside bodies, as what begins an item or goes on with it.
    Outside,
    /// As a name, outside bodies.
    NameOutside,
    /// As the name of a colon definition.
    NameOfBody,
    /// As a word of a body.
    Body,
    /// As a name, in a body.
    NameInBody,
}

/// Whether a name is due after this word outside bodies.
#[tactic(auto, unfolding(crate::specs::Modes::names_outside))]
fn names_outside(word: &[u8]) -> bool
    ensures { result ≡ names_outside word.now }
{
    word == b"PRIM".as_slice()
        || word == b"CONSTANT".as_slice()
        || word == b"VARIABLE".as_slice()
        || word == b"CREATE".as_slice()
        || word == b"VOCABULARY".as_slice()
        || word == b"BOOT".as_slice()
}

/// Whether a name is due after this word in a body.
#[tactic(auto, unfolding(crate::specs::Modes::names_in_body))]
fn names_in_body(word: &[u8]) -> bool
    ensures { result ≡ names_in_body word.now }
{
    word == b"[']".as_slice() || word == b"[COMPILE]".as_slice()
}

/// Whether a text belongs to this word in a body.
#[tactic(auto, unfolding(crate::specs::Modes::takes_text))]
fn takes_text(word: &[u8]) -> bool
    ensures { result ≡ takes_text word.now }
{
    word == b".\"".as_slice() || word == b"ABORT\"".as_slice()
}

/// Whether this word begins a colon definition.
#[tactic(auto, unfolding(crate::specs::Modes::begins_body))]
fn begins_body(word: &[u8]) -> bool
    ensures { result ≡ begins_body word.now }
{
    word == b":".as_slice()
}

/// Whether this word ends one.
#[tactic(auto, unfolding(crate::specs::Modes::ends_body))]
fn ends_body(word: &[u8]) -> bool
    ensures { result ≡ ends_body word.now }
{
    word == b";".as_slice()
}

/// Whether this word begins a comment, if no name is due.
#[tactic(auto, unfolding(crate::specs::Modes::begins_comment))]
pub fn begins_comment(word: &[u8]) -> bool
    ensures { result ≡ begins_comment word.now }
{
    word == b"(".as_slice()
}

impl Mode {
    /// Whether any word is a name here.
    pub fn is_name_due(self) -> bool
        ensures { result ≡ is_name_due self }
    {
        matches!(
            self,
            Mode::NameOutside | Mode::NameOfBody | Mode::NameInBody
        )
    }

    /// Whether words are those of a body, and no name is due.
    pub fn is_body(self) -> bool
        ensures { result ≡ is_body self }
    {
        matches!(self, Mode::Body)
    }

    /// Whether a text belongs to this word.
    pub fn has_text(self, word: &[u8]) -> bool
        ensures { result ≡ (is_body self && takes_text word.now) }
    {
        self.is_body() && takes_text(word)
    }

    /// How the word after this one is read.
    pub fn after(self, word: &[u8]) -> Mode
        ensures { result ≡ mode_after self word.now }
    {
        match self {
            Mode::Outside => {
                if begins_body(word) {
                    Mode::NameOfBody
                } else if names_outside(word) {
                    Mode::NameOutside
                } else {
                    Mode::Outside
                }
            }
            Mode::Body => {
                if ends_body(word) {
                    Mode::Outside
                } else if names_in_body(word) {
                    Mode::NameInBody
                } else {
                    Mode::Body
                }
            }
            Mode::NameOutside => Mode::Outside,
            Mode::NameOfBody | Mode::NameInBody => Mode::Body,
        }
    }
}
