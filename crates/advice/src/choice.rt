//! Which message a fault has.

ghost use Rattle.std.specs.Prelude.{◌≡◌};
ghost use Rattle.advice.specs.Choice.{choice};

/// The fault of a full dictionary.
pub const FULL: u16 = 8;

/// The fault of a word that is not found.
pub const UNKNOWN: u16 = 13;

/// The fault of a name or a text that is missing.
pub const MISSING: u16 = 15;

/// What is known when a fault happens.
#[derive(Clone, Copy)]
pub struct Known {
    /// Some word has the name that is not found.
    pub is_name: bool,
    /// A dialect hides a tool of that name.
    pub is_hidden: bool,
    /// A dialect is loaded.
    pub has_dialect: bool,
    /// A text follows without its quote.
    pub is_open_text: bool,
    /// The word is a number that a cell has no room for.
    pub is_too_large: bool,
    /// The word, or the one that follows, is longer than a name.
    pub is_too_long: bool,
    /// A word follows.
    pub has_next: bool,
}

/// The messages.
#[derive(Clone, Copy, Debug, PartialEq, Eq, Drop)]
pub enum Message {
    /// A dialect hides the tool of that name.
    Hidden,
    /// A number is too large.
    Large,
    /// The word cannot be found from here.
    Elsewhere,
    /// No word has the name.
    Unknown,
    /// How many bytes are left.
    Full,
    /// A text has no closing quote.
    Unquoted,
    /// A name is too long.
    Long,
    /// A name or a text must follow.
    Follows,
    /// What the fault's number means.
    Plain,
}

/// The message of a word that is not found.
fn choose_unknown(known: Known) -> Message
    ensures { result ≡ choice 13 known }
{
    if known.is_hidden {
        Message::Hidden
    } else if known.is_name {
        Message::Elsewhere
    } else if known.is_too_large && !known.has_dialect {
        Message::Large
    } else {
        Message::Unknown
    }
}

/// The message of a name or a text that is missing or too long.
fn choose_missing(known: Known) -> Message
    ensures { result ≡ choice 15 known }
{
    if known.is_open_text {
        Message::Unquoted
    } else if known.is_too_long {
        Message::Long
    } else if known.has_next {
        Message::Plain
    } else {
        Message::Follows
    }
}

/// The message of a fault.
pub fn choose(fault: u16, known: Known) -> Message
    ensures { result ≡ choice fault known }
{
    match fault {
        FULL => Message::Full,
        UNKNOWN => choose_unknown(known),
        MISSING => choose_missing(known),
        _ => Message::Plain,
    }
}
