//! Names that were made, and searches of them.

ghost use Rattle.std.specs.Prelude.{◌≡◌, ◌<◌, ◌==◌, ◌&&◌, ◌%◌};
ghost use Rattle.std.specs.Option.{option_map};
ghost use Rattle.std.specs.Str.{bytes_eq};
ghost use Rattle.image_builder.specs.Names.{class_of, entry, stored, newest_first, within, newest_of, newest_link, found};

/// What a name stands for, beside its code.
#[derive(Clone, Copy, Debug, PartialEq, Eq)]
pub enum Sign {
    /// Nothing more.
    Plain,
    /// The primitive of this number.
    Control(u16),
    /// A vocabulary.
    Record,
}

/// What a header is of that has no body.
#[derive(Clone, Copy, Debug, PartialEq, Eq)]
pub enum Kind {
    /// CREATE's.
    Create,
    /// VARIABLE's.
    Variable,
    /// VOCABULARY's.
    Vocabulary,
    /// CONSTANT's, with its value.
    Constant(u16),
    /// PRIM's, with its number.
    Primitive(u16),
}

/// What leads up to a name.
#[derive(Clone, Copy, Debug, PartialEq, Eq)]
pub enum Lead {
    /// The words of an item that makes a header.
    Makes(Kind),
    /// `:`.
    Defines,
    /// BOOT.
    Starts,
}

/// A header that was made.
#[derive(Drop)]
pub struct Named {
    /// Its name.
    pub name: Vec<u8>,
    /// The vocabulary that it went in.
    pub vocabulary: u16,
    /// Its link field.
    pub link: u16,
    /// Whether it is immediate.
    pub immediate: bool,
    /// What it stands for.
    pub sign: Sign,
}

/// A header, with its name lent out.
#[derive(Clone, Copy)]
pub struct Entry<'a> {
    /// Its name.
    pub name: &'a [u8],
    /// The vocabulary that it went in.
    pub vocabulary: u16,
    /// Its link field.
    pub link: u16,
    /// Whether it is immediate.
    pub immediate: bool,
    /// What it stands for.
    pub sign: Sign,
}

/// A header as it is lent out.
pub fn lent(named: &Named) -> Entry<'_>
    ensures { entry result ≡ stored named.now }
{
    Entry {
        name: named.name.as_slice(),
        vocabulary: named.vocabulary,
        link: named.link,
        immediate: named.immediate,
        sign: named.sign,
    }
}

/// Whether this is a name of a vocabulary that is spelled so.
fn is_spelled(e: Entry, vocabulary: u16, name: &[u8]) -> bool
    ensures { result ≡ ((e.entry.vocabulary == vocabulary) && bytes_eq e.entry.name.now name.now) }
{
    e.vocabulary == vocabulary && e.name == name
}

/// The newest name of a vocabulary that is spelled so.
pub fn find_within<'a>(names: &'a [Named], vocabulary: u16, name: &[u8]) -> Option<Entry<'a>>
    ensures { option_map entry result ≡ within vocabulary name.now (newest_first names.now) }
{
    let mut i = names.len();
    while i > 0 {
        i -= 1;
        let e = lent(&names[i]);
        if is_spelled(e, vocabulary, name) {
            return Some(e);
        }
    }
    None
}

/// The class of a name: the chain of its vocabulary that it goes in.
pub fn class_of_name(name: &[u8]) -> u16
    ensures { result ≡ class_of name.now }
{
    match name {
        [] => 0,
        [b, ..] => u16::from(*b % 4),
    }
}

/// Whether this is a name of a vocabulary and class.
fn is_of_class(e: Entry, vocabulary: u16, class: u16) -> bool
    ensures { result ≡ ((e.entry.vocabulary == vocabulary) && (class_of e.entry.name.now == class)) }
{
    e.vocabulary == vocabulary && class_of_name(e.name) == class
}

/// The newest name of a vocabulary and class.
pub fn find_class<'a>(names: &'a [Named], vocabulary: u16, class: u16) -> Option<Entry<'a>>
    ensures { option_map entry result ≡ newest_of vocabulary class (newest_first names.now) }
{
    let mut i = names.len();
    while i > 0 {
        i -= 1;
        let e = lent(&names[i]);
        if is_of_class(e, vocabulary, class) {
            return Some(e);
        }
    }
    None
}

/// The head of a chain.
pub fn head_of(names: &[Named], vocabulary: u16, class: u16) -> u16
    ensures { result ≡ newest_link (newest_first names.now) vocabulary class }
{
    match find_class(names, vocabulary, class) {
        Some(e) => e.link,
        None => 0,
    }
}

/// The newest name in a vocabulary, else in FORTH.
pub fn find_name<'a>(names: &'a [Named], vocabulary: u16, name: &[u8]) -> Option<Entry<'a>>
    ensures { option_map entry result ≡ found vocabulary name.now (newest_first names.now) }
{
    match find_within(names, vocabulary, name) {
        Some(e) => Some(e),
        None => find_within(names, 42, name),
    }
}
