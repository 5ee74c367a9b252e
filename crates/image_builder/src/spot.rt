//! Words of a source, with what each may be.

use colon_bodies::BodyWord;

/// What a word is outside bodies, by its spelling.
#[derive(Clone, Copy, Debug, PartialEq, Eq)]
pub enum Sort {
    /// None of the others: it may be a vocabulary's name.
    Other,
    /// A number.
    Number(u16),
    /// A double number.
    Double,
    /// PRIM.
    Prim,
    /// CONSTANT.
    Constant,
    /// VARIABLE.
    Variable,
    /// CREATE.
    Create,
    /// VOCABULARY.
    Vocabulary,
    /// `,`.
    Comma,
    /// `C,`.
    CharComma,
    /// ALLOT.
    Allot,
    /// `:`.
    Colon,
    /// IMMEDIATE.
    Immediate,
    /// DEFINITIONS.
    Definitions,
    /// BOOT.
    Boot,
}

/// What a word is in a body if it is no name, by its spelling.
#[derive(Clone, Copy, Debug, PartialEq, Eq)]
pub enum Inner<'a> {
    /// None of the others.
    Other,
    /// A keyword, with its text.
    Keyword(BodyWord<'a>),
    /// A number.
    Number(u16),
    /// A double number.
    Double(u32),
    /// The word that begins a comment.
    Paren,
}

/// A word of a source.
#[derive(Clone, Copy, Debug, PartialEq, Eq)]
pub struct Spot<'a> {
    /// Its screen.
    pub screen: u16,
    /// Its place there.
    pub offset: u16,
    /// Its bytes.
    pub name: &'a [u8],
    /// What it is outside bodies.
    pub sort: Sort,
    /// What it is in a body if it is no name.
    pub inner: Inner<'a>,
}
