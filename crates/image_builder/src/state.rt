//! What is kept of a source that was read in part: no bytes of its screens.

use crate::entry::{Lead, Named};
use colon_bodies::Draft;
use std::alloc::Global;

/// What was built so far.
#[derive(Drop)]
pub struct Build {
    /// Where memory is taken.
    pub alloc: Global,
    /// Where the block buffers begin: the image ends there at the latest.
    pub limit: u16,
    /// The bytes of memory from 256 on.
    pub image: Vec<u8>,
    /// The names, the newest last.
    pub names: Vec<Named>,
    /// The compilation address of each control, 0 if it has no name.
    pub runtime: Vec<u16>,
    /// The vocabulary that later headers go in.
    pub current: u16,
    /// The newest record of a vocabulary.
    pub newest_record: u16,
    /// The compilation address of the word to begin with.
    pub boot: Option<u16>,
    /// The definition that is read in part.
    pub draft: Draft,
}

/// Where a word is.
#[derive(Clone, Copy, Debug, PartialEq, Eq)]
pub struct Site {
    /// Its screen.
    pub screen: u16,
    /// Its place there.
    pub offset: u16,
}

/// The name of a definition that is read in part.
#[derive(Drop)]
pub struct Title {
    /// Its screen.
    pub screen: u16,
    /// Its bytes.
    pub name: Vec<u8>,
}

/// What is started of an item.
#[derive(Drop)]
pub enum Begun {
    /// Nothing.
    Whole,
    /// A number, and where it is.
    Counted(u16, Site),
    /// What leads up to a name.
    Due(Lead),
    /// The record of a vocabulary that was named.
    Chosen(u16),
    /// A definition.
    Inside(Title),
}
