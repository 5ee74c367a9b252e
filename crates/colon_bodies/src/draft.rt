//! What the compiler keeps of a definition while it reads.

ghost use Rattle.std.specs.Prelude.{◌≡◌, ◌≤◌, IfOk, vec_capacity};
ghost use Rattle.colon_bodies.specs.Draft.{IsBlank};

use crate::words::Half;
use std::alloc::{AllocError, Global};

/// An open structure: the places in the draft's bytes of cells that wait for their addresses, and addresses to go back to.
#[derive(Clone, Copy, Debug, PartialEq, Eq)]
pub enum Mark {
    /// An IF, whose cell waits here.
    If(usize),
    /// An ELSE, whose cell waits here.
    Else(usize),
    /// A BEGIN at this address.
    Begin(u16),
    /// A BEGIN at this address, and its WHILE, whose cell waits here.
    While(u16, usize),
    /// A DO, whose cell waits here.
    Do(usize),
}

/// A definition that is read in part.
#[derive(Drop)]
pub struct Draft {
    /// Its bytes; cells that wait for an address are 0.
    pub image: Vec<u8>,
    /// Its open structures, the innermost last.
    pub marks: Vec<Mark>,
    /// What is half read.
    pub half: Half,
    /// Whether a DOES> was read.
    pub is_past: bool,
}

impl Draft {
    /// The draft of a definition of which nothing is read.
    pub fn new(alloc: Global) -> Draft
        ensures { IsBlank result }
    {
        Draft {
            image: Vec::new(alloc),
            marks: Vec::new(alloc),
            half: Half::Free,
            is_past: false,
        }
    }

    /// The same, with room for so many bytes and so many open structures.
    pub fn with_room(alloc: Global, bytes: usize, structures: usize) -> Result<Draft, AllocError>
        ensures blank { IfOk result (λ d. IsBlank d) }
        ensures room { IfOk result (λ d. (bytes ≤ vec_capacity d.image) × (structures ≤ vec_capacity d.marks)) }
    {
        Ok(Draft {
            image: Vec::with_capacity(alloc, bytes)?,
            marks: Vec::with_capacity(alloc, structures)?,
            half: Half::Free,
            is_past: false,
        })
    }

    /// Empties it; its room stays.
    pub fn clear(&mut self)
        ensures blank { IsBlank self.new }
        ensures room { (vec_capacity self.new.image ≡ vec_capacity self.old.image)
            × (vec_capacity self.new.marks ≡ vec_capacity self.old.marks) }
    {
        self.image.clear();
        self.marks.clear();
        self.half = Half::Free;
        self.is_past = false;
    }
}
