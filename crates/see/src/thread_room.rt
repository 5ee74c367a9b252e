//! Room in which the words of a thread are found.

ghost use Rattle.std.specs.Prelude.{IfOk};
ghost use Rattle.see.specs.Rooms.{IsRoomFor};

use crate::parts::Part;
use crate::structures::Frame;
use colon_bodies::Draft;
use std::alloc::{AllocError, Global};

/// Room in which the words of a thread are found.
#[derive(Drop)]
pub struct ThreadRoom {
    /// The words without their BEGINs.
    pub words: Vec<Part>,
    /// How many BEGINs belong at each place.
    pub begins: Vec<usize>,
    /// The structures that are open.
    pub frames: Vec<Frame>,
    /// All words.
    pub whole: Vec<Part>,
    /// What they compile to.
    pub draft: Draft,
}

impl ThreadRoom {
    /// Room for the words of a thread of so many bytes.
    pub fn new(alloc: Global, most: u16) -> Result<ThreadRoom, AllocError>
        ensures { IfOk result (λ room. IsRoomFor most room) }
    {
        let most = most as usize;
        Ok(ThreadRoom {
            words: Vec::with_capacity(alloc, most + 2)?,
            begins: Vec::with_capacity(alloc, most)?,
            frames: Vec::with_capacity(alloc, most + 1)?,
            whole: Vec::with_capacity(alloc, most + 1)?,
            draft: Draft::with_room(alloc, most, 64)?,
        })
    }
}
