//! Room in which one word is shown.

ghost use Rattle.std.specs.Prelude.{◌≡◌, IfOk};
ghost use Rattle.see.specs.Rooms.{IsWordRoom};

use crate::thread_room::ThreadRoom;
use std::alloc::{AllocError, Global};

/// Room in which a word is shown, given its header.
#[derive(Drop)]
pub struct WordRoom {
    /// The most bytes that its thread may have.
    pub most: u16,
    /// The runtime cells.
    pub controls: Vec<u16>,
    /// The bytes of its thread.
    pub bytes: Vec<u8>,
    /// The words of its thread.
    pub thread: ThreadRoom,
    /// The name of a word that it calls.
    pub name: Vec<u8>,
    /// Its text.
    pub text: Vec<u8>,
}

impl WordRoom {
    /// Room for a thread of so many bytes.
    pub fn new(alloc: Global, most: u16) -> Result<WordRoom, AllocError>
        ensures room { IfOk result (λ room. IsWordRoom room) }
        ensures most { IfOk result (λ room. room.most ≡ most) }
    {
        let bytes = most as usize;
        Ok(WordRoom {
            most,
            controls: Vec::with_capacity(alloc, 28)?,
            bytes: Vec::with_capacity(alloc, bytes)?,
            thread: ThreadRoom::new(alloc, most)?,
            name: Vec::with_capacity(alloc, 31)?,
            text: Vec::with_capacity(alloc, 43 * bytes + 75)?,
        })
    }
}
