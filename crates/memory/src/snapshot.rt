//! Memory as it was.

ghost use Rattle.std.specs.Prelude.{◌≡◌};
ghost use Rattle.memory.specs.Bytes.{byte, cell};
ghost use Rattle.memory.specs.Mirrored.{front};

use crate::access::{byte_at, cell_at};
use std::marker::Model;

/// A copy of memory, for calls that read all before they write.
#[derive(Drop)]
pub struct Snapshot {
    bytes: [u8; 65552],
}

impl Model for Snapshot {
    ghost use Rattle.std.specs.Prelude.{List, ℕ};
    ghost use Rattle.memory.specs.Mirrored.{front};

    ghost Value = { List ℕ };

    ghost view = { λ s. front s.bytes };
}

impl Snapshot {
    /// The copy of memory.
    pub fn of(bytes: &[u8; 65552]) -> Snapshot
        ensures { result ≡ front bytes.now }
    {
        Snapshot { bytes: *bytes }
    }

    /// The byte at `at`.
    pub fn byte(&self, at: u16) -> u8
        ensures { result ≡ byte self.now at }
    {
        byte_at(&self.bytes, at)
    }

    /// The cell at `at`.
    pub fn cell(&self, at: u16) -> u16
        ensures { result ≡ cell self.now at }
    {
        cell_at(&self.bytes, at)
    }
}
