//! A copy of a name that memory has in two pieces.

ghost use Rattle.std.specs.Prelude.{◌≡◌, ◌≤◌, ◌+◌, ◌++◌, ◌<◌, ◌∷◌, [], length, take};

use std::marker::Model;

/// The first bytes of a name, at most 32. It serves names that go on at address 0 past memory's end. No header's name has
/// more than 31 bytes, so a longer name is sought as its first 32 bytes are.
#[derive(Drop)]
pub struct Text {
    bytes: [u8; 32],
    len: usize,
}

impl Model for Text {
    ghost use Rattle.std.specs.Prelude.{List, ℕ, take, ◌≤◌};

    ghost Value = { List ℕ };

    ghost view = { λ t. take t.len t.bytes };

    ghost invariant = { λ t. t.len ≤ 32 };
}

impl Text {
    /// The first 32 bytes of the two pieces, joined.
    #[tactic(auto, using(crate::proofs::Pieces::first_joined))]
    pub fn joined(head: &[u8], tail: &[u8]) -> Text
        ensures { result ≡ take 32 (head.now ++ tail.now) }
    {
        let front = head.len().min(32);
        let back = tail.len().min(32 - front);
        let mut text = Text::new();
        text.extend(&head[..front]);
        text.extend(&tail[..back]);
        text
    }

    fn new() -> Text
        ensures { result ≡ [] }
    {
        Text {
            bytes: [0; 32],
            len: 0,
        }
    }

    fn push(&mut self, byte: u8)
        requires { length self.old < 32 }
        ensures { self.new ≡ self.old ++ byte ∷ [] }
    {
        self.bytes[self.len] = byte;
        self.len += 1;
    }

    fn extend(&mut self, part: &[u8])
        requires { length self.old + length part.now ≤ 32 }
        ensures { self.new ≡ self.old ++ part.now }
    {
        for byte in part {
            self.push(*byte);
        }
    }

    /// The bytes.
    pub fn as_slice(&self) -> &[u8]
        ensures { result.now ≡ self.now }
    {
        &self.bytes[..self.len]
    }
}
