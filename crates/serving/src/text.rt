//! Room for the text of a reply.

ghost use Rattle.std.specs.Prelude.{◌≡◌, ◌≤◌, ◌<◌, ◌+◌, ◌++◌, [], length, vec_capacity, vec_len, IfOk};
ghost use Rattle.serving.specs.Texts.{Gathers};

use inner_interpreter::{EndFault, Output};
use memory::OutOfMemory;
use std::alloc::Global;
use std::marker::Model;

/// The most bytes that a text of a reply has: 38 for each of 32,768 headers, so that all of them fit with their names.
pub const TEXT_ROOM: usize = 1245184;

/// Room for a text: it takes bytes up to TEXT_ROOM, and then fails.
#[derive(Drop)]
pub struct Text {
    bytes: Vec<u8>,
    has_failed: bool,
}

impl Model for Text {
    ghost use Rattle.std.specs.Prelude.{◌≡◌, ◌≤◌, true, length, vec_capacity};
    ghost use Rattle.serving.specs.Texts.{Gathered};
    ghost use Rattle.serving.specs.declared.text.TheConstants.{TEXT_ROOM};

    ghost Value = { Gathered };

    ghost view = { λ t. record { bytes = t.bytes.items; failed = t.has_failed } };

    ghost invariant = { λ t. (TEXT_ROOM ≤ vec_capacity t.bytes) × (length t.bytes.items ≤ TEXT_ROOM)
        × (t.has_failed ≡ true → length t.bytes.items ≡ TEXT_ROOM) };
}

/// Adds bytes for which there is room.
fn add(bytes: &mut Vec<u8>, part: &[u8])
    requires capacity { 1245184 ≤ vec_capacity bytes.old }
    requires room { vec_len bytes.old + length part.now ≤ 1245184 }
    ensures bytes { bytes.new.items ≡ bytes.old.items ++ part.now }
    ensures capacity { 1245184 ≤ vec_capacity bytes.new }
{
    for byte in part {
        bytes.push(*byte).unwrap();
    }
}

impl Text {
    ghost use Rattle.std.specs.Prelude.{false, true};

    /// An empty text.
    pub fn new(alloc: Global) -> Result<Text, OutOfMemory>
        ensures { IfOk result (λ text. text ≡ record { bytes = []; failed = false }) }
    {
        match Vec::with_capacity(alloc, TEXT_ROOM) {
            Ok(bytes) => Ok(Text {
                bytes,
                has_failed: false,
            }),
            Err(_) => Err(OutOfMemory),
        }
    }

    /// Takes all bytes away.
    pub fn clear(&mut self)
        ensures { self.new ≡ record { bytes = []; failed = false } }
    {
        self.bytes.clear();
        self.has_failed = false;
    }

    /// The bytes.
    pub fn as_slice(&self) -> &[u8]
        ensures { result.now ≡ self.now.bytes }
    {
        self.bytes.as_slice()
    }

    /// A text has at most TEXT_ROOM bytes, and as many if more came.
    pub fn known(&self)
        ensures few { length self.now.bytes ≤ 1245184 }
        ensures full { self.now.failed ≡ true → length self.now.bytes ≡ 1245184 }
    {
        let _ = &self.bytes;
    }
}

impl Output for Text {
    ghost use Rattle.std.specs.Prelude.{Some, true};

    ghost sent = { λ t. Some t.bytes };

    ghost passed = { λ t. true };

    ghost failed = { λ t. t.failed };

    fn send(&mut self, bytes: &[u8]) -> Result<usize, EndFault> {
        let fits = (TEXT_ROOM - self.bytes.len()).min(bytes.len());
        if fits == 0 {
            self.has_failed = true;
            return Err(EndFault);
        }
        add(&mut self.bytes, &bytes[..fits]);
        Ok(fits)
    }

    fn flush(&mut self) -> Result<(), EndFault> {
        Ok(())
    }
}
