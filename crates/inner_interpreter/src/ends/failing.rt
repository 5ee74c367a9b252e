//! Ends that fail, to try with them what a host does if an end fails. They take no memory.

ghost use Rattle.std.specs.Prelude.{◌≡◌, ◌≤◌, ◌<◌, ◌+◌, ◌-◌, ◌++◌, ◌∷◌, ◌↔◌, ◌≢◌, [], Some, length, min, true, false, IsOk, IfOk, OnOk};
ghost use Rattle.std.specs.Io.KnownBytes.{Keeps, WriteAppends};
ghost use Rattle.inner_interpreter.specs.Ends.{TakesByte, Marks};

use crate::ends::{EndFault, Input, Output};
use crate::read_log::{Given, ReadLog};
use std::marker::Model;

/// Up to 256 bytes.
#[derive(Drop)]
struct Kept {
    bytes: [u8; 256],
    count: usize,
}

impl Model for Kept {
    ghost use Rattle.std.specs.Prelude.{List, ℕ, take, ◌≤◌};

    ghost Value = { List ℕ };

    ghost view = { λ k. take k.count k.bytes };

    ghost invariant = { λ k. k.count ≤ 256 };
}

impl Kept {
    fn new() -> Kept
        ensures { result ≡ [] }
    {
        Kept {
            bytes: [0; 256],
            count: 0,
        }
    }

    fn count(&self) -> usize
        ensures count { result ≡ length self.now }
        ensures bound { result ≤ 256 }
    {
        self.count
    }

    fn push(&mut self, byte: u8)
        requires { length self.old < 256 }
        ensures { self.new ≡ self.old ++ byte ∷ [] }
    {
        self.bytes[self.count] = byte;
        self.count += 1;
    }

    fn extend(&mut self, part: &[u8])
        requires { length self.old + length part.now ≤ 256 }
        ensures { self.new ≡ self.old ++ part.now }
    {
        for byte in part {
            self.push(*byte);
        }
    }

    fn as_slice(&self) -> &[u8]
        ensures { result.now ≡ self.now }
    {
        &self.bytes[..self.count]
    }
}

/// Takes so many bytes in all, at most 256, and then fails at each call, a flush too. Of what a call hands it, it takes
/// as many as there is room for.
#[derive(Drop)]
pub struct FailingWriter {
    taken: Kept,
    room: usize,
    has_failed: bool,
}

impl Model for FailingWriter {
    ghost use Rattle.std.specs.Prelude.{◌≤◌, length};
    ghost use Rattle.inner_interpreter.specs.Ends.{Taker};

    ghost Value = { Taker };

    ghost view = { λ w. record { room = w.room; taken = w.taken; failed = w.has_failed } };

    ghost invariant = { λ w. (length w.taken ≤ w.room) × (w.room ≤ 256) };
}

impl FailingWriter {
    /// A writer that takes `k` bytes.
    pub fn new(k: usize) -> FailingWriter
        requires { k ≤ 256 }
        ensures room { result.room ≡ k }
        ensures taken { result.taken ≡ [] }
        ensures mark { result.failed ≡ false }
    {
        FailingWriter {
            taken: Kept::new(),
            room: k,
            has_failed: false,
        }
    }

    /// The bytes that were taken.
    pub fn written(&self) -> &[u8]
        ensures { result.now ≡ self.now.taken }
    {
        self.taken.as_slice()
    }
}

impl Output for FailingWriter {
    ghost sent = { λ w. Some w.taken };

    ghost passed = { λ _. true };

    ghost failed = { λ w. w.failed };

    fn send(&mut self, bytes: &[u8]) -> Result<usize, EndFault>
        requires { 0 < length bytes.now }
        ensures some { IfOk result (λ count. 0 < count) }
        ensures bound { IfOk result (λ count. count ≤ length bytes.now) }
        ensures bytes { WriteAppends (Some self.old.taken) (Some self.new.taken) result bytes.now }
        ensures mark { Marks self.old.failed self.new.failed result }
        ensures room { self.new.room ≡ self.old.room }
        ensures takes { IsOk result ↔ (length self.old.taken < self.old.room) }
        ensures fits { IfOk result (λ count. count ≡ min (self.old.room - length self.old.taken) (length bytes.now)) }
    {
        let fits = (self.room - self.taken.count()).min(bytes.len());
        if fits == 0 {
            self.has_failed = true;
            return Err(EndFault);
        }
        self.taken.extend(&bytes[..fits]);
        Ok(fits)
    }

    fn flush(&mut self) -> Result<(), EndFault>
        ensures bytes { Keeps (Some self.old.taken) (Some self.new.taken) }
        ensures passed { OnOk result (⟦<FailingWriter as Output>⟧.passed self.new ≡ true) }
        ensures mark { Marks self.old.failed self.new.failed result }
        ensures room { self.new.room ≡ self.old.room }
        ensures takes { IsOk result ↔ (length self.old.taken < self.old.room) }
    {
        if self.taken.count() < self.room {
            return Ok(());
        }
        self.has_failed = true;
        Err(EndFault)
    }
}

/// Gives one byte, and then fails at each call.
#[derive(Drop)]
pub struct FailingReader {
    first: Option<u8>,
    has_failed: bool,
    log: ReadLog,
}

impl FailingReader {
    /// A reader that gives this byte.
    pub fn new(byte: u8) -> FailingReader
        ensures byte { ⟦<FailingReader as Input>⟧.unread result ≡ Some (byte ∷ []) }
        ensures mark { ⟦<FailingReader as Input>⟧.failed result ≡ false }
    {
        FailingReader {
            first: Some(byte),
            has_failed: false,
            log: ReadLog::new(),
        }
    }
}

impl Input for FailingReader {
    ghost use Rattle.inner_interpreter.specs.Ends.{left_of};
    ghost use Rattle.inner_interpreter.specs.Reads.{Gives};

    ghost unread = { λ r. Some (left_of r.first) };

    ghost reads = { λ r. r.log.reads };

    ghost failed = { λ r. r.has_failed };

    fn byte(&mut self) -> Result<Option<u8>, EndFault>
        ensures bytes { TakesByte (⟦<FailingReader as Input>⟧.unread self.old)
            (⟦<FailingReader as Input>⟧.unread self.new) result }
        ensures logged { Gives (⟦<FailingReader as Input>⟧.reads self.old)
            (⟦<FailingReader as Input>⟧.reads self.new) result }
        ensures mark { Marks (⟦<FailingReader as Input>⟧.failed self.old)
            (⟦<FailingReader as Input>⟧.failed self.new) result }
        ensures gives { IsOk result ↔ (⟦<FailingReader as Input>⟧.unread self.old ≢ Some []) }
    {
        match self.first.take() {
            Some(byte) => {
                self.log = self.log.then(&Given::Byte(byte));
                Ok(Some(byte))
            }
            None => {
                self.has_failed = true;
                Err(EndFault)
            }
        }
    }
}
