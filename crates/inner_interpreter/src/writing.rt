//! A writer of `std` as an end.

ghost use Rattle.std.specs.Prelude.{◌≡◌, [], Some, true, false};
ghost use Rattle.std.specs.Io.{WritesAtMost};
ghost use Rattle.std.specs.Io.KnownBytes.{Keeps, WriteAppends};

use crate::byte_log::ByteLog;
use crate::ends::{EndFault, Output};
use std::io::{ErrorKind, Write};

/// A writer of `std` as an `Output`. It reports its bytes if the writer does. A write that takes no byte fails.
#[derive(Drop)]
pub struct Writing<W: Write> {
    writer: W,
    has_failed: bool,
    log: ByteLog,
    ghost told: { log.tells ≡ true → W.contents writer ≡ Some log.bytes },
}

impl<W: Write> Writing<W> {
    /// The writer, of which no call has failed.
    pub fn new(writer: W) -> Writing<W>
        ensures bytes { ⟦<Writing<W> as Output>⟧.sent result ≡ Some [] }
        ensures mark { ⟦<Writing<W> as Output>⟧.failed result ≡ false }
    {
        Writing {
            writer,
            has_failed: false,
            log: ByteLog::new(),
        }
    }

    /// A writer that reports its bytes, of which it has none yet.
    pub fn telling(writer: W) -> Writing<W>
        requires { W.contents writer ≡ Some [] }
        ensures bytes { ⟦<Writing<W> as Output>⟧.sent result ≡ Some [] }
        ensures mark { ⟦<Writing<W> as Output>⟧.failed result ≡ false }
        ensures tells { result.log.tells ≡ true }
    {
        Writing {
            writer,
            has_failed: false,
            log: ByteLog::told(),
        }
    }

    /// What its calls took.
    pub fn log(&self) -> &ByteLog
        ensures bytes { ⟦<Writing<W> as Output>⟧.sent self.now ≡ Some result.now.bytes }
        ensures passed { ⟦<Writing<W> as Output>⟧.passed self.now ≡ result.now.passed }
    {
        &self.log
    }

    /// Whether a call has failed.
    pub fn has_failed(&self) -> bool
        ensures { result ≡ ⟦<Writing<W> as Output>⟧.failed self.now }
    {
        self.has_failed
    }

    /// The writer, with what it was sent.
    pub fn into_inner(self) -> W
        ensures { self.log.tells ≡ true → ⟦<Writing<W> as Output>⟧.sent self ≡ W.contents result }
    {
        self.writer
    }
}

impl<W: Write> Output for Writing<W> {
    ghost sent = { λ w. Some w.log.bytes };

    ghost passed = { λ w. w.log.passed };

    ghost failed = { λ w. w.has_failed };

    fn send(&mut self, bytes: &[u8]) -> Result<usize, EndFault> {
        match write_once(&mut self.writer, bytes) {
            Ok(count) => {
                if count == 0 {
                    self.has_failed = true;
                    return Err(EndFault);
                }
                self.log = ByteLog::grown(&self.log, &bytes[..count]);
                Ok(count)
            }
            Err(fault) => {
                self.has_failed = true;
                Err(fault)
            }
        }
    }

    fn flush(&mut self) -> Result<(), EndFault> {
        match flush_once(&mut self.writer) {
            Ok(()) => {
                self.log = ByteLog::flushed(&self.log);
                Ok(())
            }
            Err(fault) => {
                self.has_failed = true;
                Err(fault)
            }
        }
    }
}

/// One write, tried again if a signal interrupts it.
fn write_once<W: Write>(writer: &mut W, bytes: &[u8]) -> Result<usize, EndFault>
    ensures bound { WritesAtMost result bytes.now }
    ensures bytes { WriteAppends (W.contents writer.old) (W.contents writer.new) result bytes.now }
{
    for _ in 0..u64::MAX {
        match writer.write(bytes) {
            Ok(count) => return Ok(count),
            Err(error) => {
                if error.kind() != ErrorKind::Interrupted {
                    return Err(EndFault);
                }
            }
        }
    }
    Err(EndFault)
}

/// One flush, tried again if a signal interrupts it.
fn flush_once<W: Write>(writer: &mut W) -> Result<(), EndFault>
    ensures { Keeps (W.contents writer.old) (W.contents writer.new) }
{
    for _ in 0..u64::MAX {
        match writer.flush() {
            Ok(()) => return Ok(()),
            Err(error) => {
                if error.kind() != ErrorKind::Interrupted {
                    return Err(EndFault);
                }
            }
        }
    }
    Err(EndFault)
}
