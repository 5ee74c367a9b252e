//! A reader of `std` as an end.

ghost use Rattle.std.specs.Prelude.{◌≡◌, [], false};
ghost use Rattle.std.specs.Io.{ReadsAtMost};
ghost use Rattle.std.specs.Io.KnownBytes.{ReadConsumes};

use crate::ends::{EndFault, Input};
use crate::read_log::{Given, ReadLog};
use std::io::{ErrorKind, Read};

/// A reader of `std` as an `Input`. It reports its bytes if the reader does.
#[derive(Drop)]
pub struct Reading<R> {
    reader: R,
    has_failed: bool,
    log: ReadLog,
}

impl<R: Read> Reading<R> {
    /// The reader, of which no call has failed.
    pub fn new(reader: R) -> Reading<R>
        ensures bytes { ⟦<Reading<R> as Input>⟧.unread result ≡ R.remaining reader }
        ensures uncalled { ⟦<Reading<R> as Input>⟧.reads result ≡ [] }
        ensures mark { ⟦<Reading<R> as Input>⟧.failed result ≡ false }
    {
        Reading {
            reader,
            has_failed: false,
            log: ReadLog::new(),
        }
    }

    /// What its calls gave.
    pub fn log(&self) -> &ReadLog
        ensures { result.now.reads ≡ ⟦<Reading<R> as Input>⟧.reads self.now }
    {
        &self.log
    }

    /// Whether a call has failed.
    pub fn has_failed(&self) -> bool
        ensures { result ≡ ⟦<Reading<R> as Input>⟧.failed self.now }
    {
        self.has_failed
    }
}

impl<R: Read> Input for Reading<R> {
    ghost unread = { λ r. R.remaining r.reader };

    ghost reads = { λ r. r.log.reads };

    ghost failed = { λ r. r.has_failed };

    fn byte(&mut self) -> Result<Option<u8>, EndFault> {
        let mut byte = [0u8; 1];
        match read_once(&mut self.reader, &mut byte) {
            Ok(0) => {
                self.log = self.log.then(&Given::End);
                Ok(None)
            }
            Ok(_) => {
                self.log = self.log.then(&Given::Byte(byte[0]));
                Ok(Some(byte[0]))
            }
            Err(fault) => {
                self.has_failed = true;
                Err(fault)
            }
        }
    }
}

/// One read, tried again if a signal interrupts it.
fn read_once<R: Read>(reader: &mut R, bytes: &mut [u8]) -> Result<usize, EndFault>
    ensures bound { ReadsAtMost result bytes.new }
    ensures bytes { ReadConsumes (R.remaining reader.old) (R.remaining reader.new) result bytes.new }
{
    for _ in 0..u64::MAX {
        match reader.read(bytes) {
            Ok(count) => return Ok(count),
            Err(error) => {
                if error.kind() != ErrorKind::Interrupted {
                    return Err(EndFault);
                }
            }
        }
    }
    Err(EndFault)
}
