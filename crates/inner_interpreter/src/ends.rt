//! The ends of a run: where typed bytes come from, and where shown bytes go.

ghost use Rattle.std.specs.Prelude.{◌≡◌, ◌<◌, ◌≤◌, ℕ, Bool, true, List, Option, length, IfOk, OnOk};

mod failing;

pub use failing::{FailingReader, FailingWriter};
use thiserror::Error;

/// A reader or a writer failed.
#[derive(Clone, Copy, Debug, PartialEq, Eq, Error)]
#[error("the reader or the writer failed")]
pub struct EndFault;

/// Gives bytes one at a time, and then says the end.
pub trait Input {
    ghost use Rattle.inner_interpreter.specs.Ends.{TakesByte, Marks};
    ghost use Rattle.inner_interpreter.specs.Reads.{Gives};

    /// The bytes that are left, if the reader reports them.
    ghost unread: { Self → Option (List ℕ) };

    /// What its calls gave so far: bytes, and ends.
    ghost reads: { Self → List (Option ℕ) };

    /// Whether a call has failed.
    ghost failed: { Self → Bool };

    /// The next byte, or `None` at the end.
    fn byte(&mut self) -> Result<Option<u8>, EndFault>
        ensures bytes { TakesByte (unread self.old) (unread self.new) result }
        ensures logged { Gives (reads self.old) (reads self.new) result }
        ensures mark { Marks (failed self.old) (failed self.new) result };
}

/// Takes bytes.
pub trait Output {
    ghost use Rattle.std.specs.Io.KnownBytes.{Keeps, WriteAppends};
    ghost use Rattle.inner_interpreter.specs.Ends.{Marks};

    /// The bytes that were taken, if the writer reports them.
    ghost sent: { Self → Option (List ℕ) };

    /// Whether all of them were passed on by a flush.
    ghost passed: { Self → Bool };

    /// Whether a call has failed.
    ghost failed: { Self → Bool };

    /// Takes some of the bytes, from the first one on, and answers how many.
    fn send(&mut self, bytes: &[u8]) -> Result<usize, EndFault>
        requires { 0 < length bytes.now }
        ensures some { IfOk result (λ count. 0 < count) }
        ensures bound { IfOk result (λ count. count ≤ length bytes.now) }
        ensures bytes { WriteAppends (sent self.old) (sent self.new) result bytes.now }
        ensures mark { Marks (failed self.old) (failed self.new) result };

    /// Passes on what was taken.
    fn flush(&mut self) -> Result<(), EndFault>
        ensures bytes { Keeps (sent self.old) (sent self.new) }
        ensures passed { OnOk result (passed self.new ≡ true) }
        ensures mark { Marks (failed self.old) (failed self.new) result };
}
