//! What is traced of a run.

use crate::ends::{EndFault, Output};
use machine::{Extent, LentMachine};

/// Writes a line before each tick whose token is taken through `ip` in an extent.
pub trait Tracer {
    ghost use Rattle.std.specs.Prelude.{◌≡◌, ℕ, List, OnOk, OnErr};
    ghost use Rattle.std.specs.Io.KnownBytes.{Appends};
    ghost use Rattle.machine_parts.specs.Whole.{Whole};
    ghost use Rattle.inner_interpreter.specs.Ends.{Marks};
    ghost use Rattle.inner_interpreter.specs.Sent.{AppendsPart};
    ghost use Rattle.machine.specs.declared.extent.Extent.{Extent as Addresses};

    /// The addresses of the tokens that are traced.
    ghost extent: { Self → Addresses };

    /// The line of a tick, by the machine's parts before it.
    ghost line: { Self → Whole → List ℕ };

    /// The addresses of the tokens that are traced.
    fn extent(&self) -> Extent
        ensures { result ≡ extent self.now };

    /// Sends the line of the tick that comes next.
    fn trace<T: Output>(&self, machine: &LentMachine, trace: &mut T) -> Result<(), EndFault>
        ensures ok { OnOk result (Appends (T.sent trace.old) (T.sent trace.new) (line self.now machine.now.parts)) }
        ensures err { OnErr result (AppendsPart (T.sent trace.old) (T.sent trace.new) (line self.now machine.now.parts)) }
        ensures mark { Marks (T.failed trace.old) (T.failed trace.new) result };
}

/// Traces nothing.
#[derive(Drop)]
pub struct Untraced;

impl Tracer for Untraced {
    ghost use Rattle.std.specs.Prelude.{[]};

    ghost extent = { λ _. record { from = 0; end = 0 } };

    ghost line = { λ _ s. [] };

    fn extent(&self) -> Extent {
        Extent { from: 0, end: 0 }
    }

    fn trace<T: Output>(&self, _machine: &LentMachine, _trace: &mut T) -> Result<(), EndFault> {
        Ok(())
    }
}

/// Where an untraced run would send its lines: it takes all, and says nothing.
#[derive(Drop)]
pub struct Nowhere;

impl Output for Nowhere {
    ghost use Rattle.std.specs.Prelude.{None, true, false};

    ghost sent = { λ _. None };

    ghost passed = { λ _. true };

    ghost failed = { λ _. false };

    fn send(&mut self, bytes: &[u8]) -> Result<usize, EndFault> {
        Ok(bytes.len())
    }

    fn flush(&mut self) -> Result<(), EndFault> {
        Ok(())
    }
}
