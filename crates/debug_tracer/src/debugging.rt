//! DEBUG.

ghost use Rattle.std.specs.Prelude.{◌≡◌, IfOk, IfErr, OnErr};
ghost use Rattle.debug_tracer.specs.Debugged.{IsFault, RunsDebugged, debugged};
ghost use Rattle.inner_interpreter.specs.Reports.{run_ends, writer_end};

use crate::fault::DebugFault;
use crate::word::word_of;
use block_buffers::Device;
use inner_interpreter::{Input, Machine, Output, Stop, run_traced};
use memory::OutOfMemory;
use std::alloc::Global;

/// Runs the machine as `run` does, and sends a line to `trace` before each tick whose token is taken through `ip` in the
/// thread of the word that `name` means, as this thread is at the start: where the token is, its name then (`?`
/// if it has none), the data stack and the return stack. A line that can't be sent stops the run before its tick.
///
/// `NotFound` and `ChainTooLong`: the search of the name, then the list of all headers, end so; `NotColon`: the word is no
/// colon definition; `OutOfMemory`. Then nothing was done.
#[tactic(auto, using(crate::proofs::Words::placeless))]
pub fn debug<R: Input, W: Output, D: Device, T: Output>(
    alloc: Global,
    machine: &mut Machine,
    name: &[u8],
    reader: &mut R,
    writer: &mut W,
    device: &mut D,
    trace: &mut T,
    limit: u64,
) -> Result<Stop, DebugFault>
    // A word is traced exactly if there is one to trace, memory aside; each refusal is the one that is written, and
    // nothing was done then.
    ensures debugged { IfOk result (λ stop. RunsDebugged name.now machine.old machine.new
        (run_ends R.Input W.Output D.Device reader.old writer.old device.old)
        (run_ends R.Input W.Output D.Device reader.new writer.new device.new)
        (writer_end T.Output trace.old) (writer_end T.Output trace.new) limit stop) }
    ensures refused { IfErr result (λ fault. IsFault (debugged machine.old.parts.memory name.now) fault) }
    ensures machine { OnErr result (machine.new ≡ machine.old) }
    ensures reader { OnErr result (reader.new ≡ reader.old) }
    ensures writer { OnErr result (writer.new ≡ writer.old) }
    ensures device { OnErr result (device.new ≡ device.old) }
    ensures trace { OnErr result (trace.new ≡ trace.old) }
{
    let word = match word_of(alloc, machine.memory(), name) {
        Ok(word) => word,
        Err(fault) => return Err(fault),
    };
    match run_traced(alloc, machine, reader, writer, device, &word, trace, limit) {
        Ok(stop) => Ok(stop),
        Err(OutOfMemory) => Err(DebugFault::OutOfMemory),
    }
}
