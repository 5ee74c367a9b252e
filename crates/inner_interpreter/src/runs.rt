//! The run of a machine over memory that is lent, with its ends: a reader, a writer and a device.

ghost use Rattle.std.specs.Prelude.{◌≡◌, ◌≤◌, false, true, vec_capacity, IfOk, OnOk, OnErr};
ghost use Rattle.std.specs.Io.KnownBytes.{Appends, Keeps};
ghost use Rattle.inner_interpreter.specs.Ends.{Marks};
ghost use Rattle.inner_interpreter.specs.Reports.{run_ends, writer_end};
ghost use Rattle.inner_interpreter.specs.Runs.{stop_of};
ghost use Rattle.inner_interpreter.specs.RunsTo.{RunsTraced};
ghost use Rattle.inner_interpreter.specs.Sent.{AppendsPart};
ghost use Rattle.inner_interpreter.specs.Tracing.{line_next, IsDue, Finishes};

use crate::ends::{EndFault, Input, Output};
use crate::rounds::{Failed, make_rounds};
use crate::stop::Stop;
use crate::tracing::Tracer;
use block_buffers::Device;
use machine::{Cause, LentMachine};
use memory::OutOfMemory;
use std::alloc::Global;

/// How many bytes a line may have.
const LINE_SIZE: usize = 65535;

fn stop_by_cause(cause: Cause) -> Stop
    ensures { result ≡ stop_of cause }
{
    match cause {
        Cause::Bye => Stop::Bye,
        Cause::InputEnded => Stop::InputEnded,
        Cause::InputFault => Stop::InputFault,
        Cause::Fault(f) => Stop::Fault(f),
    }
}

/// Flushes at the end.
fn finish<W: Output, T: Output>(writer: &mut W, trace: &mut T, stop: Stop) -> Stop
    ensures bytes { Keeps (W.sent writer.old) (W.sent writer.new) }
    ensures lines { Keeps (T.sent trace.old) (T.sent trace.new) }
    ensures passed { W.failed writer.new ≡ false → W.passed writer.new ≡ true }
    ensures traced { W.failed writer.new ≡ false → T.failed trace.new ≡ false → T.passed trace.new ≡ true }
    ensures done { Finishes result stop (W.failed writer.old) (W.failed writer.new) (T.failed trace.old)
        (T.failed trace.new) }
{
    if writer.flush().is_err() {
        return Stop::OutputFault;
    }
    match trace.flush() {
        Ok(()) => stop,
        Err(_) => Stop::TraceFault,
    }
}

/// Sends the line of the tick that comes next, if its token is one of those that are traced.
fn send_line<N: Tracer, T: Output>(
    machine: &LentMachine,
    tracer: &N,
    trace: &mut T,
) -> Result<(), EndFault>
    ensures ok { OnOk result (Appends (T.sent trace.old) (T.sent trace.new)
        (line_next (N.extent tracer.now) (N.line tracer.now) machine.now)) }
    ensures err { OnErr result (AppendsPart (T.sent trace.old) (T.sent trace.new)
        (line_next (N.extent tracer.now) (N.line tracer.now) machine.now)) }
    ensures due { OnErr result (IsDue (N.extent tracer.now) machine.now) }
    ensures mark { Marks (T.failed trace.old) (T.failed trace.new) result }
{
    if machine.asked().is_none() && machine.is_met(tracer.extent()) {
        return tracer.trace(machine, trace);
    }
    Ok(())
}

/// Room for a line that is typed.
pub fn line_room(alloc: Global) -> Result<Vec<u8>, OutOfMemory>
    ensures { IfOk result (λ line. 65535 ≤ vec_capacity line) }
{
    Vec::with_capacity(alloc, LINE_SIZE).map_err(|_| OutOfMemory)
}

/// Runs the machine of a host as [`crate::run_traced`] does, by room for a line.
pub fn run_with<R: Input, W: Output, D: Device, N: Tracer, T: Output>(
    line: &mut Vec<u8>,
    machine: &mut LentMachine,
    reader: &mut R,
    writer: &mut W,
    device: &mut D,
    tracer: &N,
    trace: &mut T,
    limit: u64,
) -> Stop
    requires room { 65535 ≤ vec_capacity line.old }
    ensures room { 65535 ≤ vec_capacity line.new }
    ensures runs { RunsTraced (N.extent tracer.now) (N.line tracer.now) machine.old machine.new
        (run_ends R.Input W.Output D.Device reader.old writer.old device.old)
        (run_ends R.Input W.Output D.Device reader.new writer.new device.new)
        (writer_end T.Output trace.old) (writer_end T.Output trace.new) limit result }
{
    let mut left = limit;
    loop {
        if let Some(cause) = machine.halted() {
            return finish(writer, trace, stop_by_cause(cause));
        }
        if left == 0 {
            return finish(writer, trace, Stop::Limit);
        }
        match send_line(machine, tracer, trace) {
            Ok(()) => {}
            Err(_) => return Stop::TraceFault,
        }
        let extent = tracer.extent();
        match make_rounds(line, machine, reader, writer, device, extent, &mut left) {
            Ok(()) => {}
            Err(Failed::Reader) => return Stop::InputFault,
            Err(Failed::Writer) => return Stop::OutputFault,
        }
    }
}
