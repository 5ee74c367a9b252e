//! The run of a machine over a reader, a writer and a device.

ghost use Rattle.std.specs.Prelude.{◌≡◌, ◌≤◌, vec_capacity, IfOk, OnErr};
ghost use Rattle.block_buffers.specs.Entries.{limit as limit_by};
ghost use Rattle.inner_interpreter.specs.Reports.{run_ends, writer_end};
ghost use Rattle.inner_interpreter.specs.RunsTo.{RunsTo, RunsTraced};
ghost use Rattle.inner_interpreter.specs.Tracing.{IsPlaceless};
ghost use Rattle.machine.specs.Registers.{state_of};
ghost use Rattle.memory.specs.Mirrored.{stored};
ghost use Rattle.name_index.specs.Index.{Holds};

use crate::ends::{Input, Output};
use crate::runs::{line_room, run_with};
use crate::stop::Stop;
use crate::tracing::{Nowhere, Tracer, Untraced};
use block_buffers::Device;
use machine::{Machine, Parted, Rest, over, part};
use memory::{Memory, OutOfMemory};
use name_index::NameIndex;
use std::alloc::Global;
use std::mem::replace;

/// What a run answers: memory comes back.
#[derive(Drop)]
struct Ran<'m> {
    memory: &'m mut Memory,
    stop: Stop,
}

/// A run with its trace of the machine of lent memory and all else, by room for a line.
fn run_by<'m, R: Input, W: Output, D: Device, N: Tracer, T: Output>(
    alloc: Global,
    line: &mut Vec<u8>,
    memory: &'m mut Memory,
    rest: &mut Rest,
    index: &mut NameIndex,
    reader: &mut R,
    writer: &mut W,
    device: &mut D,
    tracer: &N,
    trace: &mut T,
    limit: u64,
) -> Ran<'m>
    requires room { 65535 ≤ vec_capacity line.old }
    requires holds { Holds (limit_by rest.old.registers.buffers) index.old (stored memory.now) }
    requires placeless { IsPlaceless (N.line tracer.now) }
    ensures same { result.memory.ghost_name ≡ memory.entry.ghost_name }
    ensures holds { Holds (limit_by rest.new.registers.buffers) index.new (stored result.memory.now) }
    ensures runs { RunsTraced (N.extent tracer.now) (N.line tracer.now)
        (state_of (stored memory.entry.now) rest.old) (state_of (stored result.memory.now) rest.new)
        (run_ends R.Input W.Output D.Device reader.old writer.old device.old)
        (run_ends R.Input W.Output D.Device reader.new writer.new device.new)
        (writer_end T.Output trace.old) (writer_end T.Output trace.new) limit result.stop }
{
    let own = replace(rest, Rest::blank());
    let mut machine = over(memory, own, replace(index, NameIndex::new(alloc)));
    let stop = run_with(
        line,
        &mut machine,
        reader,
        writer,
        device,
        tracer,
        trace,
        limit,
    );
    let Parted {
        memory,
        rest: left,
        index: table,
    } = part(machine);
    *rest = left;
    *index = table;
    Ran { memory, stop }
}

/// The same, if memory is the caller's.
fn run_in<R: Input, W: Output, D: Device, N: Tracer, T: Output>(
    alloc: Global,
    line: &mut Vec<u8>,
    memory: &mut Memory,
    rest: &mut Rest,
    index: &mut NameIndex,
    reader: &mut R,
    writer: &mut W,
    device: &mut D,
    tracer: &N,
    trace: &mut T,
    limit: u64,
) -> Stop
    requires room { 65535 ≤ vec_capacity line.old }
    requires holds { Holds (limit_by rest.old.registers.buffers) index.old (stored memory.old) }
    requires placeless { IsPlaceless (N.line tracer.now) }
    ensures holds { Holds (limit_by rest.new.registers.buffers) index.new (stored memory.new) }
    ensures runs { RunsTraced (N.extent tracer.now) (N.line tracer.now)
        (state_of (stored memory.old) rest.old) (state_of (stored memory.new) rest.new)
        (run_ends R.Input W.Output D.Device reader.old writer.old device.old)
        (run_ends R.Input W.Output D.Device reader.new writer.new device.new)
        (writer_end T.Output trace.old) (writer_end T.Output trace.new) limit result }
{
    let ran = run_by(
        alloc, line, memory, rest, index, reader, writer, device, tracer, trace, limit,
    );
    ran.stop
}

/// Runs the machine as `run` does. Before each tick whose token is taken through `ip` in the tracer's extent, its line is
/// sent to `trace`, which is flushed at the end. A line that can't be sent stops the run before its tick.
pub fn run_traced<R: Input, W: Output, D: Device, N: Tracer, T: Output>(
    alloc: Global,
    machine: &mut Machine,
    reader: &mut R,
    writer: &mut W,
    device: &mut D,
    tracer: &N,
    trace: &mut T,
    limit: u64,
) -> Result<Stop, OutOfMemory>
    requires { IsPlaceless (N.line tracer.now) }
    ensures runs { IfOk result (λ stop.
        RunsTraced (N.extent tracer.now) (N.line tracer.now) machine.old machine.new
        (run_ends R.Input W.Output D.Device reader.old writer.old device.old)
        (run_ends R.Input W.Output D.Device reader.new writer.new device.new)
        (writer_end T.Output trace.old) (writer_end T.Output trace.new) limit stop) }

    // On lack of memory nothing was done.
    ensures machine { OnErr result (machine.new ≡ machine.old) }
    ensures reader { OnErr result (reader.new ≡ reader.old) }
    ensures writer { OnErr result (writer.new ≡ writer.old) }
    ensures device { OnErr result (device.new ≡ device.old) }
    ensures trace { OnErr result (trace.new ≡ trace.old) }
{
    let mut line = line_room(alloc)?;
    Ok(run_in(
        alloc,
        &mut line,
        &mut machine.memory,
        &mut machine.rest,
        &mut machine.index,
        reader,
        writer,
        device,
        tracer,
        trace,
        limit,
    ))
}

/// Runs the machine until it halts, `limit` ticks are done or an end fails, and answers why it stopped. All that the
/// machine shows is sent; what it asks is answered by the reader and the device. The writer is flushed before each
/// key or line is read, and at the end. A run may be made over an end that failed before. On lack of memory nothing was
/// done: the machine is unchanged, and no end nor the device was called.
pub fn run<R: Input, W: Output, D: Device>(
    alloc: Global,
    machine: &mut Machine,
    reader: &mut R,
    writer: &mut W,
    device: &mut D,
    limit: u64,
) -> Result<Stop, OutOfMemory>
    ensures runs { IfOk result (λ stop. RunsTo machine.old machine.new
        (run_ends R.Input W.Output D.Device reader.old writer.old device.old)
        (run_ends R.Input W.Output D.Device reader.new writer.new device.new) limit stop) }

    // On lack of memory nothing was done.
    ensures machine { OnErr result (machine.new ≡ machine.old) }
    ensures reader { OnErr result (reader.new ≡ reader.old) }
    ensures writer { OnErr result (writer.new ≡ writer.old) }
    ensures device { OnErr result (device.new ≡ device.old) }
{
    let stop = run_traced(
        alloc,
        machine,
        reader,
        writer,
        device,
        &Untraced,
        &mut Nowhere,
        limit,
    )?;
    Ok(stop)
}
