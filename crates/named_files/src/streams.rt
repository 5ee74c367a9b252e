//! The standard streams and the file of a trace, with what is gathered before it is written.

ghost use Rattle.std.specs.Prelude.{◌≡◌, ◌<◌, [], Some, false, IfErr, IfOk};

use crate::refusals::{cannot_open, out_of_memory};
use file_access::TraceFile;
use inner_interpreter::{Input, Output, Reading, Writing};
use std::io::{BufReader, BufWriter, IsTerminal, Stdin, Stdout};
use std::os::fd::AsFd;

/// How many bytes that are shown are gathered before they are written into a file or a pipe.
const GATHERED_BYTES: usize = 8192;

/// Whether standard output can't be written at all.
fn is_closed(rt: &HostRuntime) -> bool {
    rt.stdout().as_fd().try_clone_to_owned().is_err()
}

/// Standard output. What a terminal is shown is written at once, so that a run can be watched, and stopped at any time;
/// if it is closed, that too is seen at once. Lack of memory is printed, and the status is the error.
pub fn standard_output(rt: &HostRuntime) -> Result<Writing<BufWriter<Stdout>>, u8>
    ensures fresh { IfOk result (λ writer. (⟦<Writing<BufWriter<Stdout>> as Output>⟧.sent writer ≡ Some [])
        × (⟦<Writing<BufWriter<Stdout>> as Output>⟧.failed writer ≡ false)) }
    ensures refused { IfErr result (λ status. 0 < status) }
{
    let gathered = if rt.stdout().is_terminal() || is_closed(rt) {
        0
    } else {
        GATHERED_BYTES
    };
    match BufWriter::with_capacity(rt.alloc(), gathered, rt.stdout()) {
        Ok(writer) => Ok(Writing::new(writer)),
        Err(_) => Err(out_of_memory(rt)),
    }
}

/// Standard input. Lack of memory is printed, and the status is the error.
pub fn standard_input(rt: &HostRuntime) -> Result<Reading<BufReader<Stdin>>, u8>
    ensures fresh { IfOk result (λ keys. (⟦<Reading<BufReader<Stdin>> as Input>⟧.reads keys ≡ [])
        × (⟦<Reading<BufReader<Stdin>> as Input>⟧.failed keys ≡ false)) }
    ensures refused { IfErr result (λ status. 0 < status) }
{
    match BufReader::new(rt.alloc(), rt.stdin()) {
        Ok(reader) => Ok(Reading::new(reader)),
        Err(_) => Err(out_of_memory(rt)),
    }
}

/// The file of a trace, which is emptied when the run begins. What a terminal is shown is written at once. Where the file
/// can't be opened that is printed, and the status is the error.
pub fn trace_file(rt: &HostRuntime, name: &str) -> Result<Writing<BufWriter<TraceFile>>, u8>
    ensures empty { IfOk result (λ trace. (⟦<Writing<BufWriter<TraceFile>> as Output>⟧.sent trace ≡ Some [])
        × (⟦<Writing<BufWriter<TraceFile>> as Output>⟧.failed trace ≡ false)) }
    ensures refused { IfErr result (λ status. 0 < status) }
{
    let Ok(file) = TraceFile::open(rt, name) else {
        return Err(cannot_open(rt, name));
    };
    let gathered = if file.is_terminal() {
        0
    } else {
        GATHERED_BYTES
    };
    match BufWriter::with_capacity(rt.alloc(), gathered, file) {
        Ok(writer) => Ok(Writing::new(writer)),
        Err(_) => Err(out_of_memory(rt)),
    }
}
