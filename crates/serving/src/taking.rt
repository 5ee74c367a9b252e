//! Frames of a reader.

ghost use Rattle.std.specs.Prelude.{◌≡◌, ◌≤◌, ◌<◌, ◌++◌, ℕ, List, Option, length, slice_index, vec_capacity, IfOk, OnErr};
ghost use Rattle.inner_interpreter.specs.Ends.{Marks};
ghost use Rattle.serving.specs.Requests.{cell_in};
ghost use Rattle.serving.specs.Taking.{AreTaken, IsCutTaken, IsTaken, MarksTaken};

use crate::requests::cell_in;
use inner_interpreter::{EndFault, Input};
use memory::OutOfMemory;
use std::alloc::Global;

/// What came of taking a frame.
#[derive(Clone, Copy, Debug, PartialEq, Eq)]
pub enum Taken {
    /// A frame of this kind.
    Frame(u8),
    /// The end, perhaps after a cut frame.
    End,
    /// The reader failed, perhaps after a cut frame.
    Failed,
}

/// The most bytes that the frame of a request has.
const MOST: usize = 65535;

/// Room for the frame of a request.
pub fn frame_room(alloc: Global) -> Result<Vec<u8>, OutOfMemory>
    ensures { IfOk result (λ room. 65535 ≤ vec_capacity room) }
{
    Vec::with_capacity(alloc, MOST).map_err(|_| OutOfMemory)
}

/// Takes so many bytes, and answers whether there were as many.
fn take_bytes<R: Input>(bytes: &mut Vec<u8>, reader: &mut R, n: u16) -> Result<bool, EndFault>
    requires { 65535 ≤ vec_capacity bytes.old }
    ensures taken { IfOk result (λ whole. AreTaken n bytes.new.items whole (R.reads reader.old) (R.reads reader.new)) }
    ensures failed { OnErr result (IsCutTaken n bytes.new.items (R.reads reader.old) (R.reads reader.new)) }
    ensures mark { Marks (R.failed reader.old) (R.failed reader.new) result }
    ensures room { 65535 ≤ vec_capacity bytes.new }
{
    bytes.clear();
    for _ in 0..n {
        match reader.byte() {
            Ok(Some(byte)) => bytes.push(byte).unwrap(),
            Ok(None) => return Ok(false),
            Err(fault) => return Err(fault),
        }
    }
    Ok(true)
}

/// The kind and the size that a frame's first three bytes say.
fn head_of(head: &[u8]) -> (u8, u16)
    requires { length head.now ≡ 3 }
    ensures kind { result.0 ≡ slice_index head.now 0 }
    ensures size { result.1 ≡ cell_in head.now 1 }
    ensures low { slice_index head.now 1 < 256 }
    ensures few { result.1 < 65536 }
{
    (head[0], cell_in(head, 1))
}

/// Takes a frame: its bytes are in `body`.
pub fn take_frame<R: Input>(body: &mut Vec<u8>, reader: &mut R) -> Taken
    requires { 65535 ≤ vec_capacity body.old }
    ensures taken { (given : List (Option ℕ)) × IsTaken result body.new.items given × (R.reads reader.new ≡ R.reads reader.old ++ given) }
    ensures mark { MarksTaken (R.failed reader.old) (R.failed reader.new) result }
    ensures room { 65535 ≤ vec_capacity body.new }
{
    match take_bytes(body, reader, 3) {
        Ok(true) => {}
        Ok(false) => return Taken::End,
        Err(_) => return Taken::Failed,
    }
    let (kind, size) = head_of(&body[..]);
    match take_bytes(body, reader, size) {
        Ok(true) => Taken::Frame(kind),
        Ok(false) => Taken::End,
        Err(_) => Taken::Failed,
    }
}
