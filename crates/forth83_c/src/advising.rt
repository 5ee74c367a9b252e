//! What is said about a fault.

ghost use Rattle.std.specs.Prelude.{◌≡◌, ◌≢◌, ◌<◌, ◌≤◌, ◌⊎◌, length, drop};

use crate::showing::put;
use advice::AdviceRefused;
use std::alloc::Global;

/// Puts the answer to a case into `reply`, and how many bytes it has into `written`. With too little room, `written` says how much is needed. The answer
/// is a number of the header.
pub fn advise(alloc: Global, case: &[u8], reply: &mut [u8], written: &mut usize) -> u32
    // 0: the answer is at the front of the room; 2: out of memory; 3: it needs more room; 23: the bytes are no case.
    ensures known { (result ≡ 0) ⊎ ((result ≡ 2) ⊎ ((result ≡ 3) ⊎ (result ≡ 23))) }
    ensures fits { result ≡ 0 → written.new ≤ length reply.new }
    ensures beyond { result ≡ 0 → drop written.new reply.new ≡ drop written.new reply.old }
    ensures needs { result ≡ 3 → length reply.new < written.new }
    ensures stays { result ≢ 0 → reply.new ≡ reply.old }
{
    let answer = match advice::advise(alloc, case) {
        Ok(answer) => answer,
        Err(AdviceRefused::OutOfMemory) => return 2,
        Err(_) => return 23,
    };
    if reply.len() < answer.len() {
        *written = answer.len();
        return 3;
    }
    *written = put(reply, 0, answer.as_slice());
    0
}
