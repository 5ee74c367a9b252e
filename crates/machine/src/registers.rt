//! What a machine has beside memory and its device, and the numbers that say it.

ghost use Rattle.std.specs.Prelude.{◌≡◌, ◌≤◌};
ghost use Rattle.machine.specs.Registers.{halt_numbers, halt_of, mark, marked, wait_numbers, wait_of};

use crate::act::Cause;
use block_buffers::buffers::Buffers;
use machine_parts::parts::Request;
use stacks::Stack;

/// What a machine has beside memory and its device.
#[derive(Drop)]
pub struct Registers {
    pub values: Stack,
    pub returns: Stack,
    pub ip: u16,
    pub pending: Option<u16>,
    pub buffers: Buffers,
    /// The request that waits, with the token that asked.
    pub wait: Option<(Request, u16)>,
    /// Why the machine halted.
    pub halt: Option<Cause>,
}

/// A number that exists if its mark is 1.
pub fn marked(has: u16, x: u16) -> Option<u16>
    ensures { result ≡ marked has x }
{
    if has == 1 { Some(x) } else { None }
}

/// The mark and the number of what may exist.
pub fn mark(x: Option<u16>) -> (u16, u16)
    ensures numbers { result ≡ mark x }
    ensures value { marked result.0 result.1 ≡ x }
    ensures most { result.0 ≤ 1 }
{
    match x {
        None => (0, 0),
        Some(x) => (1, x),
    }
}

/// The request that waits, with its token, by their numbers.
pub fn wait_of(asks: u16, asked: u16, token: u16) -> Option<(Request, u16)>
    ensures { result ≡ wait_of asks asked token }
{
    match asks {
        1 => Some((Request::Key, token)),
        2 => Some((Request::Line { n: asked }, token)),
        3 => Some((Request::Read { block: asked }, token)),
        4 => Some((Request::Write { block: asked }, token)),
        _ => None,
    }
}

/// The numbers of a request that waits.
pub fn wait_numbers(wait: Option<(Request, u16)>) -> (u16, u16, u16)
    ensures numbers { result ≡ wait_numbers wait }
    ensures wait { wait_of result.0 result.1 result.2 ≡ wait }
    ensures most { result.0 ≤ 4 }
{
    match wait {
        None => (0, 0, 0),
        Some((Request::Key, token)) => (1, 0, token),
        Some((Request::Line { n }, token)) => (2, n, token),
        Some((Request::Read { block }, token)) => (3, block, token),
        Some((Request::Write { block }, token)) => (4, block, token),
    }
}

/// Why a machine halted, by its numbers.
pub fn halt_of(halts: u16, fault: u16) -> Option<Cause>
    ensures { result ≡ halt_of halts fault }
{
    match halts {
        1 => Some(Cause::Bye),
        2 => Some(Cause::InputEnded),
        3 => Some(Cause::InputFault),
        4 => Some(Cause::Fault(fault)),
        _ => None,
    }
}

/// The numbers of why a machine halted.
pub fn halt_numbers(halt: Option<Cause>) -> (u16, u16)
    ensures numbers { result ≡ halt_numbers halt }
    ensures halt { halt_of result.0 result.1 ≡ halt }
    ensures most { result.0 ≤ 4 }
{
    match halt {
        None => (0, 0),
        Some(Cause::Bye) => (1, 0),
        Some(Cause::InputEnded) => (2, 0),
        Some(Cause::InputFault) => (3, 0),
        Some(Cause::Fault(fault)) => (4, fault),
    }
}
