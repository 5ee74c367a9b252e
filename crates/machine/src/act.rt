//! What a move shows and comes to, and what the world answers.

use machine_parts::parts::{Request, Span};
use thiserror::Error;

/// The bytes that a move shows.
#[derive(Clone, Copy, Debug, PartialEq, Eq)]
pub enum Shown {
    Nothing,
    Byte(u8),
    /// Bytes of memory, at least one.
    Span(Span),
    /// A line that a return ended: its bytes of memory, and then a blank.
    Line(Span),
}

/// Why a machine halted.
#[derive(Clone, Copy, Debug, PartialEq, Eq)]
pub enum Cause {
    Bye,
    InputEnded,
    InputFault,
    Fault(u16),
}

/// What a move came to.
#[derive(Clone, Copy, Debug, PartialEq, Eq)]
pub enum Event {
    /// The machine goes on.
    Went,
    /// It waits for an answer.
    Ask(Request),
    /// A fault that its fault thread handles.
    Fault(u16),
    /// It halted.
    Halt(Cause),
}

/// What a move showed, and what it came to.
#[derive(Clone, Copy, Debug, PartialEq, Eq)]
pub struct Act {
    pub shown: Shown,
    pub event: Event,
}

/// Ticks that were made in a row.
#[derive(Clone, Copy, Debug, PartialEq, Eq)]
pub struct Stretch {
    /// How many.
    pub count: u64,
    /// The last one's act.
    pub act: Act,
    /// `ip` before the last one.
    pub from: u16,
}

/// Why a move was refused. The machine is then as it was.
#[derive(Clone, Copy, Debug, PartialEq, Eq, Error)]
pub enum Refused {
    /// A tick while the machine waits for an answer.
    #[error("the machine waits for an answer")]
    Waiting,
    /// Any move of a machine that halted.
    #[error("the machine has halted")]
    Halted,
    /// An answer that the machine doesn't wait for.
    #[error("the machine doesn't wait for this answer")]
    NotAsked,
}

/// The answer to a request.
#[derive(Clone, Copy)]
pub enum Answer<'a> {
    /// The byte of a key.
    Key(u8),
    /// A line of typed bytes, and whether a return ended it.
    Line { bytes: &'a [u8], returned: bool },
    /// Nothing is typed any more.
    InputEnd,
    /// Typed bytes can't be read.
    InputFault,
    /// A block's bytes.
    ReadOk(&'a [u8; 1024]),
    ReadFault,
    WriteOk,
    WriteFault,
}
