//! What a call answers: done, or why it did nothing.

ghost use Rattle.std.specs.Prelude.{◌≡◌};
ghost use Rattle.forth83_c.specs.Called.{code_of, stop_code};

use crate::stop::Stop;

/// What a call answers: done, or why it did nothing.
#[derive(Clone, Copy, Debug, PartialEq, Eq)]
pub enum Status {
    Done,
    /// The record keeps no machine.
    NoMachine,
    /// There was no memory for the call.
    OutOfMemory,
    /// There is no room for a byte that is shown, or too little for a file.
    ShortRoom,
    /// No image: its file ends too soon.
    Truncated,
    /// No image: bytes follow its file.
    TrailingBytes,
    /// No image: the first bytes.
    BadMagic,
    /// No image: the version.
    BadVersion,
    /// No image: the number of buffers.
    BadBuffers,
    /// No image: the size; or HERE is none of an image to be saved.
    BadSize,
    /// The machine is halted.
    Halted,
    /// The machine waits for an answer.
    Waiting,
    /// The answer isn't one to what is asked.
    NotAsked,
    /// The page isn't of 1,024 bytes.
    BadPage,
    /// The stack is full, or empty.
    Stack,
    /// No word has the name.
    NotFound,
    /// The search for the name looks at no more headers of a chain, or memory has too many headers for a list of all.
    ChainTooLong,
    /// The word is no colon definition.
    NotColon,
    /// The word's thread is that of no text.
    NotStructured,
    /// The word has a token without a name that can be read.
    Nameless,
    /// A name in the word means another word, or a number is a name.
    Shadowed,
    /// A text in the word has a quote.
    BadText,
    /// The reply is longer than the room, which has its front; the request was obeyed.
    LongReply,
}

impl Status {
    /// Its number in the header.
    pub fn code(self) -> u32
        ensures { result ≡ code_of self }
    {
        match self {
            Status::Done => 0,
            Status::NoMachine => 1,
            Status::OutOfMemory => 2,
            Status::ShortRoom => 3,
            Status::Truncated => 4,
            Status::TrailingBytes => 5,
            Status::BadMagic => 6,
            Status::BadVersion => 7,
            Status::BadBuffers => 8,
            Status::BadSize => 9,
            Status::Halted => 10,
            Status::Waiting => 11,
            Status::NotAsked => 12,
            Status::BadPage => 13,
            Status::Stack => 14,
            Status::NotFound => 15,
            Status::ChainTooLong => 16,
            Status::NotColon => 17,
            Status::NotStructured => 18,
            Status::Nameless => 19,
            Status::Shadowed => 20,
            Status::BadText => 21,
            Status::LongReply => 22,
        }
    }
}

impl Stop {
    /// Its number in the header.
    pub fn code(self) -> u32
        ensures { result ≡ stop_code self }
    {
        match self {
            Stop::Halted => 0,
            Stop::Limit => 1,
            Stop::Room => 2,
            Stop::Typed => 3,
            Stop::Block => 4,
            Stop::Span(_) => 5,
            Stop::Line(_) => 6,
            Stop::Returned => 7,
        }
    }
}
