//! Why a container is not read, or not written, as a sentence.

use containers::Cause;
use thiserror::Error;

/// Why a container is not read, or not written.
#[derive(Debug, Drop, Error)]
pub enum Refusal {
    #[error("there is no memory left")]
    OutOfMemory,
    #[error("word {word} of the options is none of --format, --offset, --sector, --skew, --first, --sides, --width, --lines, --columns, --clean, --half and --ebcdic")]
    NoOption {
        word: usize,
    },
    #[error("a word is missing after the last option")]
    NoValue,
    #[error("{option} has a value that is no whole number, or too large")]
    NoNumber {
        option: &'static str,
    },
    #[error("there is no such format: name blocks, f83, poly, fig, cpm8, cpm8-data, apple-dos, lines-lf, lines-cr, lines-crlf, d64, atr, jv1, rx01, rx02 or text")]
    NoFormat,
    #[error("rx01 and rx02 have an order of their own; name the format blocks to give an offset, a sector's size or a skew")]
    OwnOrder,
    #[error("a screen must have whole sectors: name a power of 2, up to 1,024")]
    BadSector,
    #[error("the skew must name each sector of a track once, counted from 0 or from 1, and at most 1,024")]
    BadSkew,
    #[error("it is shorter than the {offset} bytes before its first screen")]
    ShortOffset {
        offset: usize,
    },
    #[error("it ends within a track, or within a line: its {bytes} bytes are no multiple of {track}")]
    CutTrack {
        bytes: usize,
        track: usize,
    },
    #[error("it has half a shadow: an odd number of screens")]
    OddScreens,
    #[error("line {line} of it, counted from 0, does not end where it must; name another format of lines, or text")]
    NoEnding {
        line: usize,
    },
    #[error("its {bytes} bytes are not a whole number of tracks of {track}")]
    NotTracks {
        bytes: usize,
        track: usize,
    },
    #[error("its {bytes} bytes are not two sides of tracks of {track} bytes")]
    NotSides {
        bytes: usize,
        track: usize,
    },
    #[error("it does not have a whole screen")]
    NoScreen,
    #[error("it has more than 65,536 screens, or one with a number above 65,535")]
    TooLarge,
    #[error("screen {screen} occurs twice; leave one out, or number them anew")]
    Twice {
        screen: usize,
    },
    #[error("screen {screen} has a line {line}, but a screen has lines 0 to 15")]
    FarLine {
        screen: usize,
        line: usize,
    },
    #[error("screen {screen} has {lines} lines, but only 16 fit")]
    ManyLines {
        screen: usize,
        lines: usize,
    },
    #[error("screen {screen} line {line} has {length} characters, but only 64 fit; as a text it may have them, and INCLUDE loads it")]
    LongLine {
        screen: usize,
        line: usize,
        length: usize,
    },
    #[error("screen {screen} line {line} is not blank, but a screen has lines 0 to 15; a text may have more, and INCLUDE loads it")]
    LowLine {
        screen: usize,
        line: usize,
    },
    #[error("screen {screen} line {line} has more than 32 characters, and a half screen's line has 32")]
    WideLine {
        screen: usize,
        line: usize,
    },
    #[error("the blocks are not a whole number of screens of 1,024 bytes")]
    CutBlock,
    #[error("it has room for {held} screens, but there are {screens}")]
    NoRoom {
        held: usize,
        screens: usize,
    },
    #[error("screen {screen} has more text than there is room for")]
    LongText {
        screen: usize,
    },
    #[error("the blocks have a line after the end of the text")]
    LineBehind,
    #[error("a text is not written here: `forth83 text` makes one of blocks")]
    IsText,
}

impl From<std::alloc::AllocError> for Refusal {
    fn from(_: std::alloc::AllocError) -> Refusal {
        Refusal::OutOfMemory
    }
}

/// What a cause of `containers` says here, except of a container that is cut short.
pub fn refusal_of(cause: Cause) -> Refusal {
    match cause {
        Cause::BadSector => Refusal::BadSector,
        Cause::BadSkew => Refusal::BadSkew,
        Cause::CutShort => Refusal::NoScreen,
        Cause::TooLarge => Refusal::TooLarge,
        Cause::NoEnding(line) => Refusal::NoEnding { line },
        Cause::CutBlock => Refusal::CutBlock,
        Cause::NoRoom => Refusal::LineBehind,
        Cause::OutOfMemory => Refusal::OutOfMemory,
    }
}
