//! The formats that are read and written.

/// A format: one of `containers`, or one more.
#[derive(Clone, Copy, PartialEq, Eq)]
pub enum Format {
    /// One that `containers` reads and writes.
    Plain(containers::Format),
    /// A disk of a Commodore 1541.
    D64,
    /// A disk of an Atari, after the head of its file.
    Atr,
    /// A disk of a TRS-80.
    Jv1,
    /// A disk of a PDP-11.
    Rx01,
    /// The same in double density.
    Rx02,
    /// Lines of any length, or a listing.
    Text,
}

impl Format {
    /// The format of this name. Those of `containers` are matched as bytes, since the library's other targets compare no texts.
    pub fn named(name: &[u8]) -> Option<Format> {
        match name {
            b"d64" => Some(Format::D64),
            b"atr" => Some(Format::Atr),
            b"jv1" => Some(Format::Jv1),
            b"rx01" => Some(Format::Rx01),
            b"rx02" => Some(Format::Rx02),
            b"text" => Some(Format::Text),
            b"blocks" => Some(Format::Plain(containers::Format::Blocks)),
            b"f83" => Some(Format::Plain(containers::Format::F83)),
            b"fig" => Some(Format::Plain(containers::Format::Fig)),
            b"poly" => Some(Format::Plain(containers::Format::Poly)),
            b"cpm8" => Some(Format::Plain(containers::Format::Cpm8)),
            b"cpm8-data" => Some(Format::Plain(containers::Format::Cpm8Data)),
            b"apple-dos" => Some(Format::Plain(containers::Format::AppleDos)),
            b"lines-lf" => Some(Format::Plain(containers::Format::LinesLf)),
            b"lines-cr" => Some(Format::Plain(containers::Format::LinesCr)),
            b"lines-crlf" => Some(Format::Plain(containers::Format::LinesCrlf)),
            _ => None,
        }
    }

    /// The format of `containers` with whose layout it is read.
    pub fn plain(self) -> containers::Format {
        match self {
            Format::Plain(format) => format,
            _ => containers::Format::Blocks,
        }
    }

    /// How many bytes are before its first sector, if that is another number than its layout's.
    pub fn offset(self) -> Option<u32> {
        match self {
            Format::Atr => Some(16),
            _ => None,
        }
    }

    /// How many bytes a sector has, if that is another number than its layout's.
    pub fn sector(self) -> Option<usize> {
        match self {
            Format::D64 | Format::Jv1 | Format::Rx02 => Some(256),
            Format::Atr | Format::Rx01 => Some(128),
            _ => None,
        }
    }

    /// Whether its sectors move by some places a track.
    pub fn is_turning(self) -> bool {
        matches!(self, Format::Rx01 | Format::Rx02)
    }

    /// Whether its screens lie one after the other, without anything between them, unless a skew is given.
    pub fn is_in_turn(self) -> bool {
        match self {
            Format::Plain(format) => matches!(
                format,
                containers::Format::Blocks | containers::Format::Fig | containers::Format::Poly
            ),
            Format::D64 | Format::Atr | Format::Jv1 => true,
            _ => false,
        }
    }

    /// Whether its sectors are lines, with an end each.
    pub fn has_lines(self) -> bool {
        matches!(
            self.plain(),
            containers::Format::LinesLf
                | containers::Format::LinesCr
                | containers::Format::LinesCrlf
        )
    }
}
