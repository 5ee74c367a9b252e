//! Why a call ended.

ghost use Rattle.std.specs.Prelude.{◌≡◌};
ghost use Rattle.forth83_c.specs.Called.{span_of};

use machine_parts::parts::Span;

/// Why a call ended.
#[derive(Clone, Copy, Debug, PartialEq, Eq)]
pub enum Stop {
    /// The machine is halted.
    Halted,
    /// All ticks that were allowed are done.
    Limit,
    /// There may be too little room for what comes next.
    Room,
    /// A key or a line is asked, and the typed bytes have none.
    Typed,
    /// A block is asked.
    Block,
    /// These bytes of memory are shown next, and do not fit into the room.
    Span(Span),
    /// These bytes and a blank are shown next, and do not fit into the room.
    Line(Span),
    /// The word that was called has returned.
    Returned,
}

impl Stop {
    /// The bytes of memory that the host shows by itself; none if it need not.
    pub fn span(self) -> Span
        ensures { result ≡ span_of self }
    {
        match self {
            Stop::Span(span) => span,
            Stop::Line(span) => span,
            _ => Span { at: 0, len: 0 },
        }
    }
}
