//! The control primitives whose compilation addresses are in the runtime cells.

/// The control primitives that words of colon definitions write, each with the number of its row.
#[derive(Clone, Copy, Debug, PartialEq, Eq)]
pub enum Control {
    /// `EXIT`
    Exit = 5,
    /// `(LIT)`
    Literal = 6,
    /// `BRANCH`
    Branch = 7,
    /// `?BRANCH`
    ZeroBranch = 8,
    /// `(DO)`
    Do = 9,
    /// `(LOOP)`
    Loop = 10,
    /// `(+LOOP)`
    PlusLoop = 11,
    /// `(.")`
    ShowText = 16,
    /// `(ABORT")`
    AbortText = 17,
    /// `(DOES>)`
    Does = 18,
    /// `COMPILE`
    Compile = 19,
}
