//! What a reader gave, kept for contracts alone.
ghost use Rattle.std.specs.Prelude.{◌≡◌, ◌++◌, ◌∷◌, ℕ, List, [], Option};

use std::marker::Model;

/// What the calls of a reader gave, in order. It takes no memory; a contract reads it as `reads`: a byte, or `None` for the end.
#[derive(Drop)]
pub struct ReadLog {
    pub ghost reads: { List (Option ℕ) },
}

impl Model for ReadLog {
    ghost use Rattle.std.specs.Borrow.{ftrue};

    ghost also_owns = { λ _. ftrue };
}

/// What a call gave.
#[derive(Clone, Copy, Drop)]
pub enum Given {
    Byte(u8),
    End,
}

impl ReadLog {
    ghost use Rattle.inner_interpreter.specs.Given.{given_by};

    /// No call was made.
    pub fn new() -> ReadLog
        ensures { result.reads ≡ [] }
    {
        ReadLog {}
    }

    /// One more call was made.
    #[inline(always)]
    pub fn then(&self, _given: &Given) -> ReadLog
        ensures { result.reads ≡ self.now.reads ++ given_by _given.now ∷ [] }
    {
        ReadLog {}
    }
}
