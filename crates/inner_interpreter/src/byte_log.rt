//! Bytes that a writer took, kept for contracts alone.
ghost use Rattle.std.specs.Prelude.{◌≡◌, ◌++◌, List, [], ℕ, Bool, true, false};

use std::marker::Model;

/// The bytes that the calls of a writer took, in order; whether all of them were passed on by a flush; and whether the writer
/// reports its own bytes. It takes no memory; a contract reads it as `bytes`, `passed` and `tells`.
#[derive(Drop)]
pub struct ByteLog {
    pub ghost bytes: { List ℕ },
    pub ghost passed: { Bool },
    pub ghost tells: { Bool },
}

impl Model for ByteLog {
    ghost use Rattle.std.specs.Borrow.{ftrue};

    ghost also_owns = { λ _. ftrue };
}

impl ByteLog {
    /// No byte, of a writer whose own bytes are not known.
    pub fn new() -> ByteLog
        ensures { (result.bytes ≡ []) × (result.passed ≡ false) × (result.tells ≡ false) }
    {
        ByteLog {}
    }

    /// No byte, of a writer that reports its own bytes.
    pub fn told() -> ByteLog
        ensures { (result.bytes ≡ []) × (result.passed ≡ false) × (result.tells ≡ true) }
    {
        ByteLog {}
    }

    /// These bytes more, which were not passed on yet.
    pub fn grown(_before: &ByteLog, _part: &[u8]) -> ByteLog
        ensures { (result.bytes ≡ _before.now.bytes ++ _part.now) × (result.passed ≡ false) × (result.tells ≡ _before.now.tells) }
    {
        ByteLog {}
    }

    /// The same bytes, which were passed on.
    pub fn flushed(_before: &ByteLog) -> ByteLog
        ensures { (result.bytes ≡ _before.now.bytes) × (result.passed ≡ true) × (result.tells ≡ _before.now.tells) }
    {
        ByteLog {}
    }
}
