//! Files that were read or written, kept for contracts alone.

ghost use Rattle.std.specs.Prelude.{◌≡◌, ◌++◌, ◌∷◌, ℕ, List, []};

use std::marker::Model;

/// The files that were read, or those that were written, in order. It takes no memory; a contract reads it as `files`.
#[derive(Drop)]
pub struct FileLog {
    pub ghost files: { List (List ℕ × List ℕ) },
}

impl Model for FileLog {
    ghost use Rattle.std.specs.Borrow.{ftrue};

    ghost also_owns = { λ _. ftrue };
}

/// A file by its name, with all of its bytes.
#[derive(Clone, Copy, Drop)]
pub struct NamedBytes<'a> {
    pub name: &'a str,
    pub bytes: &'a [u8],
}

impl FileLog {
    ghost use Rattle.named_files.specs.FileBytes.{file_of};

    /// No file yet.
    pub fn new() -> FileLog
        ensures { result.files ≡ [] }
    {
        FileLog {}
    }

    /// One more file.
    #[inline(always)]
    pub fn then(&self, _file: &NamedBytes<'_>) -> FileLog
        ensures { result.files ≡ self.now.files ++ file_of _file.now ∷ [] }
    {
        FileLog {}
    }
}
