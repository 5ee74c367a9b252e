//! What the system was asked to do with files, kept for contracts alone.

ghost use Rattle.std.specs.Prelude.{◌≡◌, ◌++◌, ◌∷◌, List, []};
ghost use Rattle.std.specs.Coded.{coded_list};
ghost use Rattle.named_files.specs.Asking.{Answered, answered_coded};

use std::marker::Model;

/// What the system is asked to do with files that the command line names, or to see to.
#[derive(Clone, Copy, Debug, PartialEq, Eq)]
pub enum Deed {
    /// A file that is read and one that is written aren't the same.
    KeepApart,
    /// No file has this name.
    KeepAbsent,
    /// A file of blocks is no image.
    KeepBlocks,
    /// A file that is to be an image isn't one of blocks.
    KeepImage,
    /// A file that is to be a trace is neither an image nor one of blocks.
    KeepTrace,
    /// To hold a file against other runs.
    Hold,
    /// To read a file whole.
    Read,
    /// To write a file whole.
    Write,
    /// To open the blocks of a run: those of a file, to be read and written, or none if no file is named.
    Open,
    /// To open a file of blocks, to be read alone.
    OpenToRead,
    /// To open a trace, and the blocks of the run that is traced, if a file of them is named.
    OpenTraced,
    /// To remove the file of a trace, if it was made for the run.
    Discard,
    /// To open standard input.
    Listen,
    /// To take something as it is given.
    Take,
    /// To find memory.
    Allocate,
}

/// Something that the system was asked to do, the names of the files or options that it was about, and the answer: the status with
/// which it was refused, or 0.
#[derive(Clone, Copy, Drop)]
pub struct Asked<'a> {
    pub deed: Deed,
    pub names: &'a [&'a str],
    pub status: u8,
}

/// What the system was asked to do, in order. It takes no memory; a contract reads it as `asked`.
#[derive(Drop)]
pub struct StepLog {
    pub ghost asked: { List Answered } by { coded_list answered_coded },
}

impl Model for StepLog {
    ghost use Rattle.std.specs.Borrow.{ftrue};

    ghost also_owns = { λ _. ftrue };
}

impl StepLog {
    ghost use Rattle.named_files.specs.Asking.{answered_of};

    /// Nothing yet.
    pub fn new() -> StepLog
        ensures { result.asked ≡ [] }
    {
        StepLog {}
    }

    /// One thing more.
    #[inline(always)]
    pub fn then(&self, _asked: &Asked<'_>) -> StepLog
        ensures { result.asked ≡ self.now.asked ++ answered_of _asked.now ∷ [] }
    {
        StepLog {}
    }
}
