//! A survey of old screens, for the Forth of a machine that is kept.

ghost use Rattle.std.specs.Prelude.{◌≡◌, ◌≢◌, ◌≤◌, length, drop};
ghost use Rattle.forth83_c.specs.declared.status.Status.TheVariants as status;
ghost use Rattle.forth83_c.specs.Called.{Tells, TellsMachine, code_of};
ghost use Rattle.forth83_c.specs.Looked.{WhyNotSurveyed};

use crate::kept::is_record;
use crate::record::Forth83;
use crate::showing::put;
use crate::status::Status;
use forth_names::forth_names;
use memory::Memory;
use std::alloc::{AllocError, Global};
use survey::{Asked, Dialect, Report};

/// How many places of a word are listed.
const SEVERAL: usize = 8;

/// Blocks, and what they are called.
#[derive(Clone, Copy)]
pub struct NamedBlocks<'a> {
    pub name: &'a [u8],
    pub bytes: &'a [u8],
}

/// The report on all screens of blocks.
fn report(alloc: Global, memory: &Memory, blocks: NamedBlocks<'_>) -> Result<Report, AllocError> {
    let known = forth_names(alloc, memory)?;
    let asked = Asked {
        name: blocks.name,
        blocks: blocks.bytes,
        first: 0,
        last: usize::MAX,
        known: known.as_slice(),
        most: SEVERAL,
    };
    survey::survey(alloc, asked)
}

/// The number of a dialect in the header.
fn number_of(dialect: Dialect) -> u16 {
    match dialect {
        Dialect::Fig => 1,
        Dialect::F79 => 2,
        Dialect::F83 => 3,
        Dialect::Poly => 4,
    }
}

/// The dialect that is to be loaded, the best one if it is undecided; 0 if none is needed.
fn number_of_first(dialects: &[Dialect]) -> u16 {
    match dialects {
        [first, ..] => number_of(*first),
        [] => 0,
    }
}

/// Puts the report on all screens of blocks into `text`, how many bytes it has into `size`, and the dialect that is to be loaded into
/// `dialect`.
pub fn survey(
    alloc: Global,
    kept: &Forth83,
    blocks: NamedBlocks<'_>,
    text: &mut [u8],
    size: &mut usize,
    dialect: &mut u16,
) -> Status
    ensures fits { result ≡ status.Done → size.new ≤ length text.new }
    ensures beyond { result ≡ status.Done → drop size.new text.new ≡ drop size.new text.old }
    ensures no_machine { TellsMachine kept.now (code_of result) }
    ensures why { Tells WhyNotSurveyed kept.now result }
    ensures stays { result ≢ status.Done → text.new ≡ text.old }
    ensures untold { result ≢ status.Done → size.new ≡ size.old }
    ensures unnamed { result ≢ status.Done → dialect.new ≡ dialect.old }
{
    if !is_record(kept) {
        return Status::NoMachine;
    }
    let Ok(report) = report(alloc, &kept.memory, blocks) else {
        return Status::OutOfMemory;
    };
    if text.len() < report.text.len() {
        return Status::ShortRoom;
    }
    *size = put(text, 0, report.text.as_slice());
    *dialect = number_of_first(report.dialects.as_slice());
    Status::Done
}
