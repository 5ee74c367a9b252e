//! The search of a name in the memory of a machine that is kept.

ghost use Rattle.std.specs.Prelude.{◌≡◌, ◌≢◌, IsTrue};
ghost use Rattle.dictionary.specs.Adding.{is_name};
ghost use Rattle.forth83_c.specs.declared.status.Status.TheVariants as status;
ghost use Rattle.forth83_c.specs.Called.{HasFound, Tells, TellsMachine, WhyNotFound, code_of};

use crate::kept::is_record;
use crate::record::Forth83;
use crate::status::Status;
use dictionary::{compilation_address, search};

/// Puts the compilation address of the word that a name means into `word`, as FIND finds it. No machine is resumed: the search
/// reads memory alone.
#[tactic(auto, using(crate::proofs::Same::found_there))]
pub fn find(kept: &Forth83, name: &[u8], word: &mut u16) -> Status
    ensures found { result ≡ status.Done → HasFound kept.now name.now word.new }
    ensures named { result ≡ status.Done → IsTrue (is_name name.now) }
    ensures no_machine { TellsMachine kept.now (code_of result) }
    ensures why { Tells (WhyNotFound name.now) kept.now result }
    ensures known { result ≢ status.OutOfMemory }
    ensures untold { result ≢ status.Done → word.new ≡ word.old }
{
    if !is_record(kept) {
        return Status::NoMachine;
    }
    match search(&kept.memory, name) {
        Ok(Some(header)) => {
            *word = compilation_address(&kept.memory, header);
            Status::Done
        }
        Ok(None) => Status::NotFound,
        Err(_) => Status::ChainTooLong,
    }
}
