//! How a colon definition begins and ends.

ghost use Rattle.compiling_words.specs.Definitions.{IsBegun, IsEnded};
ghost use Rattle.memory.specs.Mirrored.{stored};

use crate::control::runtime;
use crate::laying::{Full, lay};
use dictionary::code_fields::COLON;
use dictionary::{AddFault, add_header, newest_count, revealed};
use memory::controls::Control;
use memory::system::{CONTEXT, CURRENT, STATE};
use memory::{Memory, cell_bytes};

/// Begins a definition (Forth-83 `:`): its hidden header, then STATE is -1 and CONTEXT is CURRENT, as both were before.
///
/// `NameLength` for a name of 0 or over 31 bytes, then `Full` if the header would end after the limit: nothing is
/// written.
#[tactic(auto, unfolding(crate::specs::Definitions::begun, dictionary::specs::Adding::with_header, dictionary::specs::Adding::with_header_at, memory::specs::Bytes::written))]
pub fn begin_definition(memory: &mut Memory, name: &[u8], limit: u16) -> Result<(), AddFault>
    ensures { IsBegun limit (stored memory.old) (stored memory.new) name.now result }
{
    let current = memory.cell(CURRENT);
    add_header(memory, name, COLON, &[], true, limit)?;
    memory.set_cell(STATE, 65535);
    memory.set_cell(CONTEXT, current);
    Ok(())
}

/// Ends a definition (Forth-83 `;`): EXIT is written, then the newest header is no longer hidden, then STATE is 0.
///
/// LAST and the header's count byte are read before anything is written.
pub fn end_definition(memory: &mut Memory, limit: u16) -> Result<(), Full>
    ensures { IsEnded limit (stored memory.old) (stored memory.new) result }
{
    let at = newest_count(memory);
    let count = memory.byte(at);
    let exit = cell_bytes(runtime(memory, Control::Exit));
    lay(memory, &exit, limit)?;
    memory.set_byte(at, revealed(count));
    memory.set_cell(STATE, 0);
    Ok(())
}
