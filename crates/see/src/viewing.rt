//! Where a word was made.

ghost use Rattle.std.specs.Prelude.{◌≡◌};
ghost use Rattle.memory.specs.Mirrored.{stored};
ghost use Rattle.dictionary.specs.Search.{sought};
ghost use Rattle.see.specs.View.{viewed};

use crate::refusal::ViewRefused;
use dictionary::{ChainTooLong, header, search};
use memory::Memory;

/// The view cell of the word that a name means: the number of the block in which the word was made. In an image that the
/// metacompiler built this is the screen of its name. `NotFound`: no word has the name; `ChainTooLong`: a chain that is
/// searched has more than 32,768 headers, and the first of these haven't the name.
pub fn view(memory: &Memory, name: &[u8]) -> Result<u16, ViewRefused>
    ensures { result ≡ viewed (stored memory.now) (sought (stored memory.now) name.now) }
{
    match search(memory, name) {
        Ok(Some(l)) => Ok(header(memory, l).view),
        Ok(None) => Err(ViewRefused::NotFound),
        Err(ChainTooLong) => Err(ViewRefused::ChainTooLong),
    }
}
