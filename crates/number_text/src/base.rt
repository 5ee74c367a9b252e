//! The base that numbers are read and written in.

ghost use Rattle.number_text.specs.Base.{IsBaseOf};
ghost use Rattle.memory.specs.Mirrored.{stored};

use memory::Memory;
use memory::system::BASE;
use thiserror::Error;

/// BASE is outside 2 to 72.
#[derive(Clone, Copy, Debug, PartialEq, Eq, Error)]
#[error("BASE is outside 2 to 72")]
pub struct BadBase;

/// BASE, if it is a base.
#[tactic(auto, unfolding(crate::specs::Base::has_base))]
pub(crate) fn base_of(memory: &Memory) -> Result<u16, BadBase>
    ensures { IsBaseOf (stored memory.now) result }
{
    let base = memory.cell(BASE);
    if base < 2 {
        return Err(BadBase);
    }
    if base > 72 {
        return Err(BadBase);
    }
    Ok(base)
}
