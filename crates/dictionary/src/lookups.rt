//! The search of a name.

ghost use Rattle.std.specs.Prelude.{◌≡◌, ◌<◌, length};
ghost use Rattle.memory.specs.Mirrored.{stored};
ghost use Rattle.dictionary.specs.Header.{is_named, is_named_but};
ghost use Rattle.dictionary.specs.Search.{head_of, walked, first_in, first_from, sought_in, sought_from, sought, sought_hiding, by_address, IsSought};

use crate::fault::ChainTooLong;
use crate::reading::{compilation_address, is_named_but};
use memory::Memory;
use memory::system::{CONTEXT, FORTH_VOC};

/// How many headers of a chain a search looks at.
const LIMIT: u16 = 32768;

/// No header: no chain has a member at 0.
const NONE: u16 = 0;

/// Where the head of the chain of a name's class is in a vocabulary.
#[tactic(auto, unfolding(crate::specs::Search::head_of))]
pub fn head_of(voc: u16, name: &[u8]) -> u16
    requires { 0 < length name.now }
    ensures { result ≡ head_of voc name.now }
{
    voc.wrapping_add(2 * u16::from(name[0] % 4))
}

/// The first unhidden header of that name in the chain from `start` on, if the one at `hidden` counts as hidden.
#[tactic(auto, using(crate::proofs::Chains::walking))]
fn walk(memory: &Memory, start: u16, name: &[u8], hidden: u16) -> Result<Option<u16>, ChainTooLong>
    ensures { IsSought (walked (is_named_but (stored memory.now) name.now hidden) (stored memory.now) 32768 start) result }
{
    let mut l = start;
    let mut left = LIMIT;
    while left > 0 {
        if l == 0 {
            return Ok(None);
        }
        if is_named_but(memory, l, name, hidden) {
            return Ok(Some(l));
        }
        l = memory.cell(l);
        left -= 1;
    }
    if l == 0 { Ok(None) } else { Err(ChainTooLong) }
}

/// The same in the chain of the name's class in a vocabulary.
#[tactic(auto, unfolding(crate::specs::Search::first_in))]
fn first_in(
    memory: &Memory,
    voc: u16,
    name: &[u8],
    hidden: u16,
) -> Result<Option<u16>, ChainTooLong>
    requires { 0 < length name.now }
    ensures { IsSought (first_in (is_named_but (stored memory.now) name.now hidden) (stored memory.now) voc name.now) result }
{
    walk(memory, memory.cell(head_of(voc, name)), name, hidden)
}

/// The same in a vocabulary, and then in FORTH.
#[tactic(auto, unfolding(crate::specs::Search::first_from))]
fn first_from(
    memory: &Memory,
    voc: u16,
    name: &[u8],
    hidden: u16,
) -> Result<Option<u16>, ChainTooLong>
    ensures { IsSought (first_from (is_named_but (stored memory.now) name.now hidden) (stored memory.now) voc name.now) result }
{
    if name.is_empty() {
        return Ok(None);
    }
    match first_in(memory, voc, name, hidden) {
        Ok(None) => first_in(memory, FORTH_VOC, name, hidden),
        decided => decided,
    }
}

/// The link field of the first unhidden header of that name in the chain from the member at `start` on, 0 for a chain's end.
/// A longer chain than 32,768 headers without a find is `ChainTooLong`.
#[tactic(auto, using(crate::proofs::Hiding::hiding_none))]
pub fn search_chain(memory: &Memory, start: u16, name: &[u8]) -> Result<Option<u16>, ChainTooLong>
    ensures { IsSought (walked (is_named (stored memory.now) name.now) (stored memory.now) 32768 start) result }
{
    walk(memory, start, name, NONE)
}

/// The link field of the header that a name means in the vocabulary at `voc` alone. A longer chain than 32,768 headers
/// without a find is `ChainTooLong`.
#[tactic(auto, using(crate::proofs::Hiding::hiding_none))]
pub fn search_in(memory: &Memory, voc: u16, name: &[u8]) -> Result<Option<u16>, ChainTooLong>
    requires { 0 < length name.now }
    ensures { IsSought (sought_in (stored memory.now) voc name.now) result }
{
    first_in(memory, voc, name, NONE)
}

/// The link field of the header that a name means if the vocabulary at `voc` is searched, and then FORTH. A longer
/// chain than 32,768 headers without a find is `ChainTooLong`, in `voc` also if FORTH has the name.
#[tactic(auto, using(crate::proofs::Hiding::hiding_none))]
pub fn search_from(memory: &Memory, voc: u16, name: &[u8]) -> Result<Option<u16>, ChainTooLong>
    ensures { IsSought (sought_from (stored memory.now) voc name.now) result }
{
    first_from(memory, voc, name, NONE)
}

/// The link field of the header that a name means: the vocabulary in CONTEXT is searched, and then FORTH.
#[tactic(auto, unfolding(crate::specs::Search::sought))]
pub fn search(memory: &Memory, name: &[u8]) -> Result<Option<u16>, ChainTooLong>
    ensures { IsSought (sought (stored memory.now) name.now) result }
{
    search_from(memory, memory.cell(CONTEXT), name)
}

/// The same, if the header at `hidden` counts as hidden.
#[tactic(auto, unfolding(crate::specs::Search::sought_hiding))]
pub fn search_hiding(memory: &Memory, name: &[u8], hidden: u16) -> Result<Option<u16>, ChainTooLong>
    ensures { IsSought (sought_hiding (stored memory.now) name.now hidden) result }
{
    first_from(memory, memory.cell(CONTEXT), name, hidden)
}

/// The compilation address that a name means (Forth-83 FIND).
pub fn find(memory: &Memory, name: &[u8]) -> Result<Option<u16>, ChainTooLong>
    ensures { IsSought (by_address (stored memory.now) (sought (stored memory.now) name.now)) result }
{
    match search(memory, name)? {
        Some(l) => Ok(Some(compilation_address(memory, l))),
        None => Ok(None),
    }
}
