//! The search by the index.

ghost use Rattle.std.specs.Prelude.{◌≡◌, ◌<◌, ℕ, List, length, slice_index, IsTrue};
ghost use Rattle.memory.specs.Mirrored.{stored};
ghost use Rattle.dictionary.specs.Search.{sought, sought_in, IsSought};
ghost use Rattle.name_index.specs.Index.{Holds};
ghost use Rattle.name_index.specs.Passing.{PassesTo};

use crate::admitting::bring_up;
use crate::index::NameIndex;
use crate::slots::{class_of, slot_of};
use dictionary::{ChainTooLong, head_of, is_hidden, search_chain, search_in};
use memory::Memory;
use memory::system::{CONTEXT, FORTH_VOC};

/// The first member of a chain from `start` on, or the second if the first is hidden, as one is that is being defined.
#[tactic(auto, using(crate::proofs::Passed::passes_hidden, crate::proofs::Passed::passes_none))]
fn first_unhidden(memory: &Memory, start: u16) -> u16
    ensures { (name : List ℕ) → PassesTo (stored memory.now) name start result }
{
    let next = memory.cell(start);
    if next < start && is_hidden(memory, start) {
        next
    } else {
        start
    }
}

/// Whether the slots of a class are known from the member `first` of its chain on, which is seen to where it may be.
fn is_known(memory: &Memory, index: &mut NameIndex, class: u8, first: u16, limit: u16) -> bool
    requires class { class < 4 }
    requires holds { Holds limit index.old (stored memory.now) }
    ensures head { IsTrue result → slice_index index.new.heads class ≡ first }
    ensures holds { Holds limit index.new (stored memory.now) }
{
    let known = index.head(class);
    if first == known {
        return true;
    }
    if known == 0 && index.waits() {
        return false;
    }
    bring_up(memory, index, class, first, limit)
}

/// The search in FORTH alone.
#[tactic(auto, unfolding(dictionary::specs::Search::sought_in, dictionary::specs::Search::first_in))]
fn search_forth(
    memory: &Memory,
    index: &mut NameIndex,
    name: &[u8],
    limit: u16,
) -> Result<Option<u16>, ChainTooLong>
    requires name { 0 < length name.now }
    requires holds { Holds limit index.old (stored memory.now) }
    ensures found { IsSought (sought_in (stored memory.now) 42 name.now) result }
    ensures holds { Holds limit index.new (stored memory.now) }
{
    let _ = memory.len();
    let start = memory.cell(head_of(FORTH_VOC, name));
    let first = first_unhidden(memory, start);
    if is_known(memory, index, class_of(name), first, limit) {
        search_chain(memory, index.entry(slot_of(name)), name)
    } else {
        search_chain(memory, start, name)
    }
}

/// The link field of the header that a name means, as `dictionary::search`: the vocabulary in CONTEXT is searched, and then
/// FORTH. A longer chain than 32,768 headers without a find is `ChainTooLong`. FORTH is searched by the table, as far as its
/// chains are in the dictionary below `limit` and fall from member to member.
#[tactic(auto, using(crate::proofs::Orders::orders))]
pub fn find_indexed(
    memory: &Memory,
    index: &mut NameIndex,
    name: &[u8],
    limit: u16,
) -> Result<Option<u16>, ChainTooLong>
    requires { Holds limit index.old (stored memory.now) }
    ensures found { IsSought (sought (stored memory.now) name.now) result }
    ensures holds { Holds limit index.new (stored memory.now) }
{
    if name.is_empty() {
        return Ok(None);
    }
    let context = memory.cell(CONTEXT);
    if context == FORTH_VOC {
        return search_forth(memory, index, name, limit);
    }
    match search_in(memory, context, name) {
        Ok(None) => search_forth(memory, index, name, limit),
        decided => decided,
    }
}
