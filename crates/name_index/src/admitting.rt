//! The members of a chain that enter the table.

ghost use Rattle.std.specs.Prelude.{◌≡◌, ◌<◌, ◌≤◌, ◌+◌, slice_index, IfSome, IsTrue};
ghost use Rattle.memory.specs.Mirrored.{stored};
ghost use Rattle.dictionary.specs.Header.{name_length};
ghost use Rattle.name_index.specs.Index.{Holds, IsAdmitted, slots_of, top_of};

use crate::index::NameIndex;
use crate::slots::slot_at;
use crate::watch::DICTIONARY;
use dictionary::name_length;
use memory::Memory;

/// The end of the header at `link_field`, its code field included, which may be past memory's end.
fn end_of(memory: &Memory, link_field: u16) -> u32
    ensures { result ≡ link_field + (5 + name_length (stored memory.now) link_field) }
{
    u32::from(link_field) + (5 + u32::from(name_length(memory, link_field)))
}

/// Whether a header that ends at `end` may be watched, and its link falls: no chain of such headers is too long.
fn is_admissible(link_field: u16, link: u16, end: u32, limit: u16) -> bool
    ensures { IsTrue result → (256 ≤ link_field) × (end ≤ limit) × (link + 2 ≤ link_field) }
{
    DICTIONARY <= link_field
        && end <= u32::from(limit)
        && u32::from(link) + 2 <= u32::from(link_field)
}

/// Puts the members of a class's chain in the table, from `first` on down to the one that is known: in each slot the newest.
/// How far the dictionary has to be watched for it; none if the known one isn't met by members that may be watched.
fn admit_members(
    memory: &Memory,
    index: &mut NameIndex,
    class: u8,
    first: u16,
    limit: u16,
) -> Option<u16>
    requires class { class < 4 }
    requires holds { Holds limit index.old (stored memory.now) }
    ensures heads { index.new.heads ≡ index.old.heads }
    ensures top { top_of index.new ≡ top_of index.old }
    ensures more { IfSome result (λ top. top_of index.old ≤ top) }
    ensures bound { IfSome result (λ top. 256 < top → top ≤ limit) }
    ensures admitted { IfSome result (λ top. IsAdmitted top (stored memory.now) class first (slots_of index.old.table) (slots_of index.new.table)) }
{
    let _ = memory.len();
    let known = index.head(class);
    let mut top = index.top();
    let mut l = first;
    while l > known {
        let link = memory.cell(l);
        let end = end_of(memory, l);
        if !is_admissible(l, link, end, limit) {
            return None;
        }
        let slot = slot_at(memory, l, class);
        if !index.admit(slot, l, known) {
            return None;
        }
        top = top.max(end as u16);
        l = link;
    }
    if l == known { Some(top) } else { None }
}

/// Brings the slots of a class up to the member `first` of its chain. If they can't be, nothing is kept any more, and the
/// answer is false.
#[tactic(auto, using(crate::proofs::Raised::holds_raised))]
pub fn bring_up(memory: &Memory, index: &mut NameIndex, class: u8, first: u16, limit: u16) -> bool
    requires class { class < 4 }
    requires holds { Holds limit index.old (stored memory.now) }
    ensures head { IsTrue result → slice_index index.new.heads class ≡ first }
    ensures holds { Holds limit index.new (stored memory.now) }
{
    match admit_members(memory, index, class, first, limit) {
        Some(top) => {
            index.raise(class, first, top);
            true
        }
        None => {
            index.clear();
            false
        }
    }
}
