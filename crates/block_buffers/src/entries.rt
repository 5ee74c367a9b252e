//! Work on a list of entries, the most recently referenced first.
ghost use Rattle.std.specs.Prelude.{◌≡◌, ◌↔◌, ◌≤◌, if◌then◌else◌, IsTrue, drop, length};
ghost use Rattle.std.specs.List.{list_all, list_any};
ghost use Rattle.block_buffers.specs.Entries.{is_in, is_of, unassigned_slot, cleaned_entry, unmarked_entry, first_updated, is_updated, lower_of, AreBuffers};
ghost use Rattle.block_buffers.specs.Tests.{can_stand, slots_differ};

use crate::entry::Entry;

/// The entry of a slot that has no block.
pub fn unassigned_slot(slot: usize) -> Entry
    ensures { result ≡ unassigned_slot slot }
{
    Entry {
        slot,
        block: None,
        updated: false,
    }
}

/// Whether the entry has block `u`.
pub fn is_of(entry: &Entry, u: u16) -> bool
    ensures { result ≡ is_of u entry.now }
{
    match entry.block {
        Some(block) => block == u,
        None => false,
    }
}

/// The entry without its mark, if it is that of a slot.
pub fn cleaned_entry(entry: &Entry, slot: usize) -> Entry
    ensures { result ≡ cleaned_entry slot entry.now }
{
    Entry {
        updated: entry.updated && entry.slot != slot,
        ..*entry
    }
}

/// The entry without its mark, if it has block `u`.
pub fn unmarked_entry(entry: &Entry, u: u16) -> Entry
    ensures { result ≡ unmarked_entry u entry.now }
{
    Entry {
        updated: entry.updated && !is_of(entry, u),
        ..*entry
    }
}

/// The second entry, if it is updated and has the lower slot; else the first.
fn lower_updated(first: Entry, entry: &Entry) -> Entry
    ensures { result ≡ (if is_updated entry.now then lower_of first entry.now else first) }
{
    if entry.updated && entry.slot < first.slot {
        *entry
    } else {
        first
    }
}

/// The updated entry with the lowest slot; one that isn't updated if none is.
#[tactic(auto, unfolding(crate::specs::Entries::first_updated))]
pub fn first_updated(entries: &[Entry]) -> Entry
    ensures { result ≡ first_updated entries.now }
{
    let mut first = unassigned_slot(16);
    for entry in entries {
        first = lower_updated(first, entry);
    }
    first
}

/// Whether the entry can be one of so many buffers: its slot is below their number, and it is updated only if it has a
/// block.
fn can_stand(entry: &Entry, count: usize) -> bool
    ensures { result ≡ can_stand count entry.now }
{
    entry.slot < count && (!entry.updated || entry.block.is_some())
}

/// Whether each entry can be one of so many buffers.
fn can_all_stand(entries: &[Entry], count: usize) -> bool
    ensures { result ≡ list_all (can_stand count) entries.now }
{
    entries.iter().all(|entry| can_stand(entry, count))
}

/// Whether one of the entries has the slot.
fn has_slot(entries: &[Entry], slot: usize) -> bool
    ensures { result ≡ list_any (is_in slot) entries.now }
{
    entries.iter().any(|entry| entry.slot == slot)
}

/// Whether the slot comes after the first of these entries, as many as `count`.
fn stands_behind(entries: &[Entry], count: usize, slot: usize) -> bool
    requires { count ≤ length entries.now }
    ensures { result ≡ list_any (is_in slot) (drop count entries.now) }
{
    has_slot(&entries[count..], slot)
}

/// Whether no slot occurs twice.
fn slots_differ(entries: &[Entry]) -> bool
    ensures { result ≡ slots_differ entries.now }
{
    for (place, entry) in entries.iter().enumerate() {
        if stands_behind(entries, place + 1, entry.slot) {
            return false;
        }
    }
    true
}

/// Whether the entries are such as buffers are.
#[tactic(auto, using(crate::proofs::Trying::tries))]
pub fn are_buffers(entries: &[Entry]) -> bool
    ensures { IsTrue result ↔ AreBuffers entries.now }
{
    let count = entries.len();
    (2 <= count && count <= 16) && (can_all_stand(entries, count) && slots_differ(entries))
}
