//! The buffers: slots in fixed places. What the callers see is their entries, the most recently referenced first.

ghost use Rattle.std.specs.Prelude.{◌≡◌, ◌+◌, ◌*◌, ◌<◌, ◌≤◌, ◌↔◌, length, MatchOption, IfSome, IsTrue, IsFalse, IsSome};
ghost use Rattle.memory.specs.Bytes.{IsCount};
ghost use Rattle.memory.specs.declared.limit.TheConstants.{GREATEST_LIMIT};
ghost use Rattle.block_buffers.specs.Entries.{start, limit, address_of, AreBuffers, entry_at, victim, holds, slot_of, IsSlotOf, moved_front, assigned, front_marked, cleaned, unmarked, unassigned, has_updated, IsFirstUpdated};

use crate::entry::Entry;
use crate::stamped::{MOST, Slot};
use crate::{entries, stamped};
use arrayvec::ArrayVec;
use memory::limit_of;
use std::marker::Model;

/// The block buffers, 2 to 16, seen as the list of their entries, the most recently referenced first.
/// The bytes of the blocks are at the end of memory, a page for each slot; here is only what is known of them.
#[derive(Drop)]
pub struct Buffers {
    slots: ArrayVec<Slot, MOST>,
    /// The stamp of the next reference.
    next: u64,
}

impl Model for Buffers {
    ghost use Rattle.std.specs.Prelude.{List};
    ghost use Rattle.block_buffers.specs.declared.entry.Entry.{Entry};
    ghost use Rattle.block_buffers.specs.Stamps.{recent, AreSlots};

    ghost Value = { List Entry };

    ghost view = { λ b. recent b.slots.items };

    ghost invariant = { λ b. AreSlots b.slots.items b.next };
}

impl Buffers {
    /// So many buffers without blocks, 2 to 16, that of the highest slot in front.
    pub fn new(count: u16) -> Buffers
        requires { IsCount count }
        ensures { result ≡ start count }
    {
        Buffers::with_next(count, u64::from(count))
    }

    /// The same, if the stamp of the next reference is `next`.
    #[tactic(auto, using(crate::proofs::Fresh::starts))]
    pub(crate) fn with_next(count: u16, next: u64) -> Buffers
        requires count { IsCount count }
        requires next { count ≤ next }
        ensures { result ≡ start count }
    {
        Buffers {
            slots: stamped::unassigned_slots(usize::from(count), next),
            next,
        }
    }

    /// The buffers with just these entries, the most recently referenced first. `None` if no buffers have such: there are
    /// 2 to 16, each slot below their number occurs once, and only a buffer with a block is updated.
    pub fn from_entries(entries: &[Entry]) -> Option<Buffers>
        ensures value { IfSome result (λ b. b ≡ entries.now) }
        ensures exactly { IsSome result ↔ AreBuffers entries.now }
    {
        if !entries::are_buffers(entries) {
            return None;
        }
        let count = entries.len();
        let mut slots = stamped::unassigned_slots(count, count as u64);
        let next = stamped::take_all(slots.as_mut_slice(), count as u64, entries);
        Some(Buffers { slots, next })
    }

    /// The entries, the most recently referenced first: from them `from_entries` makes the same buffers.
    pub fn entries(&self) -> ArrayVec<Entry, MOST>
        ensures value { result.items ≡ self.now }
        ensures sound { AreBuffers self.now }
    {
        stamped::recent(self.slots.as_slice())
    }

    /// How many buffers there are.
    #[tactic(auto, using(crate::proofs::Stamps::lengths))]
    pub fn count(&self) -> u16
        ensures value { result ≡ length self.now }
        ensures few { IsCount result }
    {
        self.slots.as_slice().len() as u16
    }

    /// Where the buffers begin in memory: the dictionary ends there at the latest.
    pub fn limit(&self) -> u16
        ensures value { result ≡ limit self.now }
        ensures whole { result + 1024 * length self.now ≡ 65536 }
        ensures most { result ≤ GREATEST_LIMIT }
    {
        limit_of(self.count())
    }

    /// Where the bytes of a slot's block begin.
    pub fn address_of(&self, slot: usize) -> u16
        requires { slot < length self.now }
        ensures value { result ≡ address_of self.now slot }
        ensures most { result ≤ 64512 }
    {
        self.limit() + 1024 * slot as u16
    }

    /// The entry at a place below the number of buffers. Place 0 has the most recently referenced.
    #[tactic(auto, unfolding(crate::specs::Entries::entry_at))]
    pub fn entry(&self, place: usize) -> Entry
        requires { place < length self.now }
        ensures value { result ≡ entry_at self.now place }
        ensures slot { result.slot < length self.now }
    {
        self.entries().as_slice()[place]
    }

    /// The slot of the buffer that has block `u`; `None` if no buffer has it.
    #[tactic(auto, using(crate::proofs::Found::held_small))]
    pub fn find(&self, u: u16) -> Option<usize>
        ensures value { MatchOption result (IsFalse (holds self.now u)) (IsSlotOf self.now u) }
        ensures slot { IfSome result (λ slot. slot < length self.now) }
    {
        stamped::find(self.slots.as_slice(), u)
    }

    /// The slot of the buffer that has block `u`; the victim's if none has it.
    #[tactic(auto, using(crate::proofs::Stamps::lengths))]
    pub fn slot_of(&self, u: u16) -> usize
        ensures value { result ≡ slot_of self.now u }
        ensures slot { result < length self.now }
    {
        stamped::slot_of(self.slots.as_slice(), u)
    }

    /// The entry that is taken if a buffer is needed: the one that was not referenced for longest.
    #[tactic(auto, using(crate::proofs::Stamps::lengths))]
    pub fn victim(&self) -> Entry
        ensures value { result ≡ victim self.now }
        ensures slot { result.slot < length self.now }
    {
        stamped::victim(self.slots.as_slice())
    }

    /// A reference to block `u`, which a buffer has: its entry moves to the front, and the others
    /// stay in their order. (Forth-83 Standard, BLOCK.)
    #[tactic(auto, using(crate::proofs::Written::written))]
    pub fn touch(&mut self, u: u16)
        requires { IsTrue (holds self.old u) }
        ensures entries { self.new ≡ moved_front (slot_of self.old u) self.old }
        ensures count { length self.new ≡ length self.old }
    {
        self.next = stamped::touch(self.slots.as_mut_slice(), self.next, u);
    }

    /// Gives the victim's buffer to block `u`, not updated, and moves its entry to the front. Meant
    /// for a block that no buffer has: one that has it already keeps it. (Forth-83 Standard, BUFFER.)
    #[tactic(auto, using(crate::proofs::Written::written))]
    pub fn assign(&mut self, u: u16)
        ensures entries { self.new ≡ assigned u self.old }
        ensures count { length self.new ≡ length self.old }
    {
        self.next = stamped::assign(self.slots.as_mut_slice(), self.next, u);
    }

    /// Marks the entry in front as updated, if it has a block. (Forth-83 Standard, UPDATE.)
    #[tactic(auto, using(crate::proofs::Written::written))]
    pub fn mark_front(&mut self)
        ensures entries { self.new ≡ front_marked self.old }
        ensures count { length self.new ≡ length self.old }
    {
        stamped::mark_front(self.slots.as_mut_slice(), self.next);
    }

    /// Takes the mark from the entry of a slot, whose block was written.
    #[tactic(auto, using(crate::proofs::Written::cleans))]
    pub fn clean(&mut self, slot: usize)
        requires { slot < length self.old }
        ensures entries { self.new ≡ cleaned slot self.old }
        ensures count { length self.new ≡ length self.old }
    {
        stamped::clean(self.slots.as_mut_slice(), slot);
    }

    /// Takes the mark from the entry of block `u`, which was written; if no buffer has the block,
    /// nothing changes.
    #[tactic(auto, using(crate::proofs::Written::unmarks))]
    pub fn unmark(&mut self, u: u16)
        ensures entries { self.new ≡ unmarked u self.old }
        ensures count { length self.new ≡ length self.old }
    {
        stamped::unmark(self.slots.as_mut_slice(), u);
    }

    /// Takes the blocks and the marks from all entries; their order stays. (Forth-83 Standard,
    /// EMPTY-BUFFERS.)
    #[tactic(auto, using(crate::proofs::Written::unassigns))]
    pub fn unassign_all(&mut self)
        ensures entries { self.new ≡ unassigned self.old }
        ensures count { length self.new ≡ length self.old }
    {
        stamped::unassign_all(self.slots.as_mut_slice());
    }

    /// The updated entry with the lowest slot, which is written first; `None` if no entry is
    /// updated. (Forth-83 Standard, SAVE-BUFFERS.)
    #[tactic(auto, using(crate::proofs::Updated::firsts))]
    pub fn first_dirty(&self) -> Option<Entry>
        ensures value { MatchOption result (IsFalse (has_updated self.now)) (IsFirstUpdated self.now) }
        ensures slot { IfSome result (λ e. e.slot < length self.now) }
        ensures block { IfSome result (λ e. IsSome e.block) }
    {
        let first = entries::first_updated(self.entries().as_slice());
        if first.updated { Some(first) } else { None }
    }
}
