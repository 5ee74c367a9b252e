//! The table, and when it is emptied.

ghost use Rattle.std.specs.Prelude.{◌≡◌, ◌<◌, ◌≤◌, length, replicate, slice_index, slice_set};
ghost use Rattle.name_index.specs.Index.{slots_of};

use crate::watch::{DICTIONARY, is_touched};
use std::alloc::Global;

/// How many bytes of memory's beginning a loop may keep after its end too: below them a store is never in place.
const LEAST_FLOOR: u16 = 16;

/// How many searches walk a chain before a table is made, at first and at most: each time that a table is emptied it waits
/// twice as long.
const FIRST_WAIT: u16 = 16;

const LONGEST_WAIT: u16 = 512;

/// For each slot a member of FORTH's chain of a class, 0 for none: the newest whose name has that slot, of those from the
/// class's head in `heads` on. It rests on what is in the dictionary below `top`. The table is in a box, so that a machine can be
/// moved at little cost. There is none before the first member enters it: each slot then holds none.
#[derive(Drop)]
pub struct NameIndex {
    alloc: Global,
    table: Option<Box<[u16; 8192]>>,
    heads: [u16; 4],
    top: u16,
    wait: u16,
    next_wait: u16,
}

/// A table that keeps nothing, if there is memory for it.
#[inline(never)]
fn empty_table(alloc: Global) -> Option<Box<[u16; 8192]>>
    ensures { slots_of result ≡ replicate 8192 0 }
{
    match Box::new(alloc, [0; 8192]) {
        Ok(table) => Some(table),
        Err(_) => None,
    }
}

/// Puts a member in a slot of a table that holds none which is newer than the member `known`.
fn put_newest(table: &mut [u16; 8192], slot: u16, member: u16, known: u16)
    requires { slot < 8192 }
    ensures newer { known < slice_index table.old slot → table.new ≡ table.old }
    ensures set { slice_index table.old slot ≤ known → table.new ≡ slice_set table.old slot member }
    ensures size { length table.old ≡ 8192 }
{
    let place = usize::from(slot);
    if table[place] <= known {
        table[place] = member;
    }
}

impl NameIndex {
    ghost use Rattle.std.specs.Prelude.{ℕ, ◌≡◌, ◌<◌, ◌≤◌, ◌+◌, List, length, true, slice_index, slice_set, IsTrue};
    ghost use Rattle.name_index.specs.Watch.{is_watched, IsUnwatched, AgreeBelow, AgreeBeside};
    ghost use Rattle.name_index.specs.Index.{Holds, IsEmpty, top_of, floor_of};
    ghost use Rattle.cells.specs.Cell.{wrap};

    /// An index that keeps nothing. It takes no memory before a search first puts a header in its table.
    pub fn new(alloc: Global) -> NameIndex
        ensures nothing { IsEmpty result }
        ensures holds { (limit : ℕ) (m : List ℕ) → Holds limit result m }
    {
        NameIndex {
            alloc,
            table: None,
            heads: [0; 4],
            top: DICTIONARY,
            wait: FIRST_WAIT,
            next_wait: FIRST_WAIT,
        }
    }

    /// Keeps nothing any more, and gives the table's memory back.
    #[inline(never)]
    pub fn clear(&mut self)
        ensures nothing { IsEmpty self.new }
        ensures holds { (limit : ℕ) (m : List ℕ) → Holds limit self.new m }
    {
        self.table = None;
        self.heads = [0; 4];
        self.top = DICTIONARY;
        self.next_wait = self.next_wait.saturating_mul(2).min(LONGEST_WAIT);
        self.wait = self.next_wait;
    }

    /// Is beside a write of the `n` addresses from `at` on, which wrap: if one of them is watched, nothing is kept any
    /// more.
    #[tactic(auto, using(crate::proofs::Holding::holds_beside))]
    pub fn note(&mut self, at: u16, n: u16)
        ensures holds { (limit : ℕ) (m other : List ℕ)
            → AgreeBeside at n m other → Holds limit self.old m → Holds limit self.new other }
        ensures watched { (i : ℕ) → i < n → is_watched (top_of self.old) (wrap (at + i)) ≡ true → IsEmpty self.new }
        ensures unwatched { IsUnwatched (top_of self.old) at n → self.new ≡ self.old }
    {
        if is_touched(self.top, at, n) {
            self.clear();
        }
    }

    /// The least address at which a write changes nothing of what is kept: 16 if nothing is.
    #[tactic(auto, using(crate::proofs::Holding::holds_above))]
    pub fn floor(&self) -> u16
        ensures value { result ≡ floor_of self.now }
        ensures least { 16 ≤ result }
        ensures holds { (limit : ℕ) (m other : List ℕ) → AgreeBelow result m other → Holds limit self.now m →
            Holds limit self.now other }
    {
        if self.top > DICTIONARY {
            self.top
        } else {
            LEAST_FLOOR
        }
    }

    /// The member from which on a class's slots are known, 0 for none.
    pub(crate) fn head(&self, class: u8) -> u16
        requires { class < 4 }
        ensures { result ≡ slice_index self.now.heads class }
    {
        self.heads[usize::from(class)]
    }

    /// What a slot holds, 0 for none.
    pub(crate) fn entry(&self, slot: u16) -> u16
        requires { slot < 8192 }
        ensures { result ≡ slice_index (slots_of self.now.table) slot }
    {
        match &self.table {
            Some(table) => table[usize::from(slot)],
            None => 0,
        }
    }

    /// How far the dictionary is watched.
    pub(crate) fn top(&self) -> u16
        ensures { result ≡ top_of self.now }
    {
        self.top
    }

    /// Whether a chain is walked though the table could be made: if it was emptied lately.
    #[tactic(auto, using(crate::proofs::Holding::holds_same))]
    pub(crate) fn waits(&mut self) -> bool
        ensures holds { (limit : ℕ) (m : List ℕ) → Holds limit self.old m → Holds limit self.new m }
    {
        if self.wait == 0 {
            return false;
        }
        self.wait -= 1;
        true
    }

    /// Makes the table if there is none yet, and if there is memory for it.
    fn ensure_table(&mut self)
        ensures slots { slots_of self.new.table ≡ slots_of self.old.table }
        ensures heads { self.new.heads ≡ self.old.heads }
        ensures top { top_of self.new ≡ top_of self.old }
    {
        if self.table.is_none() {
            self.table = empty_table(self.alloc);
        }
    }

    /// Puts a member in a slot that holds none which is newer than the member `known`. The answer is false if there is no
    /// memory for a table.
    pub(crate) fn admit(&mut self, slot: u16, member: u16, known: u16) -> bool
        requires { slot < 8192 }
        ensures newer { IsTrue result → known < slice_index (slots_of self.old.table) slot →
            slots_of self.new.table ≡ slots_of self.old.table }
        ensures set { IsTrue result → slice_index (slots_of self.old.table) slot ≤ known →
            slots_of self.new.table ≡ slice_set (slots_of self.old.table) slot member }
        ensures size { IsTrue result → length (slots_of self.old.table) ≡ 8192 }
        ensures heads { self.new.heads ≡ self.old.heads }
        ensures top { top_of self.new ≡ top_of self.old }
    {
        self.ensure_table();
        match &mut self.table {
            Some(table) => {
                put_newest(table, slot, member, known);
                true
            }
            None => false,
        }
    }

    /// From now on a class's slots are known from the member `first` on, and the dictionary is watched below `top`.
    pub(crate) fn raise(&mut self, class: u8, first: u16, top: u16)
        requires { class < 4 }
        ensures heads { self.new.heads ≡ slice_set self.old.heads class first }
        ensures slots { slots_of self.new.table ≡ slots_of self.old.table }
        ensures top { top_of self.new ≡ top }
        ensures size { length self.old.heads ≡ 4 }
    {
        self.heads[usize::from(class)] = first;
        self.top = top;
    }
}
