//! What the definitions come to, in the words of their subjects: entries, blocks of a device, lines of a screen.
ghost use Rattle.std.specs.Prelude.{◌≡◌, ◌≢◌, ℕ, ◌+◌, ◌<◌, ◌≤◌, ◌∷◌, List, Some, IsTrue, IsFalse, remove, IsPermutation, count_by, length};
ghost use Rattle.memory.specs.Bytes.{IsCount};
ghost use Rattle.block_buffers.specs.declared.entry.Entry.{Entry};
ghost use Rattle.block_buffers.specs.Entries.{start, is_in, entry_at, victim, holds, slot_of, moved_front, after_references, assigned, front_marked, cleaned, unmarked, unassigned, has_updated, first_updated, AreBuffers, HasNoBlockTwice, IsLowestUpdated};
ghost use Rattle.block_buffers.specs.Disks.{Disk, block_at, with_block};
ghost use Rattle.block_buffers.specs.Screens.{IsScreen, IsLine, blank_line, blank_screen, line_at, with_line, line_inserted, line_deleted};

use crate::buffers::Buffers;

/// Buffers as new ones, but that the next reference is stamped `stamp`. Any number from 16 on will do: no caller sees stamps.
pub fn buffers_from(count: u16, stamp: u64) -> Buffers
    requires count { IsCount count }
    requires stamp { 16 ≤ stamp }
    ensures { result ≡ start count }
{
    Buffers::with_next(count, stamp)
}

/// The entry of any place comes to the front, and the others stay in their order. No entry is lost or changed.
pub fn moved_front_law()
    ensures order { (b : List Entry) (place : ℕ) → AreBuffers b → place < length b →
        moved_front (entry_at b place).slot b ≡ entry_at b place ∷ remove b place }
    ensures front { (b : List Entry) (slot : ℕ) → AreBuffers b → slot < length b →
        (entry_at (moved_front slot b) 0).slot ≡ slot }
    ensures same { (b : List Entry) (slot : ℕ) → IsPermutation b (moved_front slot b) }
{}

/// References change the order alone: no entry is lost, changed or doubled.
pub fn reordered_law()
    ensures { (b : List Entry) (slots : List ℕ) → IsPermutation b (after_references slots b) }
{}

/// A reference to a block that a buffer has brings its entry to the front.
pub fn reference_law()
    ensures { (b : List Entry) (u : ℕ) → AreBuffers b → IsTrue (holds b u) →
        (entry_at (moved_front (slot_of b u) b) 0).block ≡ Some u }
{}

/// The block that a buffer is given to has the victim's slot, and its entry is in front.
pub fn assigned_law()
    ensures held { (b : List Entry) (u : ℕ) → IsTrue (holds (assigned u b) u) }
    ensures slot { (b : List Entry) (u : ℕ) → slot_of (assigned u b) u ≡ (victim b).slot }
    ensures front { (b : List Entry) (u : ℕ) → (entry_at (assigned u b) 0).block ≡ Some u }
{}

/// The first updated entry is one of the list, it is updated, and no updated one has a lower slot.
pub fn first_updated_law()
    ensures { (b : List Entry) → AreBuffers b → IsTrue (has_updated b) → IsLowestUpdated b (first_updated b) }
{}

/// No block is ever in two buffers.
pub fn no_block_twice_law()
    ensures started { (n : ℕ) → HasNoBlockTwice (start n) }
    ensures moved { (b : List Entry) (slot : ℕ) → HasNoBlockTwice b → HasNoBlockTwice (moved_front slot b) }
    ensures assigned { (b : List Entry) (u : ℕ) → IsFalse (holds b u) → HasNoBlockTwice b →
        HasNoBlockTwice (assigned u b) }
    ensures marked { (b : List Entry) → HasNoBlockTwice b → HasNoBlockTwice (front_marked b) }
    ensures cleaned { (b : List Entry) (slot : ℕ) → HasNoBlockTwice b → HasNoBlockTwice (cleaned slot b) }
    ensures unmarked { (b : List Entry) (u : ℕ) → HasNoBlockTwice b → HasNoBlockTwice (unmarked u b) }
    ensures unassigned { (b : List Entry) → HasNoBlockTwice (unassigned b) }
{}

/// There are always as many buffers, 2 to 16, each slot occurs once, and only a buffer with a block is updated.
pub fn buffers_law()
    ensures slots { (b : List Entry) (slot : ℕ) → AreBuffers b → slot < length b → count_by (is_in slot) b ≡ 1 }
    ensures started { (n : ℕ) → IsCount n → AreBuffers (start n) }
    ensures count { (n : ℕ) → length (start n) ≡ n }
    ensures moved { (b : List Entry) (slot : ℕ) → AreBuffers b → AreBuffers (moved_front slot b) }
    ensures assigned { (b : List Entry) (u : ℕ) → AreBuffers b → AreBuffers (assigned u b) }
    ensures marked { (b : List Entry) → AreBuffers b → AreBuffers (front_marked b) }
    ensures cleaned { (b : List Entry) (slot : ℕ) → AreBuffers b → AreBuffers (cleaned slot b) }
    ensures unmarked { (b : List Entry) (u : ℕ) → AreBuffers b → AreBuffers (unmarked u b) }
    ensures unassigned { (b : List Entry) → AreBuffers b → AreBuffers (unassigned b) }
{}

/// A write changes its block alone, to the bytes handed in.
pub fn written_law()
    ensures block { (d : Disk) (n : ℕ) (page : List ℕ) → n < length d.blocks →
        block_at (with_block d n page).blocks n ≡ page }
    ensures others { (d : Disk) (n m : ℕ) (page : List ℕ) → m ≢ n →
        block_at (with_block d n page).blocks m ≡ block_at d.blocks m }
    ensures count { (d : Disk) (n : ℕ) (page : List ℕ) → length (with_block d n page).blocks ≡ length d.blocks }
{}

/// A screen is its sixteen lines: two screens with the same lines are the same.
pub fn screen_law()
    ensures { (p q : List ℕ) → IsScreen p → IsScreen q → ((n : ℕ) → n < 16 → line_at p n ≡ line_at q n) → p ≡ q }
{}

/// Line numbers count on past 15 from line 0 again.
pub fn line_number_law()
    ensures read { (p : List ℕ) (n : ℕ) → line_at p (n + 16) ≡ line_at p n }
    ensures put { (p text : List ℕ) (n : ℕ) → with_line p (n + 16) text ≡ with_line p n text }
    ensures inserted { (p text : List ℕ) (n : ℕ) → line_inserted p (n + 16) text ≡ line_inserted p n text }
    ensures deleted { (p : List ℕ) (n : ℕ) → line_deleted p (n + 16) ≡ line_deleted p n }
{}

/// A line that is put changes that line alone.
pub fn put_line_law()
    ensures size { (p text : List ℕ) (n : ℕ) → IsScreen p → IsLine text → IsScreen (with_line p n text) }
    ensures line { (p text : List ℕ) (n : ℕ) → IsScreen p → IsLine text → line_at (with_line p n text) n ≡ text }
    ensures others { (p text : List ℕ) (n m : ℕ) → IsScreen p → IsLine text → n < 16 → m < 16 → m ≢ n →
        line_at (with_line p n text) m ≡ line_at p m }
{}

/// A line that is inserted moves the lines from it on one down; the last one is lost.
pub fn insert_line_law()
    ensures size { (p text : List ℕ) (n : ℕ) → IsScreen p → IsLine text → IsScreen (line_inserted p n text) }
    ensures above { (p text : List ℕ) (n m : ℕ) → IsScreen p → n < 16 → m < n →
        line_at (line_inserted p n text) m ≡ line_at p m }
    ensures line { (p text : List ℕ) (n : ℕ) → IsScreen p → IsLine text → line_at (line_inserted p n text) n ≡ text }
    ensures below { (p text : List ℕ) (n m : ℕ) → IsScreen p → IsLine text → n ≤ m → m < 15 →
        line_at (line_inserted p n text) (m + 1) ≡ line_at p m }
{}

/// A line that is deleted moves the lines after it one up; the last one becomes blank.
pub fn delete_line_law()
    ensures size { (p : List ℕ) (n : ℕ) → IsScreen p → IsScreen (line_deleted p n) }
    ensures above { (p : List ℕ) (n m : ℕ) → IsScreen p → n < 16 → m < n → line_at (line_deleted p n) m ≡ line_at p m }
    ensures below { (p : List ℕ) (n m : ℕ) → IsScreen p → n ≤ m → m < 15 →
        line_at (line_deleted p n) m ≡ line_at p (m + 1) }
    ensures last { (p : List ℕ) (n : ℕ) → IsScreen p → line_at (line_deleted p n) 15 ≡ blank_line }
{}

/// Each line of a wiped screen is blank.
pub fn wipe_law()
    ensures { (n : ℕ) → line_at blank_screen n ≡ blank_line }
{}
