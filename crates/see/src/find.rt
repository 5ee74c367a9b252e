//! The words of a thread.

ghost use Rattle.std.specs.Prelude.{◌≡◌, ◌↔◌, IsTrue, ◌≤◌, ◌<◌, ◌^◌, ◌+◌, ◌-◌, true, ℕ, List, [], length, map, sum, take, replicate, Some, slice_index, vec_len, vec_capacity};
ghost use Rattle.colon_bodies.specs.Tree.{Definition};
ghost use Rattle.colon_bodies.specs.Instructions.{ICall, INum, ICompile, len};
ghost use Rattle.colon_bodies.specs.Found.{found};
ghost use Rattle.see.specs.Apart.{instr};
ghost use Rattle.see.specs.Parts.{token_in};
ghost use Rattle.see.specs.Places.{IsSketch, AreLed};
ghost use Rattle.see.specs.Printing.{its_words};
ghost use Rattle.see.specs.Rooms.{IsRoomFor};
ghost use Rattle.see.specs.Seen.{TakesOne, TakesText, TakesThere};
ghost use Rattle.see.specs.declared.structures.Frame.{Frame};

use crate::front::{Instruction, first_off};
use crate::parts::Part;
use crate::places::{no_begins, with_begins};
use crate::structures::{
    Frame, close_here, take_branch, take_do, take_does, take_loop, take_query,
};
use crate::thread_room::ThreadRoom;
use colon_bodies::BodyWord;

/// A word.
fn take_call(words: &mut Vec<Part>, w: u16) -> bool
    requires words { vec_len words.old + 1 ≤ vec_capacity words.old }
    ensures taken { (bytes : List ℕ) (at here : ℕ) (begins : List ℕ) (frames : List Frame) →
        TakesOne bytes at here (ICall w)
        words.old.items begins frames result words.new.items begins frames }
    ensures few { vec_len words.new ≤ vec_len words.old + 1 }
    ensures words { vec_capacity words.new ≡ vec_capacity words.old }
{
    words.push_reserved(Part::Word(BodyWord::Name(w)));
    true
}

/// A number.
fn take_number(words: &mut Vec<Part>, n: u16) -> bool
    requires words { vec_len words.old + 1 ≤ vec_capacity words.old }
    ensures taken { (bytes : List ℕ) (at here : ℕ) (begins : List ℕ) (frames : List Frame) →
        TakesOne bytes at here (INum n)
        words.old.items begins frames result words.new.items begins frames }
    ensures few { vec_len words.new ≤ vec_len words.old + 1 }
    ensures words { vec_capacity words.new ≡ vec_capacity words.old }
{
    words.push_reserved(Part::Word(BodyWord::Number(n)));
    true
}

/// COMPILE and a word.
fn take_pair(words: &mut Vec<Part>, w: u16) -> bool
    requires words { vec_len words.old + 2 ≤ vec_capacity words.old }
    ensures taken { (bytes : List ℕ) (at here : ℕ) (begins : List ℕ) (frames : List Frame) →
        TakesOne bytes at here (ICompile w)
        words.old.items begins frames result words.new.items begins frames }
    ensures few { vec_len words.new ≤ vec_len words.old + 2 }
    ensures words { vec_capacity words.new ≡ vec_capacity words.old }
{
    words.push_reserved(Part::Word(BodyWord::Compile));
    words.push_reserved(Part::Word(BodyWord::Name(w)));
    true
}

/// A text, by its place in the thread.
fn take_text(words: &mut Vec<Part>, aborts: bool, place: usize, length: usize) -> bool
    requires words { vec_len words.old + 1 ≤ vec_capacity words.old }
    ensures taken { TakesText aborts place length words.old.items result words.new.items }
    ensures few { vec_len words.new ≤ vec_len words.old + 1 }
    ensures words { vec_capacity words.new ≡ vec_capacity words.old }
{
    words.push_reserved(Part::Text {
        aborts,
        place,
        length,
    });
    true
}

/// How many bytes an instruction takes.
fn bytes_of(flat: Instruction) -> usize
    ensures { result ≡ len (instr flat.entry) }
{
    match flat {
        Instruction::Call(_) | Instruction::Does => 2,
        Instruction::Text(_, text) => text.len() + 3,
        _ => 4,
    }
}

/// Takes one instruction.
fn take(
    words: &mut Vec<Part>,
    begins: &mut [usize],
    frames: &mut Vec<Frame>,
    at: usize,
    here: usize,
    flat: Instruction,
) -> bool
    requires reach { here + len (instr flat) < 2 ^ 64 }
    requires start { at ≤ here }
    requires words { vec_len words.old + 2 ≤ vec_capacity words.old }
    requires frames { vec_len frames.old < vec_capacity frames.old }
    ensures taken { TakesThere at here (instr flat.entry)
        words.old.items begins.old frames.old.items result words.new.items begins.new frames.new.items }
    ensures few { vec_len words.new + vec_len frames.new + sum begins.new ≤
        vec_len words.old + vec_len frames.old + sum begins.old + len (instr flat.entry) }
    ensures words { vec_capacity words.new ≡ vec_capacity words.old }
    ensures frames { vec_capacity frames.new ≡ vec_capacity frames.old }
{
    match flat {
        Instruction::Call(w) => take_call(words, w),
        Instruction::Number(n) => take_number(words, n),
        Instruction::Pair(w) => take_pair(words, w),
        Instruction::Text(aborts, text) => take_text(words, aborts, here - at + 3, text.len()),
        Instruction::Query(to) => take_query(words, begins, frames, at, here, to as usize),
        Instruction::Branch(to) => take_branch(words, begins, frames, at, here, to as usize),
        Instruction::Do(_) => take_do(words, frames, here),
        Instruction::Loop(plus, _) => take_loop(words, frames, plus),
        Instruction::Does => take_does(words, frames, here),
    }
}

/// Whether no byte is left.
fn is_nothing(bytes: &[u8]) -> bool
    ensures { IsTrue result ↔ (length bytes.now ≡ 0) }
{
    bytes.is_empty()
}

/// Finds the words of a thread that is at `at` without their BEGINs, and how many of these belong at each place.
fn sketch(
    words: &mut Vec<Part>,
    begins: &mut [usize],
    frames: &mut Vec<Frame>,
    bytes: &[u8],
    runtime: &[u16],
    at: u16,
) -> bool
    requires controls { 28 ≤ length runtime.now }
    requires reach { at + length bytes.now < 2 ^ 32 }
    requires none { (words.old.items ≡ []) × (frames.old.items ≡ []) × (begins.old ≡ replicate (length bytes.now) 0) }
    requires words { length bytes.now + 2 ≤ vec_capacity words.old }
    requires frames { length bytes.now < vec_capacity frames.old }
    ensures found { (t : Definition) → found (slice_index runtime.now) bytes.now at ≡ Some t → (result ≡ true) ×
        IsSketch (its_words t) (map (token_in bytes.now) words.new.items) begins.new × AreLed (its_words t) }
    ensures few { vec_len words.new + sum begins.new ≤ length bytes.now + 1 }
    ensures words { vec_capacity words.new ≡ vec_capacity words.old }
    ensures frames { vec_capacity frames.new ≡ vec_capacity frames.old }
{
    let mut here = at as usize;
    let mut left = bytes;
    while let Some(next) = first_off(left, runtime) {
        close_here(words, frames, here);
        if is_nothing(next.rest) {
            words.push_reserved(Part::Word(BodyWord::Semicolon));
            return true;
        }
        if !take(words, begins, frames, at as usize, here, next.first) {
            return false;
        }
        here += bytes_of(next.first);
        left = next.rest;
    }
    false
}

/// Finds the words of the definition that a thread at `at` is of, and `;`. Where it is of none, these are any words or none.
pub fn find(room: &mut ThreadRoom, bytes: &[u8], runtime: &[u16], at: u16) -> bool
    requires controls { 28 ≤ length runtime.now }
    requires reach { at + length bytes.now < 2 ^ 32 }
    requires room { IsRoomFor (length bytes.now) room.old }
    ensures found { (t : Definition) → found (slice_index runtime.now) bytes.now at ≡ Some t →
        (result ≡ true) × (map (token_in bytes.now) room.new.whole.items ≡ its_words t) }
    ensures few { IsTrue result → vec_len room.new.whole ≤ length bytes.now + 1 }
    ensures kept { (n : ℕ) → IsRoomFor n room.old → IsRoomFor n room.new }
{
    room.words.clear();
    room.frames.clear();
    no_begins(&mut room.begins, bytes.len());
    if !sketch(
        &mut room.words,
        room.begins.as_mut_slice(),
        &mut room.frames,
        bytes,
        runtime,
        at,
    ) {
        return false;
    }
    with_begins(&mut room.whole, &room.words, &room.begins, bytes);
    true
}
