//! Finds the structures again. The words have no BEGINs: how many of them belong at each place in the thread is counted.

ghost use Rattle.std.specs.Prelude.{◌≡◌, ◌↔◌, IsTrue, IsSome, true, ◌≤◌, ◌<◌, ◌^◌, ◌+◌, ◌-◌, ℕ, List, length, sum, vec_len, vec_capacity, Some};
ghost use Rattle.colon_bodies.specs.Structures.{Frames, else_at};
ghost use Rattle.colon_bodies.specs.Instructions.{IQuery, IBranch, IDo, ILoop, IDoes};
ghost use Rattle.see.specs.Seen.{Closes, Takes, TakesAgain, TakesOne, TakesRepeat, frames_of, top_frame, beneath, start, begins_at, EndsHere};
ghost use Rattle.see.specs.declared.structures.Frame.{Frame};

use crate::parts::Part;
use crate::places::count_begin;
use colon_bodies::BodyWord;

/// A structure that is open: the addresses at which its innermost body starts, and after its last byte.
#[derive(Clone, Copy)]
pub enum Frame {
    /// What is after DOES>.
    Past {
        start: usize,
    },
    /// IF, or the WHILE of a loop, with the index of its word.
    If {
        index: usize,
        end: usize,
        start: usize,
    },
    /// ELSE.
    Else {
        end: usize,
        start: usize,
    },
    /// DO.
    Do {
        start: usize,
    },
}

/// ?BRANCH: forward it is an IF, back an UNTIL.
pub fn take_query(
    words: &mut Vec<Part>,
    begins: &mut [usize],
    frames: &mut Vec<Frame>,
    at: usize,
    here: usize,
    to: usize,
) -> bool
    requires reach { here + 4 < 2 ^ 64 }
    requires words { vec_len words.old < vec_capacity words.old }
    requires frames { vec_len frames.old < vec_capacity frames.old }
    ensures taken { (bytes : List ℕ) → here < at + length begins.old → TakesOne bytes at here (IQuery to)
        words.old.items begins.old frames.old.items result words.new.items begins.new frames.new.items }
    ensures few { vec_len words.new + vec_len frames.new + sum begins.new ≤ vec_len words.old + vec_len frames.old + sum begins.old + 2 }
    ensures words { vec_capacity words.new ≡ vec_capacity words.old }
    ensures frames { vec_capacity frames.new ≡ vec_capacity frames.old }
{
    if here < to {
        frames.push_reserved(Frame::If {
            index: words.len(),
            end: to,
            start: here + 4,
        });
        words.push_reserved(Part::Word(BodyWord::If));
        return true;
    }
    if !count_begin(begins, at, to) {
        return false;
    }
    words.push_reserved(Part::Word(BodyWord::Until));
    true
}

/// Takes off the innermost open structure.
fn pop_frame(frames: &mut Vec<Frame>) -> Option<Frame>
    ensures top { (at : ℕ) (f : Frames) → frames.old.items ≡ frames_of at f →
        (result ≡ top_frame at f) × (frames.new.items ≡ frames_of at (beneath f)) }
    ensures shorter { IsSome result → vec_len frames.new + 1 ≡ vec_len frames.old }
    ensures few { vec_len frames.new ≤ vec_len frames.old }
    ensures some { 0 < length frames.old.items → IsSome result }
    ensures room { vec_capacity frames.new ≡ vec_capacity frames.old }
{
    frames.pop()
}

/// BRANCH forward: an ELSE.
fn take_else(words: &mut Vec<Part>, frames: &mut Vec<Frame>, here: usize, to: usize) -> bool
    requires reach { here + 4 < 2 ^ 64 }
    requires words { vec_len words.old < vec_capacity words.old }
    ensures taken { (bytes : List ℕ) (at : ℕ) (begins : List ℕ) → Takes bytes at here (here + 4) (λ f c. else_at f c to)
        words.old.items begins frames.old.items result words.new.items begins frames.new.items }
    ensures few { vec_len words.new + vec_len frames.new ≤ vec_len words.old + vec_len frames.old + 2 }
    ensures words { vec_capacity words.new ≡ vec_capacity words.old }
    ensures frames { vec_capacity frames.new ≡ vec_capacity frames.old }
{
    match pop_frame(frames) {
        Some(Frame::If { .. }) => {
            frames.push_reserved(Frame::Else {
                end: to,
                start: here + 4,
            });
            words.push_reserved(Part::Word(BodyWord::Else));
            true
        }
        _ => false,
    }
}

/// BRANCH back within the innermost body: an AGAIN.
fn take_again(
    words: &mut Vec<Part>,
    begins: &mut [usize],
    at: usize,
    here: usize,
    to: usize,
) -> bool
    requires reach { here + 4 < 2 ^ 64 }
    requires back { to ≤ here }
    requires words { vec_len words.old < vec_capacity words.old }
    ensures taken { TakesAgain at here to words.old.items begins.old result words.new.items begins.new }
    ensures few { vec_len words.new + sum begins.new ≤ vec_len words.old + sum begins.old + 2 }
    ensures words { vec_capacity words.new ≡ vec_capacity words.old }
{
    if !count_begin(begins, at, to) {
        return false;
    }
    words.push_reserved(Part::Word(BodyWord::Again));
    true
}

/// BRANCH back over the start of the innermost body: a REPEAT, and what was read as IF is a WHILE. A jump into the bytes of
/// that WHILE counts as one to it.
fn take_repeat(
    words: &mut Vec<Part>,
    begins: &mut [usize],
    frames: &mut Vec<Frame>,
    at: usize,
    to: usize,
) -> bool
    requires words { vec_len words.old < vec_capacity words.old }
    ensures taken { TakesRepeat at to
        words.old.items begins.old frames.old.items result words.new.items begins.new frames.new.items }
    ensures few { vec_len words.new + vec_len frames.new + sum begins.new ≤ vec_len words.old + vec_len frames.old + sum begins.old + 2 }
    ensures words { vec_capacity words.new ≡ vec_capacity words.old }
    ensures frames { vec_capacity frames.new ≡ vec_capacity frames.old }
{
    match pop_frame(frames) {
        Some(Frame::If { index, start, .. }) => {
            if index >= words.len() {
                return false;
            }
            words[index] = Part::Word(BodyWord::While);
            if !count_begin(begins, at, to.min(start.saturating_sub(4))) {
                return false;
            }
            words.push_reserved(Part::Word(BodyWord::Repeat));
            true
        }
        _ => false,
    }
}

/// (DO).
pub fn take_do(words: &mut Vec<Part>, frames: &mut Vec<Frame>, here: usize) -> bool
    requires reach { here + 4 < 2 ^ 64 }
    requires words { vec_len words.old < vec_capacity words.old }
    requires frames { vec_len frames.old < vec_capacity frames.old }
    ensures taken { (bytes : List ℕ) (at to : ℕ) (begins : List ℕ) → TakesOne bytes at here (IDo to)
        words.old.items begins frames.old.items result words.new.items begins frames.new.items }
    ensures few { vec_len words.new + vec_len frames.new ≤ vec_len words.old + vec_len frames.old + 2 }
    ensures words { vec_capacity words.new ≡ vec_capacity words.old }
    ensures frames { vec_capacity frames.new ≡ vec_capacity frames.old }
{
    frames.push_reserved(Frame::Do { start: here + 4 });
    words.push_reserved(Part::Word(BodyWord::Do));
    true
}

/// (LOOP) or (+LOOP).
pub fn take_loop(words: &mut Vec<Part>, frames: &mut Vec<Frame>, plus: bool) -> bool
    requires words { vec_len words.old < vec_capacity words.old }
    ensures taken { (bytes : List ℕ) (at here to : ℕ) (begins : List ℕ) → TakesOne bytes at here (ILoop plus to)
        words.old.items begins frames.old.items result words.new.items begins frames.new.items }
    ensures few { vec_len words.new + vec_len frames.new ≤ vec_len words.old + vec_len frames.old + 2 }
    ensures words { vec_capacity words.new ≡ vec_capacity words.old }
    ensures frames { vec_capacity frames.new ≡ vec_capacity frames.old }
{
    match pop_frame(frames) {
        Some(Frame::Do { .. }) => {
            words.push_reserved(Part::Word(BodyWord::Loop(plus)));
            true
        }
        _ => false,
    }
}

/// (DOES>).
pub fn take_does(words: &mut Vec<Part>, frames: &mut Vec<Frame>, here: usize) -> bool
    requires reach { here + 2 < 2 ^ 64 }
    requires words { vec_len words.old < vec_capacity words.old }
    requires frames { vec_len frames.old < vec_capacity frames.old }
    ensures taken { (bytes : List ℕ) (at : ℕ) (begins : List ℕ) → TakesOne bytes at here IDoes
        words.old.items begins frames.old.items result words.new.items begins frames.new.items }
    ensures few { vec_len words.new + vec_len frames.new ≤ vec_len words.old + vec_len frames.old + 2 }
    ensures words { vec_capacity words.new ≡ vec_capacity words.old }
    ensures frames { vec_capacity frames.new ≡ vec_capacity frames.old }
{
    frames.push_reserved(Frame::Past { start: here + 2 });
    words.push_reserved(Part::Word(BodyWord::Does));
    true
}

/// The innermost open structure.
fn top(frames: &Vec<Frame>) -> Option<Frame>
    ensures { (at : ℕ) (f : Frames) → frames.now.items ≡ frames_of at f → result ≡ top_frame at f }
{
    frames.last().copied()
}

/// Where the body of the innermost open structure begins; without one, where the definition does.
fn start_in(at: usize, top: Option<Frame>) -> usize
    ensures { result ≡ begins_at at top }
{
    match top {
        None => at,
        Some(Frame::Past { start }) => start,
        Some(Frame::If { start, .. }) => start,
        Some(Frame::Else { start, .. }) => start,
        Some(Frame::Do { start }) => start,
    }
}

/// Where the innermost body begins.
fn body_start(frames: &Vec<Frame>, at: usize) -> usize
    ensures { (f : Frames) → frames.now.items ≡ frames_of at f → result ≡ start at f }
{
    start_in(at, top(frames))
}

/// BRANCH.
pub fn take_branch(
    words: &mut Vec<Part>,
    begins: &mut [usize],
    frames: &mut Vec<Frame>,
    at: usize,
    here: usize,
    to: usize,
) -> bool
    requires reach { here + 4 < 2 ^ 64 }
    requires words { vec_len words.old < vec_capacity words.old }
    ensures taken { (bytes : List ℕ) → here < at + length begins.old → TakesOne bytes at here (IBranch to)
        words.old.items begins.old frames.old.items result words.new.items begins.new frames.new.items }
    ensures few { vec_len words.new + vec_len frames.new + sum begins.new ≤ vec_len words.old + vec_len frames.old + sum begins.old + 2 }
    ensures words { vec_capacity words.new ≡ vec_capacity words.old }
    ensures frames { vec_capacity frames.new ≡ vec_capacity frames.old }
{
    if here < to {
        return take_else(words, frames, here, to);
    }
    if to < body_start(frames, at) {
        return take_repeat(words, begins, frames, at, to);
    }
    take_again(words, begins, at, here, to)
}

/// Whether the innermost open structure ends here.
fn ends_here(frames: &Vec<Frame>, here: usize) -> bool
    ensures meaning { (at : ℕ) (f : Frames) → frames.now.items ≡ frames_of at f → IsTrue result ↔ EndsHere f here }
    ensures some { IsTrue result → 0 < length frames.now.items }
{
    match frames.last() {
        Some(Frame::If { end, .. }) => *end <= here,
        Some(Frame::Else { end, .. }) => *end <= here,
        _ => false,
    }
}

/// Ends the structures that end here.
pub fn close_here(words: &mut Vec<Part>, frames: &mut Vec<Frame>, here: usize)
    requires { vec_len words.old + vec_len frames.old ≤ vec_capacity words.old }
    ensures closed { Closes here words.old.items frames.old.items words.new.items frames.new.items }
    ensures few { vec_len words.new + vec_len frames.new ≡ vec_len words.old + vec_len frames.old }
    ensures words { vec_capacity words.new ≡ vec_capacity words.old }
    ensures frames { vec_capacity frames.new ≡ vec_capacity frames.old }
{
    while ends_here(frames, here) {
        let _ = pop_frame(frames);
        words.push_reserved(Part::Word(BodyWord::Then));
    }
}
