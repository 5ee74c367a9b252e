//! Laws of screens that a running image compiles.

ghost use Rattle.std.specs.Prelude.{◌≤◌, ◌+◌, ◌∷◌, [], ℕ, List, codes};
ghost use Rattle.memory.specs.Bytes.{cell};
ghost use Rattle.memory.specs.declared.system.TheConstants.{DP};
ghost use Rattle.source_words.specs.Words.{source_words};
ghost use Rattle.metacompiler.specs.Compiled.{Agree, Enough};
ghost use Rattle.metacompiler.specs.Rounds.{StopsForWant};
ghost use Rattle.metacompiler.specs.Sample.{IsCalled, square, square_screen};
ghost use Rattle.metacompiler.specs.Sources.{AreDefined};
ghost use Rattle.metacompiler.specs.Turns.{CompiledIn6, ExecutedIn8, EndedIn4};

/// Screens that hold colon definitions alone, loaded on an image whose memory is resident: the new image has the memory
/// in which they are written as the metacompiler's definitions say, or there were too few ticks. With enough ticks it has.
pub fn agree_law()
    ensures agree { Agree }
    ensures enough { Enough }
{}

/// For want of ticks rounds stop only if all are done.
#[tactic(auto, using(crate::proofs::Limits::limit_done))]
pub fn limit_law()
    ensures all { StopsForWant }
{}

/// A turn of INTERPRET's loop takes at most eight ticks if (INTERPRET) takes one: six if it compiled, eight if
/// it left a word whose row does it, and four if no word was left, which end the screen.
pub fn turn_law()
    ensures compiled { CompiledIn6 }
    ensures executed { ExecutedIn8 }
    ensures last { EndedIn4 }
{}

/// A screen with the definition of SQ is such a source, in each memory that has room for it, and in which DUP and * are found.
pub fn sample_law()
    ensures { (limit screen : ℕ) (m : List ℕ) (dup times : ℕ) → IsCalled m (codes "DUP") dup → IsCalled m (codes "*") times →
        cell m DP + 15 ≤ limit →
        AreDefined limit m (source_words screen (square_screen ∷ [])) (square screen dup times ∷ []) }
{}
