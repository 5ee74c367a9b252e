//! Laws of machines and of runs.

ghost use Rattle.std.specs.Prelude.{◌≡◌, ◌≢◌, ℕ, ◌≤◌, ◌-◌, List, Some, IsSome, All, length};
ghost use Rattle.image_loader.specs.Files.{Contents, IsImage};
ghost use Rattle.primitives.specs.Needs.{most_requests};
ghost use Rattle.inner_interpreter.specs.Histories.{made};
ghost use Rattle.inner_interpreter.specs.Moves.{Turn, Accepts, AreAccepted, after, shown_by, after_turn};
ghost use Rattle.inner_interpreter.specs.Requests.{IsOrderly, AreAsked, IsPage, OfNextCode};
ghost use Rattle.inner_interpreter.specs.Runs.{World, rounds, stops};
ghost use Rattle.inner_interpreter.specs.Slices.{with_left};
ghost use Rattle.machine.specs.State.{State, loaded_state};
ghost use Rattle.inner_interpreter.specs.Worlds.{rounds_left};

use crate::stop::Stop;
use machine::Cause;

/// A run has an end: it stops after two rounds for each tick that is left, and one more while a request waits.
pub fn end_law()
    ensures { (w : World) → IsSome (stops (rounds (rounds_left w.left w.state.wait) w)) }
{}

/// A run has one end.
pub fn one_end_law()
    ensures { (w : World) (n m : ℕ) (s t : Stop) → stops (rounds n w) ≡ Some s → stops (rounds m w) ≡ Some t →
        rounds n w ≡ rounds m w }
{}

/// A run that stopped for want of its ticks, and went on with those that were kept back, is one run: what a slice leaves are
/// some first rounds of the whole run.
pub fn slices_law()
    ensures { (w : World) (a n : ℕ) → a ≤ w.left → stops (rounds n (with_left a w)) ≡ Some Stop.Limit →
        (m : ℕ) × (rounds m w ≡ with_left (w.left - a) (rounds n (with_left a w))) }
{}

/// If no reader fails, a run stops with `InputFault` only if the machine had halted so before.
pub fn input_fault_law()
    ensures { (w : World) (n : ℕ) → w.state.halt ≢ Some Cause.InputFault → stops (rounds n w) ≢ Some Stop.InputFault }
{}

/// No block is ever in two buffers of a machine, none is asked to be read that a buffer has, and each that is asked to be
/// written is in one. A key is asked at fewer than 256 cells on the data stack, a line at two or more.
pub fn orderly_law()
    ensures started { (image : Contents) (block_count : ℕ) → IsImage image → IsOrderly (loaded_state image block_count) }
    ensures moved { (s : State) (t : Turn) → Accepts s t → IsOrderly s → IsOrderly (after_turn s t) }
{}

/// A token whose code field is below the buffers asks its device, if each request is answered Ok, at most twice for
/// each block that its row needs; BUFFER once; SAVE-BUFFERS and FLUSH once for each updated buffer.
pub fn requests_law()
    ensures { (s : State) (pages : List (List ℕ)) →
        OfNextCode s (λ code. All IsPage pages → AreAsked s pages → length pages ≤ most_requests code s.parts) }
{}
/// The moves of a run are such a list: if each is accepted, what they leave and show is what `made` says.
pub fn moves_law()
    ensures { (s : State) (ts : List Turn) → AreAccepted s ts →
        ((made s ts).state ≡ after s ts) × ((made s ts).shown ≡ shown_by s ts) }
{}
