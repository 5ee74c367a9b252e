//! The law of records.

ghost use Rattle.std.specs.Prelude.{◌≡◌, ◌++◌, Bool, ℕ, List};
ghost use Rattle.forth83_c.specs.Driven.{IsDriven};
ghost use Rattle.machine.specs.State.{State};
ghost use Rattle.forth83_c.specs.declared.record.Forth83.{Forth83};
ghost use Rattle.forth83_c.specs.declared.record.Forth83Faults.{Forth83Faults};
ghost use Rattle.forth83_c.specs.Kept.{IsKept, IsRecord};

/// A record of a machine keeps one state. So what a call says of the machine that a record kept, it says of that one alone.
pub fn record_law()
    ensures one { (k : Forth83) (s t : State) → IsKept k s → IsKept k t → s ≡ t }
    ensures some { (k : Forth83) → IsRecord k → (s : State) × IsKept k s }
{}

/// Typed bytes may be given in pieces: a call that goes on with those that the last call did not read, and more after them, comes to where
/// one call comes that was given all of them, and both show together what that shows.
pub fn pieces_law()
    ensures { (calling : Bool) (f g h : Forth83Faults) (s t u : State) (typed unread more unread' shown shown' : List ℕ)
        (limit left left' : ℕ) → IsDriven calling f s typed limit g t unread shown left →
        IsDriven calling g t (unread ++ more) left h u unread' shown' left' →
        IsDriven calling f s (typed ++ more) limit h u unread' (shown ++ shown') left' }
{}
