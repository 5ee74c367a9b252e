//! Laws of requests.

ghost use Rattle.std.specs.Prelude.{◌≡◌, ◌<◌, ◌≤◌, ◌++◌, ℕ, List, All, true, Bool};
ghost use Rattle.machine.specs.State.{State};
ghost use Rattle.serving.specs.Registers.{IsMachine, SharesMemory, cells_bytes, register_cells};
ghost use Rattle.serving.specs.Served.{Served, Serves, resumed};
ghost use Rattle.serving.specs.Taking.{IsCut, frames_bytes};
ghost use Rattle.serving.specs.Requests.{Frame, PutBack, Wish, CanBeSpelled, framed, is_known, wish_frame, wished};

/// Each request that a frame can spell is read from the frame that spells it, and from no other.
pub fn spelling_law()
    ensures there { (w : Wish) → CanBeSpelled w → wished (wish_frame w).kind (wish_frame w).body ≡ w }
    ensures back { (kind : ℕ) (body : List ℕ) → All (λ v. v < 256) body → is_known (wished kind body) ≡ true →
        framed kind body ≡ wish_frame (wished kind body) }
{}

/// Bytes are those of one list of frames only, and of one cut frame after them.
pub fn framing_law()
    ensures { (fs gs : List Frame) (c d : List ℕ) → IsCut c → IsCut d →
        frames_bytes fs ++ c ≡ frames_bytes gs ++ d → (fs ≡ gs) × (c ≡ d) }
{}

/// The registers that were given of a machine, put back over the same memory and device, are that machine.
pub fn kept_law()
    ensures { (count : ℕ) (s t : State) (whole : Bool) (r : Served) → IsMachine t → SharesMemory s t →
        Serves count s (PutBack (cells_bytes (register_cells t))) whole r → r ≡ resumed t }
{}
