//! Laws of the rows.

ghost use Rattle.std.specs.Prelude.{ℕ, List};
ghost use Rattle.plain_rows.specs.MemoryRows.{trimmed, IsTrimmed};
ghost use Rattle.plain_rows.specs.Plain.{IsPlain};
ghost use Rattle.plain_rows.specs.Table.{control, stack, cells, doubles, memory};
ghost use Rattle.machine_parts.specs.Whole.{Whole};

/// A plain row asks nothing and leaves the buffers as they are. If it ends with a fault or with an abort, all is as
/// it was.
pub fn plain_law()
    ensures control { (n w : ℕ) (s : Whole) → IsPlain s (control n w s) }
    ensures stack { (n : ℕ) (s : Whole) → IsPlain s (stack n s) }
    ensures cells { (n : ℕ) (s : Whole) → IsPlain s (cells n s) }
    ensures doubles { (n : ℕ) (s : Whole) → IsPlain s (doubles n s) }
    ensures memory { (n : ℕ) (s : Whole) → IsPlain s (memory n s) }
{}

/// What `-TRAILING` leaves is the greatest number up to `n` that is 0 or has a byte other than a blank before its end.
pub fn trimmed_law()
    ensures { (m : List ℕ) (a n : ℕ) → IsTrimmed m a n (trimmed m a n) }
{}
