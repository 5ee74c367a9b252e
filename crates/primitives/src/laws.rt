//! Laws of the rows.

ghost use Rattle.std.specs.Prelude.{◌≡◌, ℕ, Option};
ghost use Rattle.primitives.specs.Stops.{StopsKeeping};
ghost use Rattle.machine_parts.specs.Whole.{Whole, at_place};
ghost use Rattle.primitives.specs.Table.{row};

/// A row that ends with a fault, with an abort or with a request leaves memory, both stacks, `ip` and `pending` as
/// they were, whatever its number.
pub fn stops_law()
    ensures { (n w : ℕ) (s : Whole) → StopsKeeping s (row n w s) }
{}

/// No row reads where memory lies, or changes it: with memory at another place each row comes to the same, and memory is
/// at that place then.
pub fn place_law()
    ensures { (n w : ℕ) (p : Option ℕ) (s : Whole) → row n w (at_place p s) ≡ (at_place p (row n w s).0, (row n w s).1) }
{}
