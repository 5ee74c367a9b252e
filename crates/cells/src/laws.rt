//! Laws of division.

ghost use Rattle.std.specs.Prelude.{◌≡◌, ◌≢◌, ℤ, pos, ◌*ℤ◌, ◌+ℤ◌};
ghost use Rattle.cells.specs.Cell.{floor_quotient, floor_remainder, IsBetween};

/// A number is its quotient by `m` times `m`, and the remainder.
pub fn floor_law()
    ensures { (n m : ℤ) → m ≢ pos 0 → floor_quotient n m *ℤ m +ℤ floor_remainder n m ≡ n }
{}

/// The remainder is between 0 and `m`: it has the divisor's sign, and is nearer to 0.
pub fn remainder_law()
    ensures { (n m : ℤ) → m ≢ pos 0 → IsBetween (floor_remainder n m) m }
{}
