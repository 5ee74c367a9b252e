//! Cells of 16 bits: division to the floor, products, and the end of a counted loop.
#![tactic(auto)]

pub mod laws;

ghost use Rattle.std.specs.Prelude.{◌≡◌, ◌≢◌, ◌*◌, ◌<◌, ◌^◌, pos, unsigned_abs, MatchOption, IsFalse};
ghost use Rattle.cells.specs.Cell.{can_divide, um_can_divide, IsDivided, IsUmDivided, floor_quotient, floor_remainder, crosses};

/// The quotient, rounded to the floor.
#[tactic(auto, unfolding(crate::specs::Cell::floor_quotient))]
fn floor_quotient(n: i64, m: i64) -> i64
    requires nonzero { m ≢ pos 0 }
    requires small { (unsigned_abs n < 2 ^ 40) × (unsigned_abs m < 2 ^ 40) }
    ensures { result ≡ floor_quotient n m }
{
    if m < 0 {
        return (-n).div_euclid(-m);
    }
    n.div_euclid(m)
}

/// The remainder, which has the divisor's sign.
#[tactic(auto, unfolding(crate::specs::Cell::floor_remainder))]
fn floor_remainder(n: i64, m: i64) -> i64
    requires nonzero { m ≢ pos 0 }
    requires small { (unsigned_abs n < 2 ^ 40) × (unsigned_abs m < 2 ^ 40) }
    ensures value { result ≡ floor_remainder n m }
    ensures small { unsigned_abs result < unsigned_abs m }
{
    if m < 0 {
        return -(-n).rem_euclid(-m);
    }
    n.rem_euclid(m)
}

/// Remainder and quotient of a double by a cell, rounded to the floor (Forth-83 `/MOD`, `*/MOD`). `None` if the
/// divisor is 0 or the quotient is outside -32,768..32,767.
#[tactic(auto, unfolding(crate::specs::Cell::can_divide))]
pub fn floor_divide(n: i32, m: i16) -> Option<(i16, i16)>
    ensures { MatchOption result (IsFalse (can_divide n m)) (IsDivided n m) }
{
    if m == 0 {
        return None;
    }
    let quotient = floor_quotient(n as i64, m as i64);
    if quotient < -32768 {
        return None;
    }
    if quotient > 32767 {
        return None;
    }
    let remainder = floor_remainder(n as i64, m as i64);
    Some((remainder as i16, quotient as i16))
}

/// The product of two unsigned cells, a double (Forth-83 `UM*`).
pub fn um_multiply(a: u16, b: u16) -> u32
    ensures { result ≡ a * b }
{
    a as u32 * b as u32
}

/// Remainder and quotient of an unsigned double by an unsigned cell (Forth-83 `UM/MOD`). `None` if the divisor is 0
/// or the quotient is above 65,535.
#[tactic(auto, unfolding(crate::specs::Cell::um_can_divide))]
pub fn um_divide(ud: u32, u: u16) -> Option<(u16, u16)>
    ensures { MatchOption result (IsFalse (um_can_divide ud u)) (IsUmDivided ud u) }
{
    if u == 0 {
        return None;
    }
    let quotient = ud / u as u32;
    if quotient >= 65536 {
        return None;
    }
    Some(((ud % u as u32) as u16, quotient as u16))
}

/// Whether a counted loop ends by a step of 1: as `crosses`.
#[tactic(auto, unfolding(crate::specs::Cell::crosses))]
pub fn ends_next(index: u16, limit: u16) -> bool
    ensures { result ≡ crosses index limit 1 }
{
    index.wrapping_add(1) == limit
}

/// Whether a counted loop ends: its step, a signed cell, takes the index over the boundary between `limit - 1` and
/// `limit`, in either direction (Forth-83 `+LOOP`).
#[tactic(auto, unfolding(crate::specs::Cell::crosses))]
pub fn crosses(index: u16, limit: u16, step: u16) -> bool
    ensures { result ≡ crosses index limit step }
{
    let place = index.wrapping_sub(limit).wrapping_add(32768).cast_signed() as i32;
    let next = place + step.cast_signed() as i32;
    next < -32768 || next > 32767
}
