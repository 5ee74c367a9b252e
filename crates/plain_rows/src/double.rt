//! Rows 80 to 90: doubles.

#![tactic(auto, using(machine_parts::proofs::Takes::takes))]

ghost use Rattle.std.specs.Prelude.{◌≡◌, ◌≤◌, length, drop};
ghost use Rattle.machine_parts.specs.Row.{leaves, double, ◌▸▸◌};
ghost use Rattle.plain_rows.specs.Double.{d_magnitude, d_halved, d_least, d_greatest, d_plus, d_minus, d_negate, d_absolute, d_two_slash, d_min, d_max, d_equals, d_zero_equals, d_less, du_less};

use crate::cell::flag;
use crate::ending::from_two;
use machine_parts::faults::DATA_UNDERFLOW;
use machine_parts::leaves;
use machine_parts::parts::{Outcome, Parts};

/// The double of a low and a high cell.
pub fn double_of(low: u16, high: u16) -> u32
    ensures { result ≡ double low high }
{
    u32::from(high) * 65536 + u32::from(low)
}

fn leave_double(parts: &mut Parts, taken: usize, n: u32) -> Outcome
    requires { taken ≤ length parts.old.values }
    ensures { (parts.new, result) ≡ leaves parts.old (drop taken parts.old.values ▸▸ n) }
{
    leaves!(parts, taken, [(n % 65536) as u16, (n / 65536) as u16])
}

fn magnitude(n: u32) -> u32
    ensures { result ≡ d_magnitude n }
{
    if n < 2_147_483_648 {
        n
    } else {
        0u32.wrapping_sub(n)
    }
}

fn half(n: u32) -> u32
    ensures { result ≡ d_halved n }
{
    n.cast_signed().div_euclid(2).cast_unsigned()
}

/// The lesser of two signed doubles.
fn lesser(m: u32, n: u32) -> u32
    ensures { result ≡ d_least m n }
{
    if n.cast_signed() < m.cast_signed() {
        n
    } else {
        m
    }
}

/// The greater of two signed doubles.
fn greater(m: u32, n: u32) -> u32
    ensures { result ≡ d_greatest m n }
{
    if m.cast_signed() < n.cast_signed() {
        n
    } else {
        m
    }
}

/// A row whose stack effect takes a double, and leaves one.
macro_rules! double_from_one {
    ($parts:ident, ($d:ident) -> $given:expr) => {{
        let Some((low, high)) = $parts.values.top2() else {
            return Outcome::Fault(DATA_UNDERFLOW);
        };
        let $d = double_of(low, high);
        leave_double($parts, 2, $given)
    }};
}

/// A row whose stack effect takes two doubles, and leaves one.
macro_rules! double_from_two {
    ($parts:ident, ($d1:ident, $d2:ident) -> $given:expr) => {{
        let Some((low1, high1, low2, high2)) = $parts.values.top4() else {
            return Outcome::Fault(DATA_UNDERFLOW);
        };
        let ($d1, $d2) = (double_of(low1, high1), double_of(low2, high2));
        leave_double($parts, 4, $given)
    }};
}

/// A row whose stack effect takes two doubles, and leaves a cell.
macro_rules! cell_from_doubles {
    ($parts:ident, ($d1:ident, $d2:ident) -> $given:expr) => {{
        let Some((low1, high1, low2, high2)) = $parts.values.top4() else {
            return Outcome::Fault(DATA_UNDERFLOW);
        };
        let ($d1, $d2) = (double_of(low1, high1), double_of(low2, high2));
        leaves!($parts, 4, [$given])
    }};
}

/// 80 `D+` ( d1 d2 -- d )
pub fn d_plus(parts: &mut Parts) -> Outcome
    ensures { (parts.new, result) ≡ d_plus parts.old }
{
    double_from_two!(parts, (d1, d2) -> d1.wrapping_add(d2))
}

/// 81 `D-` ( d1 d2 -- d )
pub fn d_minus(parts: &mut Parts) -> Outcome
    ensures { (parts.new, result) ≡ d_minus parts.old }
{
    double_from_two!(parts, (d1, d2) -> d1.wrapping_sub(d2))
}

/// 82 `DNEGATE` ( d -- d2 )
pub fn d_negate(parts: &mut Parts) -> Outcome
    ensures { (parts.new, result) ≡ d_negate parts.old }
{
    double_from_one!(parts, (d) -> 0u32.wrapping_sub(d))
}

/// 83 `DABS` ( d -- d2 )
pub fn d_absolute(parts: &mut Parts) -> Outcome
    ensures { (parts.new, result) ≡ d_absolute parts.old }
{
    double_from_one!(parts, (d) -> magnitude(d))
}

/// 84 `D2/` ( d -- d2 )
pub fn d_two_slash(parts: &mut Parts) -> Outcome
    ensures { (parts.new, result) ≡ d_two_slash parts.old }
{
    double_from_one!(parts, (d) -> half(d))
}

/// 85 `DMIN` ( d1 d2 -- d )
pub fn d_min(parts: &mut Parts) -> Outcome
    ensures { (parts.new, result) ≡ d_min parts.old }
{
    double_from_two!(parts, (d1, d2) -> lesser(d1, d2))
}

/// 86 `DMAX` ( d1 d2 -- d )
pub fn d_max(parts: &mut Parts) -> Outcome
    ensures { (parts.new, result) ≡ d_max parts.old }
{
    double_from_two!(parts, (d1, d2) -> greater(d1, d2))
}

/// 87 `D=` ( d1 d2 -- t )
pub fn d_equals(parts: &mut Parts) -> Outcome
    ensures { (parts.new, result) ≡ d_equals parts.old }
{
    cell_from_doubles!(parts, (d1, d2) -> flag(d1 == d2))
}

/// 88 `D0=` ( d -- t )
pub fn d_zero_equals(parts: &mut Parts) -> Outcome
    ensures { (parts.new, result) ≡ d_zero_equals parts.old }
{
    from_two!(parts, (low, high) -> [flag(double_of(low, high) == 0)])
}

/// 89 `D<` ( d1 d2 -- t )
pub fn d_less(parts: &mut Parts) -> Outcome
    ensures { (parts.new, result) ≡ d_less parts.old }
{
    cell_from_doubles!(parts, (d1, d2) -> flag(d1.cast_signed() < d2.cast_signed()))
}

/// 90 `DU<` ( ud1 ud2 -- t )
pub fn du_less(parts: &mut Parts) -> Outcome
    ensures { (parts.new, result) ≡ du_less parts.old }
{
    cell_from_doubles!(parts, (ud1, ud2) -> flag(ud1 < ud2))
}
