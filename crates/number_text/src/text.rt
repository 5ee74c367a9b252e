//! Numbers that texts spell.

ghost use Rattle.std.specs.Prelude.{◌≡◌, ◌<◌, ◌==◌, ◌++◌, ℕ, List, Bool, true, length, MatchOption};
ghost use Rattle.number_text.specs.Digits.{are_digits, AreNoDigits, IsContinued};
ghost use Rattle.number_text.specs.Numbers.{IsNumber, IsNoNumber, IsSpelling, with_sign, is_minus, has_dot, behind_minus, before_dot, digit_part, is_double, spelled};

use crate::digits::continued;
use crate::value::Number;

/// Whether a text begins with `-`, and what is after it.
#[tactic(auto, unfolding(crate::specs::Numbers::is_minus))]
fn split_minus(text: &[u8]) -> (bool, &[u8])
    ensures minus { result.0 ≡ is_minus text.now }
    ensures rest { result.1.now ≡ behind_minus text.now }
{
    if text.is_empty() {
        return (false, text);
    }
    if text[0] != b'-' {
        return (false, text);
    }
    (true, &text[1..])
}

/// Whether a text ends with `.`, and what is before it.
#[tactic(auto, unfolding(crate::specs::Numbers::has_dot))]
fn split_dot(text: &[u8]) -> (bool, &[u8])
    ensures dot { result.0 ≡ has_dot text.now }
    ensures rest { result.1.now ≡ before_dot text.now }
{
    if text.is_empty() {
        return (false, text);
    }
    let last = text.len() - 1;
    if text[last] != b'.' {
        return (false, text);
    }
    (true, &text[..last])
}

/// A value with the sign that was read, modulo 2^32.
fn negated(value: u32, minus: bool) -> u32
    ensures { result ≡ with_sign minus value }
{
    if minus {
        return 0u32.wrapping_sub(value);
    }
    value
}

/// The number that a text spells in a base: an optional `-`, one or more digits below the base, an optional last `.`.
///
/// With the `.` it is a double, modulo 2^32; else a single, the low 16 bits. None if the text spells no number.
#[tactic(auto, using(crate::proofs::Values::value_is), unfolding(crate::specs::Numbers::is_number, crate::specs::Numbers::is_double, crate::specs::Numbers::number_value))]
pub fn number(text: &[u8], base: u16) -> Option<Number>
    ensures { MatchOption result (IsNoNumber base text.now) (IsNumber base text.now) }
{
    let (minus, unsigned) = split_minus(text);
    let (dot, digits) = split_dot(unsigned);
    if digits.is_empty() {
        return None;
    }
    let Some(magnitude) = continued(0, digits, base) else {
        return None;
    };
    let value = negated(magnitude, minus);
    if dot {
        return Some(Number::Double(value));
    }
    Some(Number::Single((value % 65536) as u16))
}

/// Whether a text that comes in two pieces, neither of them empty, begins with `-` and ends with `.` behind that, and what is between.
#[tactic(auto, using(crate::proofs::Joined::minus_joined, crate::proofs::Joined::double_joined, crate::proofs::Joined::parts_joined))]
fn split_pieces<'h, 't>(head: &'h [u8], tail: &'t [u8]) -> (bool, bool, &'h [u8], &'t [u8])
    requires head { 0 < length head.now }
    requires tail { 0 < length tail.now }
    ensures minus { result.0 ≡ is_minus (head.now ++ tail.now) }
    ensures dot { result.1 ≡ is_double (head.now ++ tail.now) }
    ensures digits { result.2.now ++ result.3.now ≡ digit_part (head.now ++ tail.now) }
{
    let (minus, front) = split_minus(head);
    let (dot, back) = split_dot(tail);
    (minus, dot, front, back)
}

/// What the digits of two pieces stand for, modulo 2^32.
#[tactic(auto, using(crate::proofs::Joined::continued_joined, crate::proofs::Joined::digits_joined))]
fn magnitude_of(front: &[u8], back: &[u8], base: u16) -> Option<u32>
    ensures { MatchOption result (AreNoDigits base (front.now ++ back.now)) (IsContinued base 0 (front.now ++ back.now)) }
{
    let Some(begun) = continued(0, front, base) else {
        return None;
    };
    continued(begun, back, base)
}

/// Whether both pieces are empty.
fn are_empty(front: &[u8], back: &[u8]) -> bool
    ensures { result ≡ (length (front.now ++ back.now) == 0) }
{
    front.is_empty() && back.is_empty()
}

/// The same of a text that comes in two pieces, neither of them empty.
#[tactic(auto, using(crate::proofs::Values::value_is), unfolding(crate::specs::Numbers::is_number, crate::specs::Numbers::number_value))]
pub fn number_of_pieces(head: &[u8], tail: &[u8], base: u16) -> Option<Number>
    requires head { 0 < length head.now }
    requires tail { 0 < length tail.now }
    ensures { MatchOption result (IsNoNumber base (head.now ++ tail.now)) (IsNumber base (head.now ++ tail.now)) }
{
    let (minus, dot, front, back) = split_pieces(head, tail);
    if are_empty(front, back) {
        return None;
    }
    let Some(magnitude) = magnitude_of(front, back, base) else {
        return None;
    };
    let value = negated(magnitude, minus);
    if dot {
        return Some(Number::Double(value));
    }
    Some(Number::Single((value % 65536) as u16))
}

/// The law of numbers: a text of an optional `-`, one or more digits and an optional `.` is a number of their value,
/// and every text is put together so from the parts that it is tested by.
pub fn number_law()
    ensures read { (base : ℕ) (ds : List ℕ) (minus dot : Bool) → base < 65536 → 0 < length ds →
        are_digits base ds ≡ true →
        IsSpelling base (spelled minus ds dot) minus ds dot }
    ensures parts { (text : List ℕ) → text ≡ spelled (is_minus text) (digit_part text) (is_double text) }
{}
