//! Digits, and the bytes that show them.

ghost use Rattle.std.specs.Prelude.{◌≡◌, ◌<◌, ◌%◌, ℕ, MatchOption};
ghost use Rattle.number_text.specs.Digits.{byte_of, digit, IsDigit, IsNoDigit, IsContinued, AreNoDigits};

/// The digit that a byte shows: `0` to `9` show 0 to 9, the bytes from `A` on 10 and more.
///
/// None if the byte shows no digit below the base, whatever that is.
#[tactic(auto, unfolding(crate::specs::Digits::digit))]
pub fn digit_of(byte: u8, base: u16) -> Option<u8>
    ensures { MatchOption result (IsNoDigit base byte) (IsDigit base byte) }
{
    if byte < b'0' {
        return None;
    }
    let digit = if byte <= b'9' {
        byte - b'0'
    } else if byte < b'A' {
        return None;
    } else {
        byte - b'A' + 10
    };
    if u16::from(digit) < base {
        Some(digit)
    } else {
        None
    }
}

/// The byte that shows a digit: `0` to `9`, and from `A` on for 10 and more. After the last byte, which shows 200, they
/// begin at 0 again.
pub fn byte_of_digit(digit: u8) -> u8
    ensures { result ≡ byte_of digit % 256 }
{
    if digit < 10 {
        b'0' + digit
    } else {
        b'A'.wrapping_add(digit - 10)
    }
}

/// The number with the digits of a text after its own, modulo 2^32. None if a byte shows no digit below the base.
#[tactic(auto, using(crate::proofs::Values::steps))]
pub(crate) fn continued(start: u32, text: &[u8], base: u16) -> Option<u32>
    ensures { MatchOption result (AreNoDigits base text.now) (IsContinued base start text.now) }
{
    let mut number = start;
    for byte in text {
        let Some(digit) = digit_of(*byte, base) else {
            return None;
        };
        number = number
            .wrapping_mul(u32::from(base))
            .wrapping_add(u32::from(digit));
    }
    Some(number)
}

/// The law of digits: each below 72 has a byte of its own.
#[tactic(auto, unfolding(crate::specs::Digits::digit))]
pub fn digit_law()
    ensures shown { (d : ℕ) → d < 72 → digit (byte_of d) ≡ d }
    ensures read { (byte : ℕ) → digit byte < 72 → byte_of (digit byte) ≡ byte }
{}
