//! Numbers that a cell has no room for.

ghost use Rattle.std.specs.Prelude.{◌≡◌, ◌≤◌};
ghost use Rattle.advice.specs.Large.{IsValue, after_sign as text_after_sign, base_of as base_said, digit, is_above as above, is_beyond as beyond, is_large};

/// What a byte shows as a digit: 0 to 9, then letters in either case; 36 if it shows none.
#[tactic(auto, unfolding(crate::specs::Large::digit))]
fn digit_of(byte: u8) -> u32
    ensures shown { result ≡ digit byte }
    ensures small { result ≤ 36 }
{
    match byte {
        b'0'..=b'9' => u32::from(byte - 48),
        b'A'..=b'Z' => u32::from(byte - 55),
        b'a'..=b'z' => u32::from(byte - 87),
        _ => 36,
    }
}

/// What digits of a base stand for, up to 65,536; none if there is no digit, or a byte that is none of the base's.
#[tactic(auto, using(crate::proofs::Sizes::digits_more, crate::proofs::Sizes::value_more, crate::proofs::Sizes::digits_stop))]
fn value_of(digits: &[u8], base: u16) -> Option<u32>
    ensures { IsValue base digits.now result }
{
    if digits.is_empty() {
        return None;
    }
    let mut value = 0u32;
    for byte in digits {
        let digit = digit_of(*byte);
        if digit >= u32::from(base) {
            return None;
        }
        value = value
            .saturating_mul(u32::from(base))
            .saturating_add(digit)
            .min(65536);
    }
    Some(value)
}

/// Whether digits of a base stand for more than that.
fn is_above(digits: &[u8], base: u16, most: u32) -> bool
    requires { most ≤ 65535 }
    ensures { result ≡ above base most digits.now }
{
    match value_of(digits, base) {
        Some(value) => most < value,
        None => false,
    }
}

/// The base that a sign before a number says, or the base that is set.
fn base_of(word: &[u8], base: u16) -> u16
    ensures { result ≡ base_said word.now base }
{
    match word {
        [b'$', ..] => 16,
        [b'#', ..] => 10,
        [b'%', ..] => 2,
        _ => base,
    }
}

/// A word without the sign of its base.
fn after_sign(word: &[u8]) -> &[u8]
    ensures { result.now ≡ text_after_sign word.now }
{
    match word {
        [b'$' | b'#' | b'%', rest @ ..] => rest,
        _ => word,
    }
}

/// Whether a number, without the sign of its base, is below -32,768 or above 65,535.
fn is_beyond(number: &[u8], base: u16) -> bool
    ensures { result ≡ beyond base number.now }
{
    match number {
        [b'-', digits @ ..] => is_above(digits, base, 32768),
        digits => is_above(digits, base, 65535),
    }
}

/// Whether a word is a number that a cell has no room for: one below -32,768 or above 65,535. Bases are 2 to 36; in others no word is.
pub fn is_too_large(word: &[u8], base: u16) -> bool
    ensures { result ≡ is_large word.now base }
{
    let base = base_of(word, base);
    base >= 2 && base <= 36 && is_beyond(after_sign(word), base)
}
