//! Numbers, as one dialect or another spells them.

ghost use Rattle.std.specs.Prelude.{◌≡◌};
ghost use Rattle.survey.specs.Numbers as numbers;

/// Whether all bytes are decimal digits, and there are some.
fn is_decimal(digits: &[u8]) -> bool {
    !digits.is_empty() && digits.iter().all(|byte| byte.is_ascii_digit())
}

/// Whether all bytes are digits of base 16, and there are some.
fn is_hexadecimal(digits: &[u8]) -> bool {
    !digits.is_empty() && digits.iter().all(|byte| byte.is_ascii_hexdigit())
}

/// Whether all bytes are digits of base 2, and there are some.
fn is_binary(digits: &[u8]) -> bool {
    !digits.is_empty() && digits.iter().all(|byte| matches!(*byte, b'0' | b'1'))
}

/// Whether the first byte is a decimal digit.
fn begins_with_digit(word: &[u8]) -> bool
    ensures { result ≡ numbers.begins_with_digit word.now }
{
    match word {
        [first, ..] => first.is_ascii_digit(),
        [] => false,
    }
}

/// A word without a minus before it.
fn unsigned(word: &[u8]) -> &[u8] {
    match word {
        [b'-', digits @ ..] => digits,
        _ => word,
    }
}

/// A word without this byte at its end.
fn without_last(word: &[u8], last: u8) -> &[u8] {
    match word {
        [digits @ .., end] if *end == last => digits,
        _ => word,
    }
}

/// Whether the word is a number of digits, beginning with one, with dots, commas, slashes, colons and hyphens between or after them.
fn is_marked(word: &[u8]) -> bool {
    begins_with_digit(word)
        && word.iter().all(|byte| byte.is_ascii_digit()
            || matches!(*byte, b'.' | b',' | b'/' | b':' | b'-'))
}

/// Whether the word is a number of base 16 that begins with a decimal digit, and may end with an H.
fn is_assembler_number(word: &[u8]) -> bool {
    let digits = match word {
        [digits @ .., b'H' | b'h'] => digits,
        _ => word,
    };
    begins_with_digit(word) && is_hexadecimal(digits)
}

/// Whether the word has the sign of its base before its digits.
fn is_prefixed(word: &[u8]) -> bool {
    match word {
        [b'.', digits @ ..] | [b'&', digits @ ..] => is_decimal(digits),
        [b'$', digits @ ..] => is_hexadecimal(digits),
        [b'%', digits @ ..] => is_binary(digits),
        _ => false,
    }
}

/// Whether a word is a number in one of the dialects; in base 16, if the source sets that.
pub fn is_number(word: &[u8], is_base16: bool) -> bool {
    let digits = unsigned(word);
    is_marked(digits)
        || is_prefixed(digits)
        || is_assembler_number(digits)
        || is_base16 && is_hexadecimal(without_last(digits, b'.'))
}

/// Whether all bytes are digits of base 16 in capitals.
fn is_capital_hexadecimal(digits: &[u8]) -> bool {
    digits
        .iter()
        .all(|byte| matches!(*byte, b'0'..=b'9' | b'A'..=b'F'))
}

/// Whether a word, in capitals, is a number without a mark.
pub fn is_plain(word: &[u8]) -> bool {
    if let [b'0', _, ..] = word {
        if is_capital_hexadecimal(without_last(word, b'H')) && word.len() > 2 {
            return true;
        }
    }
    match unsigned(word) {
        [b'$', digits @ ..] => !digits.is_empty() && is_capital_hexadecimal(digits),
        digits => begins_with_digit(digits) && is_capital_hexadecimal(digits),
    }
}

/// A number that a word spells.
#[derive(Clone, Copy, Debug, PartialEq, Eq, Drop)]
pub struct Number {
    pub is_negative: bool,
    pub size: u32,
}

impl Number {
    /// Its 16 low bits.
    pub fn low(self) -> u32
        ensures { result ≡ numbers.low self.is_negative self.size }
    {
        let low = self.size % 65536;
        if self.is_negative {
            (65536 - low) % 65536
        } else {
            low
        }
    }

    /// The number, or 0 if it is below that.
    pub fn above_0(self) -> u32
        ensures { result ≡ numbers.above_0 self.is_negative self.size }
    {
        if self.is_negative { 0 } else { self.size }
    }
}

/// The value of a digit, in capitals.
fn digit(byte: u8) -> Option<u32> {
    match byte {
        b'0'..=b'9' => Some(u32::from(byte - b'0')),
        b'A'..=b'F' => Some(u32::from(byte - b'A') + 10),
        _ => None,
    }
}

/// The number of these digits, if they are all below the base, and it has no more than 32 bits.
fn size_of_digits(digits: &[u8], base: u32) -> Option<u32> {
    if digits.is_empty() {
        return None;
    }
    let mut size = 0u32;
    for byte in digits {
        let value = digit(*byte)?;
        if value >= base {
            return None;
        }
        size = size.checked_mul(base)?.checked_add(value)?;
    }
    Some(size)
}

/// Whether a word, in capitals, is a number of base 16 by its digits, or by an H at their end.
fn is_base16(word: &[u8], marked: &[u8], digits: &[u8]) -> bool {
    is_plain(word) && (digits.len() < marked.len() || !is_decimal(digits))
}

/// The number that a word, in capitals, spells in this base or with a sign or digits of base 16; None if it is no number.
pub fn value(word: &[u8], base: u32) -> Option<Number> {
    let (base, marked) = match unsigned(word) {
        [b'$', digits @ ..] => (16, digits),
        digits => (base, digits),
    };
    let digits = without_last(marked, b'H');
    let base = if is_base16(word, marked, digits) {
        16
    } else {
        base
    };
    let size = size_of_digits(digits, base)?;
    Some(Number {
        is_negative: word.starts_with(b"-"),
        size,
    })
}

/// Whether a word, in capitals, is digits, a colon, and digits and colons.
pub fn has_colon(word: &[u8]) -> bool {
    let digits = unsigned(word);
    let Some(at) = digits.iter().position(|byte| *byte == b':') else {
        return false;
    };
    let (before, after) = digits.split_at(at.min(digits.len()));
    is_capital_hexadecimal(before)
        && before.iter().any(|byte| byte.is_ascii_digit())
        && after.len() > 1
        && after
            .iter()
            .all(|byte| byte.is_ascii_digit() || *byte == b':')
}

/// Whether a word is decimal numbers with commas, slashes or hyphens between them.
pub fn is_punctuated(word: &[u8]) -> bool {
    let digits = without_last(unsigned(word), b'.');
    let is_mark = |byte: &u8| matches!(*byte, b',' | b'/' | b'-');
    digits
        .iter()
        .any(|byte| matches!(*byte, b',' | b'/' | b'-'))
        && digits.split(is_mark).all(is_decimal)
}

/// Whether a word, in capitals, is digits with the sign of their base before them.
pub fn has_base_sign(word: &[u8]) -> bool {
    match unsigned(word) {
        [b'$' | b'%' | b'&', digits @ ..] => !digits.is_empty() && is_capital_hexadecimal(digits),
        _ => false,
    }
}
