//! Digits in memory that are read after a number (CONVERT).

ghost use Rattle.std.specs.Prelude.{◌≡◌, ◌+◌, length};
ghost use Rattle.cells.specs.Cell.{wrap};
ghost use Rattle.memory.specs.Bytes.{bytes};
ghost use Rattle.memory.specs.Mirrored.{stored};
ghost use Rattle.number_text.specs.Digits.{leading_digits, continued};
ghost use Rattle.number_text.specs.Conversion.{IsConverted};

use crate::base::{BadBase, base_of};
use crate::digits::digit_of;
use memory::Memory;

/// The number with the digits from `at` on after its own, and the place of the first byte that is none.
#[tactic(auto, using(crate::proofs::Conversions::runs, memory::proofs::Ranges::ranges))]
fn converted(memory: &Memory, number: u32, at: u16, base: u16) -> (u32, u16)
    ensures number { result.0 ≡ continued base number (leading_digits base (bytes (stored memory.now) at 65535)) }
    ensures place { result.1 ≡ wrap (at + length (leading_digits base (bytes (stored memory.now) at 65535))) }
{
    let _ = memory.len();
    let mut value = number;
    let mut i = 0u16;
    while i < 65535 {
        let Some(digit) = digit_of(memory.byte_in(at, 65535, i), base) else {
            return (value, at.wrapping_add(i));
        };
        value = value
            .wrapping_mul(u32::from(base))
            .wrapping_add(u32::from(digit));
        i += 1;
    }
    (value, at.wrapping_add(i))
}

/// Reads digits of BASE from `at + 1` on: each makes the number its product by BASE and the digit, modulo 2^32.
///
/// The address is that of the first byte that is no digit below BASE, or `at` after 65,535 digits.
/// `BadBase` if BASE is outside 2 to 72. This is CONVERT of the Standard.
#[tactic(auto, unfolding(crate::specs::Conversion::digits_behind, crate::specs::Conversion::address_behind))]
pub fn convert(memory: &Memory, number: u32, at: u16) -> Result<(u32, u16), BadBase>
    ensures { IsConverted (stored memory.now) number at result }
{
    let base = base_of(memory)?;
    Ok(converted(memory, number, at.wrapping_add(1), base))
}
