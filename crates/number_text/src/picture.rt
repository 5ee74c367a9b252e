//! Pictures of numbers, built in memory from their last byte down to their first. HLD holds the address of the
//! byte that was put last.

ghost use Rattle.std.specs.Prelude.{◌≡◌, ◌<◌, ◌%◌, ℕ, All, IsTrue, OnOk, [], ◌∷◌, true, length, map, reverse, slice_index};
ghost use Rattle.cells.specs.Cell.{difference};
ghost use Rattle.memory.specs.Bytes.{cell};
ghost use Rattle.memory.specs.Mirrored.{stored};
ghost use Rattle.number_text.specs.Digits.{is_base, byte_of, are_digits, expansion, value, text_value};
ghost use Rattle.number_text.specs.Picture.{pad, opened, held, signed_picture, put_down, IsDigitPictured, AreDigitsPictured, Shows};

use crate::base::{BadBase, base_of};
use crate::digits::byte_of_digit;
use memory::Memory;
use memory::system::{DP, HLD};

/// How far PAD is after HERE.
const PAD_OFFSET: u16 = 340;

/// PAD, where pictures end.
#[tactic(auto, unfolding(crate::specs::Picture::pad))]
pub fn pad(memory: &Memory) -> u16
    ensures { result ≡ pad (stored memory.now) }
{
    memory.cell(DP).wrapping_add(PAD_OFFSET)
}

/// Begins a picture: HLD is PAD. This is `<#` of the Standard.
#[tactic(auto, unfolding(crate::specs::Picture::opened))]
pub fn open_picture(memory: &mut Memory)
    ensures { stored memory.new ≡ opened (stored memory.old) }
{
    let pad = pad(memory);
    memory.set_cell(HLD, pad);
}

/// Puts a byte before the picture: HLD is lowered by one, and the byte goes there. This is HOLD of the Standard.
#[tactic(auto, unfolding(crate::specs::Picture::held))]
pub fn hold(memory: &mut Memory, byte: u8)
    ensures { stored memory.new ≡ held (stored memory.old) byte }
{
    let place = memory.cell(HLD).wrapping_sub(1);
    memory.set_cell(HLD, place);
    memory.set_byte(place, byte);
}

/// Puts `-` before the picture if `n` is negative as a signed cell. This is SIGN of the Standard.
#[tactic(auto, unfolding(crate::specs::Picture::signed_picture))]
pub fn sign(memory: &mut Memory, n: u16)
    ensures { stored memory.new ≡ signed_picture (stored memory.old) n }
{
    if n >= 32768 {
        hold(memory, b'-');
    }
}

/// The byte of a number's lowest digit.
fn lowest(number: u32, base: u32) -> u8
    requires { IsTrue (is_base base) }
    ensures { result ≡ byte_of (number % base) }
{
    byte_of_digit((number % base) as u8)
}

/// Puts the lowest digit of a number in BASE before the picture, and answers the number divided by BASE.
///
/// `BadBase`, with memory as it was, if BASE is outside 2 to 72. This is `#` of the Standard.
#[tactic(auto, unfolding(crate::specs::Picture::with_digit))]
pub fn picture_digit(memory: &mut Memory, number: u32) -> Result<u32, BadBase>
    ensures { IsDigitPictured (stored memory.old) (stored memory.new) number result }
{
    let base = u32::from(base_of(memory)?);
    hold(memory, lowest(number, base));
    Ok(number / base)
}

/// How many digits a number has.
#[tactic(auto, using(crate::proofs::Expansions::counts))]
fn digit_count(number: u32, base: u32) -> u16
    requires { IsTrue (is_base base) }
    ensures { result ≡ length (expansion base number) }
{
    let mut rest = number;
    let mut count = 1u16;
    while rest >= base {
        rest /= base;
        count += 1;
    }
    count
}

/// Puts down the digits of a number below `end`, the lowest first.
#[tactic(auto, using(crate::proofs::Expansions::puts))]
fn put_digits(memory: &mut Memory, end: u16, number: u32, base: u32)
    requires { IsTrue (is_base base) }
    ensures { stored memory.new ≡ put_down (stored memory.old) end (reverse (expansion base number)) }
{
    let mut place = end;
    let mut rest = number;
    while rest >= base {
        place = place.wrapping_sub(1);
        memory.set_byte(place, lowest(rest, base));
        rest /= base;
    }
    memory.set_byte(place.wrapping_sub(1), lowest(rest, base));
}

/// Puts all digits of a number in BASE before the picture, at least one: HLD is lowered by their count, and then
/// they are written from its old value down, the lowest first.
///
/// `BadBase`, with memory as it was, if BASE is outside 2 to 72. This is `#S` of the Standard.
#[tactic(auto, using(crate::proofs::Pictures::pictures), unfolding(crate::specs::Picture::with_digits))]
pub fn picture_digits(memory: &mut Memory, number: u32) -> Result<(), BadBase>
    ensures written { AreDigitsPictured (stored memory.old) (stored memory.new) number result }
    ensures shown { OnOk result (Shows (stored memory.old) (stored memory.new) number) }
{
    let base = u32::from(base_of(memory)?);
    let end = memory.cell(HLD);
    let count = digit_count(number, base);
    memory.set_cell(HLD, end.wrapping_sub(count));
    let _ = memory.len();
    put_digits(memory, end, number, base);
    Ok(())
}

/// The address and the length of the picture: HLD, and how far PAD is after it. This is `#>` of the Standard.
#[tactic(auto, unfolding(crate::specs::Picture::pad))]
pub fn close_picture(memory: &Memory) -> (u16, u16)
    ensures address { result.0 ≡ cell (stored memory.now) 36 }
    ensures len { result.1 ≡ difference (pad (stored memory.now)) (cell (stored memory.now) 36) }
{
    let start = memory.cell(HLD);
    (start, pad(memory).wrapping_sub(start))
}

/// The law of the expansion, of which pictures are made: its digits are below the base and stand for the number,
/// the first of them is 0 only in the one digit of 0, and there is at least one. Their bytes read as the number.
#[tactic(auto, using(crate::proofs::ExpansionLaw::expansion_laws))]
pub fn expansion_law()
    ensures value { (base number : ℕ) → IsTrue (is_base base) →
        value base (expansion base number) ≡ number }
    ensures below_base { (base number : ℕ) → IsTrue (is_base base) →
        All (λ d. d < base) (expansion base number) }
    ensures no_leading_zero { (base number : ℕ) → IsTrue (is_base base) →
        0 < number → 0 < slice_index (expansion base number) 0 }
    ensures read_back { (base number : ℕ) → IsTrue (is_base base) →
        text_value base (map byte_of (expansion base number)) ≡ number }
    ensures bytes { (base number : ℕ) → IsTrue (is_base base) →
        are_digits base (map byte_of (expansion base number)) ≡ true }
    ensures zero { (base : ℕ) → expansion base 0 ≡ 0 ∷ [] }
{}
