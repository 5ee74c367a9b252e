//! Rows 128 to 134: pictures of numbers, and numbers that are read.

#![tactic(auto, using(machine_parts::proofs::Takes::takes, crate::proofs::Beside::holding))]

ghost use Rattle.std.specs.Prelude.{◌≡◌};
ghost use Rattle.cells.specs.Cell.{difference};
ghost use Rattle.memory.specs.Bytes.{cell};
ghost use Rattle.memory.specs.Mirrored.{stored};
ghost use Rattle.memory.specs.declared.system.TheConstants.{HLD};
ghost use Rattle.primitives.specs.Numbers.{open_picture, picture_digit, picture_digits, close_picture, hold, sign, convert};

use machine_parts::faults::{BAD_BASE, DATA_UNDERFLOW};
use machine_parts::leaves;
use machine_parts::parts::{Outcome, Parts};
use memory::Memory;
use memory::system::HLD;
use plain_rows::double_of;

/// How many digits a double has at most: in base 2.
const MOST_DIGITS: u16 = 32;

/// Where the next byte of the picture goes.
fn next_place(memory: &Memory) -> u16
    ensures { result ≡ difference (cell (stored memory.now) HLD) 1 }
{
    memory.cell(HLD).wrapping_sub(1)
}

/// 128 `<#` ( -- )
#[tactic(auto, using(name_index::proofs::Writes::writes), unfolding(number_text::specs::Picture::opened))]
pub fn open_picture(parts: &mut Parts) -> Outcome
    ensures { (parts.new, result) ≡ open_picture parts.old }
{
    number_text::open_picture(parts.memory);
    Outcome::Done
}

/// 129 `#` ( ud -- ud2 )
pub fn picture_digit(parts: &mut Parts) -> Outcome
    ensures { (parts.new, result) ≡ picture_digit parts.old }
{
    let Some((low, high)) = parts.values.top2() else {
        return Outcome::Fault(DATA_UNDERFLOW);
    };
    let place = next_place(parts.memory);
    let Ok(rest) = number_text::picture_digit(parts.memory, double_of(low, high)) else {
        return Outcome::Fault(BAD_BASE);
    };
    parts.index.note(place, 1);
    parts.values.lower(2);
    parts.values.put((rest % 65536) as u16);
    parts.values.put((rest / 65536) as u16);
    Outcome::Done
}

/// 130 `#S` ( ud -- 0 0 )
pub fn picture_digits(parts: &mut Parts) -> Outcome
    ensures { (parts.new, result) ≡ picture_digits parts.old }
{
    let Some((low, high)) = parts.values.top2() else {
        return Outcome::Fault(DATA_UNDERFLOW);
    };
    let end = parts.memory.cell(HLD);
    let Ok(()) = number_text::picture_digits(parts.memory, double_of(low, high)) else {
        return Outcome::Fault(BAD_BASE);
    };
    parts.index.note(end.wrapping_sub(MOST_DIGITS), MOST_DIGITS);
    parts.values.lower(2);
    parts.values.put(0);
    parts.values.put(0);
    Outcome::Done
}

/// 131 `#>` ( d -- a u )
pub fn close_picture(parts: &mut Parts) -> Outcome
    ensures { (parts.new, result) ≡ close_picture parts.old }
{
    if parts.values.depth() < 2 {
        return Outcome::Fault(DATA_UNDERFLOW);
    }
    let (address, length) = number_text::close_picture(parts.memory);
    leaves!(parts, 2, [address, length])
}

/// 132 `HOLD` ( c -- )
pub fn hold(parts: &mut Parts) -> Outcome
    ensures { (parts.new, result) ≡ hold parts.old }
{
    let Some(c) = parts.values.pick(0) else {
        return Outcome::Fault(DATA_UNDERFLOW);
    };
    parts.values.lower(1);
    let place = next_place(parts.memory);
    number_text::hold(parts.memory, (c % 256) as u8);
    parts.index.note(place, 1);
    Outcome::Done
}

/// 133 `SIGN` ( n -- )
pub fn sign(parts: &mut Parts) -> Outcome
    ensures { (parts.new, result) ≡ sign parts.old }
{
    let Some(n) = parts.values.pick(0) else {
        return Outcome::Fault(DATA_UNDERFLOW);
    };
    parts.values.lower(1);
    let place = next_place(parts.memory);
    number_text::sign(parts.memory, n);
    if n >= 32768 {
        parts.index.note(place, 1);
    }
    Outcome::Done
}

/// 134 `CONVERT` ( ud a -- ud2 a2 )
pub fn convert(parts: &mut Parts) -> Outcome
    ensures { (parts.new, result) ≡ convert parts.old }
{
    let Some((low, high, at)) = parts.values.top3() else {
        return Outcome::Fault(DATA_UNDERFLOW);
    };
    let Ok((number, behind)) = number_text::convert(parts.memory, double_of(low, high), at) else {
        return Outcome::Fault(BAD_BASE);
    };
    let (high, low) = ((number / 65536) as u16, (number % 65536) as u16);
    leaves!(parts, 3, [low, high, behind])
}
