//! Rows 96 to 107: memory.

#![tactic(auto, using(machine_parts::proofs::Takes::takes))]

ghost use Rattle.std.specs.Prelude.{◌≡◌};
ghost use Rattle.memory.specs.Mirrored.{stored};
ghost use Rattle.plain_rows.specs.MemoryRows.{fetch, store, plus_store, two_store, cmove, dash_trailing, trimmed, c_fetch, c_store, two_fetch, cmove_down, fill, count};

use machine_parts::faults::DATA_UNDERFLOW;
use machine_parts::leaves;
use machine_parts::parts::{Outcome, Parts};
use memory::Memory;

#[tactic(auto, using(crate::proofs::Trimmed::trimmed_none, crate::proofs::Trimmed::trimmed_more))]
fn trim(memory: &Memory, a: u16, u: u16) -> u16
    ensures { result ≡ trimmed (stored memory.now) a u }
{
    let mut n = u;
    while n > 0 && memory.byte(a.wrapping_add(n - 1)) == b' ' {
        n -= 1;
    }
    n
}

/// 96 `@` ( a -- x )
pub fn fetch(parts: &mut Parts) -> Outcome
    ensures { (parts.new, result) ≡ fetch parts.old }
{
    let Some(a) = parts.values.pick(0) else {
        return Outcome::Fault(DATA_UNDERFLOW);
    };
    let x = parts.memory.cell(a);
    leaves!(parts, 1, [x])
}

/// 97 `!` ( x a -- )
pub fn store(parts: &mut Parts) -> Outcome
    ensures { (parts.new, result) ≡ store parts.old }
{
    let Some((x, a)) = parts.values.top2() else {
        return Outcome::Fault(DATA_UNDERFLOW);
    };
    parts.values.lower(2);
    parts.set_cell(a, x);
    Outcome::Done
}

/// 98 `C@` ( a -- c )
pub fn c_fetch(parts: &mut Parts) -> Outcome
    ensures { (parts.new, result) ≡ c_fetch parts.old }
{
    let Some(a) = parts.values.pick(0) else {
        return Outcome::Fault(DATA_UNDERFLOW);
    };
    let c = u16::from(parts.memory.byte(a));
    leaves!(parts, 1, [c])
}

/// 99 `C!` ( c a -- )
pub fn c_store(parts: &mut Parts) -> Outcome
    ensures { (parts.new, result) ≡ c_store parts.old }
{
    let Some((c, a)) = parts.values.top2() else {
        return Outcome::Fault(DATA_UNDERFLOW);
    };
    parts.values.lower(2);
    parts.set_byte(a, (c % 256) as u8);
    Outcome::Done
}

/// 100 `+!` ( x a -- )
pub fn plus_store(parts: &mut Parts) -> Outcome
    ensures { (parts.new, result) ≡ plus_store parts.old }
{
    let Some((x, a)) = parts.values.top2() else {
        return Outcome::Fault(DATA_UNDERFLOW);
    };
    parts.values.lower(2);
    let sum = parts.memory.cell(a).wrapping_add(x);
    parts.set_cell(a, sum);
    Outcome::Done
}

/// 101 `2@` ( a -- d )
pub fn two_fetch(parts: &mut Parts) -> Outcome
    ensures { (parts.new, result) ≡ two_fetch parts.old }
{
    let Some(a) = parts.values.pick(0) else {
        return Outcome::Fault(DATA_UNDERFLOW);
    };
    let high = parts.memory.cell(a);
    let low = parts.memory.cell(a.wrapping_add(2));
    leaves!(parts, 1, [low, high])
}

/// 102 `2!` ( d a -- )
pub fn two_store(parts: &mut Parts) -> Outcome
    ensures { (parts.new, result) ≡ two_store parts.old }
{
    let Some((low, high, a)) = parts.values.top3() else {
        return Outcome::Fault(DATA_UNDERFLOW);
    };
    parts.values.lower(3);
    parts.set_cell(a, high);
    parts.set_cell(a.wrapping_add(2), low);
    Outcome::Done
}

/// 103 `CMOVE` ( a1 a2 u -- )
pub fn cmove(parts: &mut Parts) -> Outcome
    ensures { (parts.new, result) ≡ cmove parts.old }
{
    let Some((a1, a2, u)) = parts.values.top3() else {
        return Outcome::Fault(DATA_UNDERFLOW);
    };
    parts.values.lower(3);
    parts.move_up(a1, a2, u);
    Outcome::Done
}

/// 104 `CMOVE>` ( a1 a2 u -- )
pub fn cmove_down(parts: &mut Parts) -> Outcome
    ensures { (parts.new, result) ≡ cmove_down parts.old }
{
    let Some((a1, a2, u)) = parts.values.top3() else {
        return Outcome::Fault(DATA_UNDERFLOW);
    };
    parts.values.lower(3);
    parts.move_down(a1, a2, u);
    Outcome::Done
}

/// 105 `FILL` ( a u c -- )
pub fn fill(parts: &mut Parts) -> Outcome
    ensures { (parts.new, result) ≡ fill parts.old }
{
    let Some((a, u, c)) = parts.values.top3() else {
        return Outcome::Fault(DATA_UNDERFLOW);
    };
    parts.values.lower(3);
    parts.fill(a, u, (c % 256) as u8);
    Outcome::Done
}

/// 106 `COUNT` ( a -- a+1 c )
pub fn count(parts: &mut Parts) -> Outcome
    ensures { (parts.new, result) ≡ count parts.old }
{
    let Some(a) = parts.values.pick(0) else {
        return Outcome::Fault(DATA_UNDERFLOW);
    };
    let c = u16::from(parts.memory.byte(a));
    leaves!(parts, 1, [a.wrapping_add(1), c])
}

/// 107 `-TRAILING` ( a u -- a u2 )
pub fn dash_trailing(parts: &mut Parts) -> Outcome
    ensures { (parts.new, result) ≡ dash_trailing parts.old }
{
    let Some((a, u)) = parts.values.top2() else {
        return Outcome::Fault(DATA_UNDERFLOW);
    };
    let u2 = trim(parts.memory, a, u);
    leaves!(parts, 2, [a, u2])
}
