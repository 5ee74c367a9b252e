//! Rows 112 to 121: blocks, keys, lines and showing bytes.

#![tactic(auto, using(machine_parts::proofs::Takes::takes))]

ghost use Rattle.std.specs.Prelude.{◌≡◌};
ghost use Rattle.primitives.specs.Devices.{block, buffer, update, save_buffers, flush, empty_buffers, key, expect, emit, type_out};

use crate::blocks::{fetch, write_of};
use machine_parts::faults::{DATA_OVERFLOW, DATA_UNDERFLOW, NO_BLOCK};
use machine_parts::parts::{Outcome, Parts, Request, Span};
use memory::system::SPAN;

/// 112 `BLOCK` ( u -- a )
pub fn block(parts: &mut Parts) -> Outcome
    ensures { (parts.new, result) ≡ block parts.old }
{
    let Some(u) = parts.values.pick(0) else {
        return Outcome::Fault(DATA_UNDERFLOW);
    };
    match fetch(parts, u) {
        Ok(slot) => {
            let address = parts.buffers.address_of(slot);
            parts.values.lower(1);
            parts.values.put(address);
            Outcome::Done
        }
        Err(outcome) => outcome,
    }
}

/// 113 `BUFFER` ( u -- a )
#[tactic(auto, using(machine_parts::proofs::Takes::takes), unfolding(crate::specs::Devices::saves_victim))]
pub fn buffer(parts: &mut Parts) -> Outcome
    ensures { (parts.new, result) ≡ buffer parts.old }
{
    let Some(u) = parts.values.pick(0) else {
        return Outcome::Fault(DATA_UNDERFLOW);
    };
    if u32::from(u) >= parts.block_count {
        return Outcome::Fault(NO_BLOCK);
    }
    if let Some(slot) = parts.buffers.find(u) {
        let address = parts.buffers.address_of(slot);
        parts.buffers.touch(u);
        parts.values.lower(1);
        parts.values.put(address);
        return Outcome::Done;
    }
    let victim = parts.buffers.victim();
    if victim.updated {
        return write_of(&victim);
    }
    let address = parts.buffers.address_of(victim.slot);
    parts.buffers.assign(u);
    parts.values.lower(1);
    parts.values.put(address);
    Outcome::Done
}

/// 114 `UPDATE` ( -- )
pub fn update(parts: &mut Parts) -> Outcome
    ensures { (parts.new, result) ≡ update parts.old }
{
    parts.buffers.mark_front();
    Outcome::Done
}

/// 115 `SAVE-BUFFERS` ( -- )
#[tactic(auto, unfolding(crate::specs::Devices::saves))]
pub fn save_buffers(parts: &mut Parts) -> Outcome
    ensures { (parts.new, result) ≡ save_buffers parts.old }
{
    match parts.buffers.first_dirty() {
        Some(entry) => write_of(&entry),
        None => Outcome::Done,
    }
}

/// 116 `FLUSH` ( -- )
#[tactic(auto, unfolding(crate::specs::Devices::saves))]
pub fn flush(parts: &mut Parts) -> Outcome
    ensures { (parts.new, result) ≡ flush parts.old }
{
    match parts.buffers.first_dirty() {
        Some(entry) => write_of(&entry),
        None => {
            parts.buffers.unassign_all();
            Outcome::Done
        }
    }
}

/// 117 `EMPTY-BUFFERS` ( -- )
pub fn empty_buffers(parts: &mut Parts) -> Outcome
    ensures { (parts.new, result) ≡ empty_buffers parts.old }
{
    parts.buffers.unassign_all();
    Outcome::Done
}

/// 118 `KEY` ( -- c )
#[tactic(auto, unfolding(machine_parts::specs::Row::room))]
pub fn key(parts: &mut Parts) -> Outcome
    ensures { (parts.new, result) ≡ key parts.old }
{
    if parts.values.is_full() {
        return Outcome::Fault(DATA_OVERFLOW);
    }
    Outcome::Ask(Request::Key)
}

/// 119 `EXPECT` ( a u -- )
pub fn expect(parts: &mut Parts) -> Outcome
    ensures { (parts.new, result) ≡ expect parts.old }
{
    let Some((_a, u)) = parts.values.top2() else {
        return Outcome::Fault(DATA_UNDERFLOW);
    };
    if u != 0 {
        return Outcome::Ask(Request::Line { n: u });
    }
    parts.values.lower(2);
    parts.set_cell(SPAN, 0);
    Outcome::Done
}

/// 120 `EMIT` ( c -- )
pub fn emit(parts: &mut Parts) -> Outcome
    ensures { (parts.new, result) ≡ emit parts.old }
{
    let Some(c) = parts.values.pick(0) else {
        return Outcome::Fault(DATA_UNDERFLOW);
    };
    parts.values.lower(1);
    Outcome::Byte((c % 256) as u8)
}

/// 121 `TYPE` ( a u -- )
pub fn type_out(parts: &mut Parts) -> Outcome
    ensures { (parts.new, result) ≡ type_out parts.old }
{
    let Some((at, len)) = parts.values.top2() else {
        return Outcome::Fault(DATA_UNDERFLOW);
    };
    parts.values.lower(2);
    Outcome::Show(Span { at, len })
}
