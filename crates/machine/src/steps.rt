//! The two steps of a tick: a token is taken, and what it means is done.

#![tactic(auto, unfolding(machine_parts::specs::Row::room, machine_parts::specs::Row::room_r))]

ghost use Rattle.std.specs.Prelude.{◌≡◌};
ghost use Rattle.machine.specs.Tick.{taken, executed, thread};

use machine_parts::faults::{DATA_OVERFLOW, RETURN_OVERFLOW};
use machine_parts::parts::{Outcome, Parts};
use primitives::row;

/// Takes the token.
#[tactic(auto, unfolding(crate::specs::Tick::taken))]
pub fn take_token(parts: &mut Parts) -> u16
    ensures { (result, parts.new) ≡ taken parts.old }
{
    match parts.pending {
        Some(token) => {
            parts.pending = None;
            token
        }
        None => {
            let token = parts.memory.cell(parts.ip);
            parts.ip = parts.ip.wrapping_add(2);
            token
        }
    }
}

/// A DOES> thread at `at`.
fn enter_thread(parts: &mut Parts, at: u16, token: u16) -> Outcome
    ensures { (parts.new, result) ≡ thread at token parts.old }
{
    if parts.values.is_full() {
        return Outcome::Fault(DATA_OVERFLOW);
    }
    if parts.returns.push(parts.ip).is_err() {
        return Outcome::Fault(RETURN_OVERFLOW);
    }
    parts.values.put(token.wrapping_add(2));
    parts.ip = at;
    Outcome::Done
}

/// Runs what the token means.
#[tactic(auto, unfolding(crate::specs::Tick::executed))]
pub fn execute(parts: &mut Parts, token: u16) -> Outcome
    ensures { (parts.new, result) ≡ executed token parts.old }
{
    let code = parts.memory.cell(token);
    if code < 256 {
        return row(parts, code as u8, token);
    }
    enter_thread(parts, code, token)
}
