//! What a machine shows, put into a host's bytes.

ghost use Rattle.std.specs.Prelude.{◌≡◌, ◌+◌, ◌-◌, ◌++◌, ◌≤◌, ℕ, Bool, List, length, take, drop, IfSome};
ghost use Rattle.memory.specs.Bytes.{bytes};
ghost use Rattle.inner_interpreter.specs.Moves.{shown_bytes};
ghost use Rattle.machine.specs.State.{State};
ghost use Rattle.forth83_c.specs.Driven.{HasStopped, least_room, told_by};

use crate::stop::Stop;
use inner_interpreter::{LentMachine, Shown};
use machine_parts::parts::Span;

/// Room for what any act shows, and as much for what was shown before it.
const ROOM: usize = 131072;

/// The least room that is left before each act, by the room for all: for any act, or a byte if all is less than a large room.
#[tactic(auto, unfolding(crate::specs::Driven::least_room))]
pub fn least_room(size: usize) -> usize
    ensures { result ≡ least_room size }
{
    if ROOM <= size { 65536 } else { 1 }
}

/// Puts bytes from a place on, and answers the place after them.
#[tactic(auto, using(crate::proofs::Bytes::put_behind))]
pub fn put(out: &mut [u8], at: usize, bytes: &[u8]) -> usize
    requires { at + length bytes.now ≤ length out.old }
    ensures front { take result out.new ≡ take at out.old ++ bytes.now }
    ensures beyond { drop result out.new ≡ drop result out.old }
    ensures end { result ≡ at + length bytes.now }
    ensures len { length out.new ≡ length out.old }
{
    let end = at + bytes.len();
    out[at..end].copy_from_slice(bytes);
    end
}

/// Puts bytes of memory.
#[tactic(auto, using(crate::proofs::Bytes::append_both, crate::proofs::Bytes::beyond_both))]
fn put_span(machine: &LentMachine, out: &mut [u8], at: usize, span: Span) -> usize
    requires { at + span.len ≤ length out.old }
    ensures front { take result out.new ≡ take at out.old ++ bytes machine.now.parts.memory span.at span.len }
    ensures beyond { drop result out.new ≡ drop result out.old }
    ensures end { result ≡ at + span.len }
    ensures len { length out.new ≡ length out.old }
{
    let (front, back) = machine.memory().span(span.at, span.len);
    let seam = put(out, at, front);
    put(out, seam, back)
}

/// Puts what a move showed, or answers the bytes that do not fit: the place after what is put.
#[tactic(auto, using(crate::proofs::Bytes::append_both, crate::proofs::Bytes::beyond_both), unfolding(inner_interpreter::specs::Moves::shown_bytes, crate::specs::Driven::least_room))]
pub fn show(machine: &LentMachine, out: &mut [u8], at: usize, shown: Shown) -> (usize, Option<Stop>)
    requires inside { at ≤ length out.old }
    requires room { least_room (length out.old) ≤ length out.old - at }
    ensures front { told_by result.1 machine.now.parts.memory (take result.0 out.new)
        ≡ take at out.old ++ shown_bytes machine.now.parts.memory shown }
    ensures stopped { (calling : Bool) (s : State) (unread : List ℕ) (left : ℕ) →
        IfSome result.1 (λ stop. HasStopped calling stop s unread left (length out.new) (length out.new - result.0)) }
    ensures beyond { drop result.0 out.new ≡ drop result.0 out.old }
    ensures more { at ≤ result.0 }
    ensures end { result.0 ≤ length out.new }
    ensures len { length out.new ≡ length out.old }
{
    let room = out.len() - at;
    match shown {
        Shown::Nothing => (at, None),
        Shown::Byte(byte) => (put(out, at, &[byte]), None),
        Shown::Span(span) => {
            if usize::from(span.len) > room {
                return (at, Some(Stop::Span(span)));
            }
            (put_span(machine, out, at, span), None)
        }
        Shown::Line(span) => {
            if usize::from(span.len) >= room {
                return (at, Some(Stop::Line(span)));
            }
            let end = put_span(machine, out, at, span);
            (put(out, end, &[b' ']), None)
        }
    }
}
