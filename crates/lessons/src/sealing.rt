//! What a line must leave: numbers, a flag, or numbers whose seals a quiz has.

ghost use Rattle.std.specs.Prelude.{◌≡◌, ◌≢◌, ◌↔◌, ◌∷◌, [], IsTrue, get_or, length};
ghost use Rattle.lessons.specs.Sealing.{AreSeals, seal, turned};

use crate::trials::Kind;

/// A round of sealing.
fn turned(x: u16) -> u16
    ensures { result ≡ turned x }
{
    let y = x.wrapping_mul(40503).wrapping_add(1);
    y % 256 * 256 + y / 256
}

/// How a quiz writes a number as its answer PLACE, from 1 on, so that nobody reads it: the word SEAL of the course.
pub fn seal(number: u16, place: u16) -> u16
    ensures { result ≡ seal number place }
{
    let mixed = number ^ place.wrapping_mul(31).wrapping_add(7919);
    turned(turned(turned(turned(turned(mixed)))))
}

/// Whether these are the seals of these numbers, in this order.
fn are_seals(wanted: &[u16], left: &[u16]) -> bool
    ensures { IsTrue result ↔ AreSeals wanted.now left.now }
{
    if wanted.len() != left.len() {
        return false;
    }
    for index in 0..wanted.len() {
        let place = ((index + 1) % 65536) as u16;
        if seal(left[index], place) != wanted[index] {
            return false;
        }
    }
    true
}

/// Whether the numbers that a line left are what a trial of this kind wants.
pub fn is_left(kind: Kind, wanted: &[u16], left: &[u16]) -> bool
    ensures numbers { kind ≡ Kind.Numbers → IsTrue result ↔ (wanted.now ≡ left.now) }
    ensures no { kind ≡ Kind.No → IsTrue result ↔ (left.now ≡ 0 ∷ []) }
    ensures yes { kind ≡ Kind.Yes → IsTrue result ↔ (length left.now ≡ 1) × (get_or left.now 0 0 ≢ 0) }
    ensures sealed { kind ≡ Kind.Sealed → IsTrue result ↔ AreSeals wanted.now left.now }
    ensures anything { kind ≡ Kind.Anything → IsTrue result }
{
    match kind {
        Kind::Numbers => wanted == left,
        Kind::Yes => matches!(left, [flag] if *flag != 0),
        Kind::No => matches!(left, [0]),
        Kind::Sealed => are_seals(wanted, left),
        Kind::Anything => true,
    }
}
