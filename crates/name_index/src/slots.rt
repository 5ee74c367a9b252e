//! The table's slots: which one a name has.

ghost use Rattle.std.specs.Prelude.{◌≡◌, ◌<◌, ◌+◌, ◌*◌, ◌%◌};
ghost use Rattle.memory.specs.Mirrored.{stored};
ghost use Rattle.dictionary.specs.Header.{name_of, name_length};
ghost use Rattle.name_index.specs.Slots.{number_of, class_of, slot_in, slot_of};

use dictionary::name_length;
use memory::Memory;

/// How many slots the names of a class have.
const SLOTS: u16 = 2048;

/// A number of bytes, from the number of those before them on.
#[tactic(auto, unfolding(crate::specs::Slots::number_of))]
fn number_of(before: u16, bytes: &[u8]) -> u16
    ensures { result ≡ number_of before bytes.now }
{
    let mut number = before;
    for byte in bytes {
        number = number.wrapping_mul(37).wrapping_add(u16::from(*byte));
    }
    number
}

/// The slot, among those of a class, of a name with that number.
fn slot_in(class: u8, number: u16) -> u16
    requires { class < 4 }
    ensures value { result ≡ 4 * (number % 2048) + class }
    ensures small { result < 8192 }
    ensures class { result % 4 ≡ class }
{
    4 * (number % SLOTS) + u16::from(class)
}

/// The class of a name: the first byte modulo 4, 0 for the empty name.
#[tactic(auto, unfolding(crate::specs::Slots::class_of))]
pub fn class_of(name: &[u8]) -> u8
    ensures value { result ≡ class_of name.now }
    ensures small { result < 4 }
{
    match name.first() {
        Some(first) => first % 4,
        None => 0,
    }
}

/// The slot of a name.
#[tactic(auto, unfolding(crate::specs::Slots::slot_of, crate::specs::Slots::slot_in))]
pub fn slot_of(name: &[u8]) -> u16
    ensures value { result ≡ slot_of name.now }
    ensures small { result < 8192 }
    ensures class { result % 4 ≡ class_of name.now }
{
    slot_in(class_of(name), number_of(0, name))
}

/// The slot that the name of the header at `link_field` has in the chain of a class.
#[tactic(auto, using(crate::proofs::Numbers::number_pieces), unfolding(crate::specs::Slots::slot_in, dictionary::specs::Header::name_of))]
pub fn slot_at(memory: &Memory, link_field: u16, class: u8) -> u16
    requires { class < 4 }
    ensures value { result ≡ slot_in class (name_of (stored memory.now) link_field) }
    ensures small { result < 8192 }
    ensures class { result % 4 ≡ class }
{
    let length = u16::from(name_length(memory, link_field));
    let (head, tail) = memory.span(link_field.wrapping_add(3), length);
    slot_in(class, number_of(number_of(0, head), tail))
}
