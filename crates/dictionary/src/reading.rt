//! Headers as they are in memory.

ghost use Rattle.std.specs.Prelude.{◌≡◌, ◌++◌, ◌==◌, bytes_eq, length, false, IsFalse};
ghost use Rattle.memory.specs.Bytes.{cell};
ghost use Rattle.memory.specs.Mirrored.{stored};
ghost use Rattle.dictionary.specs.Header.{view_of, count_byte, name_length, is_hidden, is_immediate, name_of, compilation_address, is_named, is_named_but, header_of};

use crate::bits::{CountByte, count_byte};
use crate::fields::Header;
use bitflags::Flags;
use memory::Memory;

/// How many bytes the name of the header at `link_field` has, 0 to 31.
#[tactic(auto, unfolding(crate::specs::Header::name_length))]
pub fn name_length(memory: &Memory, link_field: u16) -> u8
    ensures { result ≡ name_length (stored memory.now) link_field }
{
    count_byte(memory, link_field).length()
}

/// Whether no search finds the header at `link_field`.
#[tactic(auto, unfolding(crate::specs::Header::is_hidden))]
pub fn is_hidden(memory: &Memory, link_field: u16) -> bool
    ensures { result ≡ is_hidden (stored memory.now) link_field }
{
    count_byte(memory, link_field).contains(CountByte::HIDDEN)
}

/// Whether the header at `link_field` is immediate (Forth-83 IMMEDIATE).
#[tactic(auto, unfolding(crate::specs::Header::is_immediate))]
pub fn is_immediate(memory: &Memory, link_field: u16) -> bool
    ensures { result ≡ is_immediate (stored memory.now) link_field }
{
    count_byte(memory, link_field).contains(CountByte::IMMEDIATE)
}

/// The compilation address of the header at `link_field`: where its code field is.
#[tactic(auto, unfolding(crate::specs::Header::compilation_address))]
pub fn compilation_address(memory: &Memory, link_field: u16) -> u16
    ensures { result ≡ compilation_address (stored memory.now) link_field }
{
    link_field.wrapping_add(3 + u16::from(name_length(memory, link_field)))
}

/// All that the header at `link_field` says.
#[tactic(auto, unfolding(crate::specs::Header::view_of))]
pub fn header(memory: &Memory, link_field: u16) -> Header
    ensures { result ≡ header_of (stored memory.now) link_field }
{
    Header {
        view: memory.cell(link_field.wrapping_sub(2)),
        link: memory.cell(link_field),
        length: name_length(memory, link_field),
        immediate: is_immediate(memory, link_field),
        hidden: is_hidden(memory, link_field),
        compilation_address: compilation_address(memory, link_field),
    }
}

/// Whether a name that comes in two pieces is `name`.
#[tactic(auto, using(crate::proofs::Names::bytes_eq_pieces, crate::proofs::Names::bytes_eq_short))]
fn is_same(head: &[u8], tail: &[u8], name: &[u8]) -> bool
    ensures { result ≡ bytes_eq (head.now ++ tail.now) name.now }
{
    if name.len() < head.len() {
        return false;
    }
    let (front, back) = name.split_at(head.len());
    if head != front {
        return false;
    }
    tail == back
}

/// Whether the header at `link_field` has that name, hidden or not.
#[tactic(auto, unfolding(crate::specs::Header::name_of))]
fn has_name(memory: &Memory, link_field: u16, name: &[u8]) -> bool
    ensures { result ≡ bytes_eq (name_of (stored memory.now) link_field) name.now }
{
    let length = u16::from(name_length(memory, link_field));
    let (head, tail) = memory.span(link_field.wrapping_add(3), length);
    is_same(head, tail, name)
}

/// Whether the last byte of a header's name is that of `name`, which has as many: it differs in most names that aren't `name`.
#[tactic(auto, using(crate::proofs::Names::ends_otherwise))]
fn ends_alike(memory: &Memory, link_field: u16, size: u8, name: &[u8]) -> bool
    requires header { size ≡ name_length (stored memory.now) link_field }
    requires name { size ≡ length name.now }
    ensures { IsFalse result → bytes_eq (name_of (stored memory.now) link_field) name.now ≡ false }
{
    let _ = memory.len();
    if size == 0 {
        return true;
    }
    memory.byte(link_field.wrapping_add(2 + u16::from(size))) == name[usize::from(size) - 1]
}

/// Whether the header at `link_field` is unhidden and has that name.
#[tactic(auto, using(crate::proofs::Names::length_otherwise), unfolding(crate::specs::Header::is_named))]
fn is_named(memory: &Memory, link_field: u16, name: &[u8]) -> bool
    ensures { result ≡ is_named (stored memory.now) name.now link_field }
{
    let _ = memory.len();
    if is_hidden(memory, link_field) {
        return false;
    }
    let size = name_length(memory, link_field);
    if usize::from(size) != name.len() {
        return false;
    }
    if !ends_alike(memory, link_field, size, name) {
        return false;
    }
    has_name(memory, link_field, name)
}

/// The same, if the header at `hidden` counts as hidden.
#[tactic(auto, unfolding(crate::specs::Header::is_named_but))]
pub fn is_named_but(memory: &Memory, link_field: u16, name: &[u8], hidden: u16) -> bool
    ensures { result ≡ is_named_but (stored memory.now) name.now hidden link_field }
{
    if !is_named(memory, link_field, name) {
        return false;
    }
    link_field != hidden
}
