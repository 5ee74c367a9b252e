//! The thread of a word.

ghost use Rattle.std.specs.Prelude.{◌≡◌, ◌≤◌, ◌<◌, ◌+◌, ◌-◌, ◌^◌, length, vec_capacity};
ghost use Rattle.memory.specs.Mirrored.{stored};
ghost use Rattle.dictionary.specs.Extents.{extent_end};
ghost use Rattle.dictionary.specs.Order.{headers};
ghost use Rattle.see.specs.Extent.{parameter_field, extent, controls_of};

use crate::adding::copy_into;
use dictionary::{compilation_address, extent_end};
use memory::Memory;
use memory::system::RUNTIME_CELLS;

/// The address after a header's code field.
#[tactic(auto, unfolding(crate::specs::Extent::parameter_field))]
pub fn parameter_field(memory: &Memory, l: u16) -> u16
    ensures { result ≡ parameter_field (stored memory.now) l }
{
    compilation_address(memory, l).wrapping_add(2)
}

/// How many bytes what is at `p` has.
pub fn extent_size(memory: &Memory, listed: &[u16], p: u16) -> u16
    requires { listed.now ≡ headers (stored memory.now) }
    ensures size { result ≡ extent_end (stored memory.now) (headers (stored memory.now)) p - p }
    ensures count { length (extent (stored memory.now) p) ≡ result }
    ensures within { p + result < 2 ^ 16 }
{
    let _ = memory.len();
    extent_end(memory, listed, p).saturating_sub(p)
}

/// The bytes of what is at `p`, of which there are so many, in place of what there was.
#[tactic(auto, unfolding(crate::specs::Extent::extent))]
pub fn copy_extent(list: &mut Vec<u8>, memory: &Memory, p: u16, size: u16)
    requires size { size ≡ extent_end (stored memory.now) (headers (stored memory.now)) p - p }
    requires room { size ≤ vec_capacity list.old }
    ensures bytes { list.new.items ≡ extent (stored memory.now) p }
    ensures count { length list.new.items ≡ size }
    ensures room { vec_capacity list.old ≤ vec_capacity list.new }
{
    copy_into(list, memory, p, size);
}

/// The runtime cells, in place of what there was: that of control primitive k holds its compilation address.
#[tactic(auto, unfolding(crate::specs::Extent::controls_of, crate::specs::Extent::first_controls))]
pub fn list_controls(controls: &mut Vec<u16>, memory: &Memory)
    requires { 28 ≤ vec_capacity controls.old }
    ensures cells { controls.new.items ≡ controls_of (stored memory.now) }
    ensures count { length controls.new.items ≡ 28 }
    ensures room { vec_capacity controls.new ≡ vec_capacity controls.old }
{
    controls.clear();
    for k in 0_u16..28 {
        controls.push_reserved(memory.cell(RUNTIME_CELLS + 2 * k));
    }
}
