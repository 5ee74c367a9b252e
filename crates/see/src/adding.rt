//! Adding bytes for which there is room.

ghost use Rattle.std.specs.Prelude.{◌≡◌, ◌≤◌, ◌+◌, ◌++◌, length, vec_len, vec_capacity};
ghost use Rattle.memory.specs.Bytes.{bytes};
ghost use Rattle.memory.specs.Mirrored.{stored};

use memory::Memory;

/// Adds bytes for which there is room.
pub fn add_bytes(list: &mut Vec<u8>, bytes: &[u8])
    requires { vec_len list.old + length bytes.now ≤ vec_capacity list.old }
    ensures bytes { list.new.items ≡ list.old.items ++ bytes.now }
    ensures count { vec_len list.new ≡ vec_len list.old + length bytes.now }
    ensures room { vec_capacity list.old ≤ vec_capacity list.new }
{
    list.extend_from_slice(bytes).unwrap();
}

/// Some bytes of memory, in place of what there was.
pub fn copy_into(list: &mut Vec<u8>, memory: &Memory, at: u16, n: u16)
    requires { n ≤ vec_capacity list.old }
    ensures bytes { list.new.items ≡ bytes (stored memory.now) at n }
    ensures count { vec_len list.new ≡ n }
    ensures room { vec_capacity list.old ≤ vec_capacity list.new }
{
    let (head, tail) = memory.span(at, n);
    list.clear();
    add_bytes(list, head);
    add_bytes(list, tail);
}
