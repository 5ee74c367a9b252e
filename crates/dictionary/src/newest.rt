//! The bits of the newest header.

ghost use Rattle.std.specs.Prelude.{◌≡◌};
ghost use Rattle.memory.specs.Mirrored.{stored};
ghost use Rattle.dictionary.specs.Newest.{newest_count, revealed, made_immediate, with_revealed, with_immediate};

use crate::bits::CountByte;
use bitflags::Flags;
use memory::Memory;
use memory::system::LAST;

/// Where the count byte of the newest header is: the header that LAST names.
#[tactic(auto, unfolding(crate::specs::Newest::newest_count))]
pub fn newest_count(memory: &Memory) -> u16
    ensures { result ≡ newest_count (stored memory.now) }
{
    memory.cell(LAST).wrapping_add(2)
}

/// A count byte with its hidden bit cleared.
#[tactic(auto, unfolding(crate::specs::Newest::revealed))]
pub fn revealed(count: u8) -> u8
    ensures { result ≡ revealed count }
{
    let mut bits = CountByte(count);
    bits.remove(CountByte::HIDDEN);
    bits.0
}

/// A count byte with its immediate bit set.
#[tactic(auto, unfolding(crate::specs::Newest::made_immediate))]
fn made_immediate(count: u8) -> u8
    ensures { result ≡ made_immediate count }
{
    let mut bits = CountByte(count);
    bits.insert(CountByte::IMMEDIATE);
    bits.0
}

/// Lets searches find the newest header, as Forth-83 `;` does.
#[tactic(auto, unfolding(crate::specs::Newest::with_revealed))]
pub fn reveal(memory: &mut Memory)
    ensures { stored memory.new ≡ with_revealed (stored memory.old) }
{
    let at = newest_count(memory);
    memory.set_byte(at, revealed(memory.byte(at)));
}

/// Makes the newest header immediate (Forth-83 IMMEDIATE).
#[tactic(auto, unfolding(crate::specs::Newest::with_immediate))]
pub fn set_immediate(memory: &mut Memory)
    ensures { stored memory.new ≡ with_immediate (stored memory.old) }
{
    let at = newest_count(memory);
    memory.set_byte(at, made_immediate(memory.byte(at)));
}
