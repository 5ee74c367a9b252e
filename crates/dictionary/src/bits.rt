//! The bits of a header's count byte.

ghost use Rattle.std.specs.Prelude.{⊤, ◌≡◌, ◌+◌, ◌<◌, [], ◌∷◌, codes};
ghost use Rattle.memory.specs.Mirrored.{stored};
ghost use Rattle.std.specs.Int.RustNames.{bit_and};
ghost use Rattle.dictionary.specs.Header.{count_byte};

use bitflags::{Flag, Flags, bitflag_items};
use memory::Memory;

/// A header's count byte: bit 7 is set, bit 6 says that the word is immediate, bit 5 that it is hidden, and the low five
/// bits are the length of its name.
#[derive(Clone, Copy, PartialEq, Eq, Debug)]
pub struct CountByte(pub u8);

bitflag_items! {
    impl CountByte: u8 {
        const LENGTH = 31;
        const HIDDEN = 32;
        const IMMEDIATE = 64;
        const HEADER = 128;
    }
}

impl Flags for CountByte {
    type Bits = u8;

    ghost exact = { ⊤ };

    ghost table = { (codes "LENGTH", 31) ∷ (codes "HIDDEN", 32) ∷ (codes "IMMEDIATE", 64) ∷ (codes "HEADER", 128) ∷ [] };

    ghost set_of = { λ c. c.0 };

    fn flags<'a>() -> &'a [Flag<CountByte>] {
        CountByte::FLAGS
    }

    fn bits(&self) -> u8 {
        self.0
    }

    fn from_bits_retain(bits: u8) -> CountByte {
        CountByte(bits)
    }
}

impl CountByte {
    /// The count byte of a new header whose name has this length, 0 to 31: neither hidden nor immediate.
    #[tactic(auto, using(crate::proofs::CountBits::header_bit))]
    pub fn of_length(length: u8) -> CountByte
        requires length { length < 32 }
        ensures value { result.0 ≡ 128 + length }
    {
        let mut count = CountByte(length);
        count.insert(CountByte::HEADER);
        count
    }

    /// The same, hidden.
    #[tactic(auto, using(crate::proofs::CountBits::hidden_bit))]
    pub fn hidden_of_length(length: u8) -> CountByte
        requires length { length < 32 }
        ensures value { result.0 ≡ 160 + length }
    {
        let mut count = CountByte::of_length(length);
        count.insert(CountByte::HIDDEN);
        count
    }

    /// The same, immediate.
    #[tactic(auto, using(crate::proofs::CountBits::immediate_bit))]
    pub fn immediate_of_length(length: u8) -> CountByte
        requires length { length < 32 }
        ensures value { result.0 ≡ 192 + length }
    {
        let mut count = CountByte::of_length(length);
        count.insert(CountByte::IMMEDIATE);
        count
    }

    /// The length of the name, 0 to 31.
    pub fn length(self) -> u8
        ensures value { result ≡ bit_and self.0 31 }
    {
        self.0 & CountByte::LENGTH.0
    }
}

/// The count byte of the header at `link_field`.
#[tactic(auto, unfolding(crate::specs::Header::count_byte))]
pub fn count_byte(memory: &Memory, link_field: u16) -> CountByte
    ensures { result.0 ≡ count_byte (stored memory.now) link_field }
{
    CountByte(memory.byte(link_field.wrapping_add(2)))
}
