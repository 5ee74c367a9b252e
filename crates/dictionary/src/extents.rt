//! Where a word's thread ends, and what an address is called.

ghost use Rattle.std.specs.Prelude.{◌≡◌, ◌==◌, map};
ghost use Rattle.memory.specs.Mirrored.{stored};
ghost use Rattle.dictionary.specs.Extents.{beginning, least_from, extent_end, header_at};

use crate::reading::compilation_address;
use memory::Memory;
use memory::system::DP;

/// The least beginning of a header that isn't below `from`.
fn least_from(headers: &[u16], from: u16) -> Option<u16>
    ensures { result ≡ least_from from (map beginning headers.now) }
{
    headers
        .iter()
        .map(|l| l.wrapping_sub(2))
        .filter(|beginning| from <= *beginning)
        .min()
}

/// Where what begins at `from` ends, by the headers of all vocabularies (`headers_in_order`): at the least beginning of a
/// header (its view cell) that isn't below `from`, or at DP if there is none. This may lie below `from`.
#[tactic(auto, unfolding(crate::specs::Extents::extent_end))]
pub fn extent_end(memory: &Memory, headers: &[u16], from: u16) -> u16
    ensures { result ≡ extent_end (stored memory.now) headers.now from }
{
    match least_from(headers, from) {
        Some(beginning) => beginning,
        None => memory.cell(DP),
    }
}

/// The lowest of the headers, by its link field, that has this compilation address.
#[tactic(auto, unfolding(crate::specs::Extents::header_at))]
pub fn header_at(memory: &Memory, headers: &[u16], address: u16) -> Option<u16>
    ensures { result ≡ header_at (stored memory.now) headers.now address }
{
    headers
        .iter()
        .copied()
        .find(|l| compilation_address(memory, *l) == address)
}
