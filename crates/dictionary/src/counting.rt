//! How many headers and records there are.

ghost use Rattle.std.specs.Prelude.{◌≡◌, ◌≤◌, length};
ghost use Rattle.memory.specs.Mirrored.{stored};
ghost use Rattle.dictionary.specs.Chain.{chain};
ghost use Rattle.dictionary.specs.Order.{is_beyond_limit, members_of};

use memory::Memory;
use memory::system::VOC_LINK;

/// How many headers and records may be reached in all.
const LIMIT: u32 = 32768;

/// Where a chain that is too long is cut.
pub const CUT: u32 = 32769;

/// How many members a chain has, cut after 32,769.
#[tactic(auto, using(crate::proofs::Counts::lengths))]
fn chain_length(memory: &Memory, start: u16) -> u32
    ensures value { result ≡ length (chain (stored memory.now) 32769 start) }
    ensures small { result ≤ 32769 }
{
    let mut l = start;
    let mut left = CUT;
    while left > 0 && l != 0 {
        l = memory.cell(l);
        left -= 1;
    }
    CUT - left
}

/// How many members the four chains of a record have.
#[tactic(auto, using(crate::proofs::Counts::length_of), unfolding(crate::specs::Order::members))]
fn count_of(memory: &Memory, r: u16) -> u32
    ensures value { result ≡ length (members_of (stored memory.now) r) }
    ensures small { result ≤ 200000 }
{
    let first = chain_length(memory, memory.cell(r));
    let second = chain_length(memory, memory.cell(r.wrapping_add(2)));
    let third = chain_length(memory, memory.cell(r.wrapping_add(4)));
    let fourth = chain_length(memory, memory.cell(r.wrapping_add(6)));
    first + second + third + fourth
}

/// Whether more than 32,768 headers and records are reached, each counted as often as it is reached.
#[tactic(auto, using(crate::proofs::Counts::counts), unfolding(crate::specs::Order::is_beyond_limit))]
pub fn is_beyond_limit(memory: &Memory) -> bool
    ensures { result ≡ is_beyond_limit (stored memory.now) }
{
    let mut r = memory.cell(VOC_LINK);
    let mut left = CUT;
    let mut count = 0;
    while left > 0 && r != 0 {
        count += 1 + count_of(memory, r);
        if count > LIMIT {
            return true;
        }
        r = memory.cell(r.wrapping_add(8));
        left -= 1;
    }
    false
}
