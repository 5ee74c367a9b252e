//! Where the block buffers begin: they are at the end of memory, and the dictionary ends there at the latest.

ghost use Rattle.std.specs.Prelude.{◌≡◌, ◌+◌, ◌*◌, ◌≤◌};
ghost use Rattle.memory.specs.Bytes.{IsCount, limit_of};
ghost use Rattle.memory.specs.declared.limit.TheConstants.{GREATEST_LIMIT};

/// Where the buffers begin at the highest: two of them.
pub const GREATEST_LIMIT: u16 = 63488;

/// Where `count` buffers begin, 2 to 16.
#[tactic(auto, unfolding(crate::specs::Bytes::limit_of))]
pub fn limit_of(count: u16) -> u16
    requires { IsCount count }
    ensures value { result ≡ limit_of count }
    ensures whole { result + 1024 * count ≡ 65536 }
    ensures most { result ≤ GREATEST_LIMIT }
{
    (65536 - 1024 * u32::from(count)) as u16
}
