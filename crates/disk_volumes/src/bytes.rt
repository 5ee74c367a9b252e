//! Pieces of a file, and numbers in it. What is beyond its end is left out, or counts as 0.

ghost use Rattle.std.specs.List.{slice_index_or};
ghost use Rattle.std.specs.Prelude.{◌≡◌, ◌-◌, ◌++◌, IfOk, drop, length, replicate, take};

use std::alloc::{AllocError, Global};

/// The bytes before a place, or all.
pub fn before(bytes: &[u8], at: usize) -> &[u8]
    ensures { result.now ≡ take at bytes.now }
{
    bytes.get(..at).unwrap_or(bytes)
}

/// The bytes from a place on, if there are any.
pub fn from(bytes: &[u8], at: usize) -> &[u8]
    ensures { result.now ≡ drop at bytes.now }
{
    bytes.get(at..).unwrap_or(b"")
}

/// So many bytes from a place on, or as many as there are.
pub fn piece(bytes: &[u8], at: usize, count: usize) -> &[u8]
    ensures { result.now ≡ take count (drop at bytes.now) }
{
    before(from(bytes, at), count)
}

/// The byte at a place.
pub fn byte_at(bytes: &[u8], at: usize) -> u8
    ensures { result ≡ slice_index_or bytes.now at 0 }
{
    bytes.get(at).copied().unwrap_or(0)
}

/// The number of two bytes, the low one first.
pub fn little(bytes: &[u8], at: usize) -> u16 {
    u16::from_le_bytes([byte_at(bytes, at), byte_at(bytes, at.saturating_add(1))])
}

/// The number of two bytes, the high one first.
pub fn big(bytes: &[u8], at: usize) -> u16 {
    u16::from_be_bytes([byte_at(bytes, at), byte_at(bytes, at.saturating_add(1))])
}

/// The number of four bytes, the highest one first.
pub fn big_long(bytes: &[u8], at: usize) -> usize {
    usize::from(big(bytes, at))
        .saturating_mul(65536)
        .saturating_add(usize::from(big(bytes, at.saturating_add(2))))
}

/// So many bytes from a place on, filled with bytes 0.
pub fn filled(alloc: Global, bytes: &[u8], at: usize, count: usize) -> Result<Vec<u8>, AllocError>
    ensures { let some = take count (drop at bytes.now) in IfOk result (λ v. v.items ≡ some ++ replicate (count - length some) 0) }
{
    let mut made = Vec::from_slice(alloc, piece(bytes, at, count))?;
    made.resize(count, 0)?;
    Ok(made)
}

/// Bytes without their highest bit.
pub fn without_high_bits(alloc: Global, bytes: &[u8]) -> Result<Vec<u8>, AllocError> {
    let mut made = Vec::from_slice(alloc, bytes)?;
    for byte in made.iter_mut() {
        *byte &= 127;
    }
    Ok(made)
}
