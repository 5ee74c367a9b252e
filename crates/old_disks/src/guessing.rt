//! Which format a container may have.

use crate::bytes::{LINE, before};
use crate::listing::is_listing;
use std::alloc::{AllocError, Global};

/// How many bytes are looked at for a heading.
const FRONT: usize = 4096;

/// The format that a file of a known disk has most often, by its size.
fn by_size(bytes: usize) -> Option<&'static str> {
    match bytes {
        256256 => Some("cpm8-data"),
        252928 => Some("rx01"),
        512512 | 505856 => Some("rx02"),
        143360 => Some("apple-dos"),
        174848 | 196608 => Some("d64"),
        89600 => Some("jv1"),
        _ => None,
    }
}

/// Whether the first two lines of a container have 64 characters and this end.
fn is_lined(container: &[u8], ending: &[u8]) -> bool {
    container
        .chunks(ending.len().saturating_add(LINE))
        .take(2)
        .filter(|line| line.ends_with(ending))
        .count()
        == 2
}

/// The name of the format that a container may have, by its size, its head and its first lines.
pub fn guess(alloc: Global, container: &[u8]) -> Result<&'static str, AllocError> {
    if let Some(name) = by_size(container.len()) {
        return Ok(name);
    }
    if container.starts_with(b"\x96\x02") {
        return Ok("atr");
    }
    if is_listing(alloc, before(container, FRONT))? {
        return Ok("text");
    }
    if is_lined(container, b"\n") {
        return Ok("lines-lf");
    }
    if is_lined(container, b"\r") {
        return Ok("lines-cr");
    }
    if is_lined(container, b"\r\n") {
        return Ok("lines-crlf");
    }
    Ok("blocks")
}
