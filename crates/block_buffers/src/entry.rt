//! What the list of buffers says of one of them.

/// A buffer: its slot, from 0 on; the block that it has, if any; and whether that was updated since
/// it was read or written.
#[derive(Clone, Copy, Debug, PartialEq, Eq, Default)]
pub struct Entry {
    pub slot: usize,
    pub block: Option<u16>,
    pub updated: bool,
}
