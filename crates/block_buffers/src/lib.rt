//! 2 to 16 block buffers with the stamps of their references, devices of blocks, and blocks as screens of lines.
#![tactic(auto)]

pub mod buffers;
mod devices;
mod entries;
pub mod entry;
pub mod laws;
mod lines;
mod memory_devices;
mod page_log;
mod screens;
mod stamped;

pub use buffers::Buffers;
pub use devices::{BLOCK_SIZE, Device, DeviceFault};
pub use entry::Entry;
pub use memory_devices::MemoryDevice;
pub use page_log::{Called, PageLog};
pub use screens::{LINE_SIZE, LINES, delete_line, insert_line, put_line, screen_line, wipe};
