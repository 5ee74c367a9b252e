//! Containers that screens come in, as disks and files of other systems: their bytes as blocks, and back.
#![tactic(auto)]

mod cause;
mod cleaning;
mod formats;
pub mod laws;
mod layout;
mod order;
mod reading;
mod writing;

pub use cause::Cause;
pub use cleaning::clean;
pub use formats::{FORMATS, Format, named};
pub use layout::Layout;
pub use reading::read_screens;
pub use writing::{new_container, write_screens};
