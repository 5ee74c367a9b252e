//! The files that the program is given: opened so that none takes the place of a standard stream, looked into, held against other
//! runs, read and written whole, and used as a device of blocks.
#![tactic(auto)]

mod devices;
mod guards;
mod opening;
mod traces;
mod whole;

pub use devices::{FileDevice, open_device, open_to_read};
pub use guards::{Holding, Unopened, hold, look_into};
pub use opening::read_image;
pub use traces::TraceFile;
pub use whole::{read_blocks, read_file, write_file};
