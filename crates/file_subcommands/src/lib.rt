//! The subcommands over the files that the command line names, except those that run an image or let one compile: each opens its
//! files, and writes what is made of them.
#![tactic(auto)]

mod building;
mod disks;
mod screens;
mod viewing;

pub use building::{Build, Upgrade, build_image, upgrade_image};
pub use disks::{Disk, export_screens, import_screens};
pub use screens::{Screens, print_headings, print_text, write_kernel, write_new, write_screens};
pub use viewing::{see_word, view_word};
