//! What each subcommand does, prints and ends with, except those that run an image or let it compile.
#![tactic(auto)]

mod causes;
mod commands;
mod container_command;
mod kernel;
mod kernel_text;
pub mod laws;
mod see_command;
mod sends;
mod text_command;
mod upgrade_command;

pub use causes::Reason;
pub use commands::{
    Ended, do_build, do_kernel, do_view, end_with, end_with_made, print_out_of_memory, refuse,
    refuse_image, status_of,
};
pub use container_command::{do_export, do_import, refuse_container};
pub use kernel_text::TEXT;
pub use see_command::do_see;
pub use sends::send_numbered;
pub use text_command::{do_headings, do_new, do_screens, do_text};
pub use upgrade_command::do_upgrade;
