//! Screens as text, both ways.
#![tactic(auto)]

mod blocks;
mod bytes;
mod cause;
mod escapes;
mod headings;
pub mod laws;
mod listing;
mod printing;
mod reading;

pub use blocks::put_screens;
pub use cause::{Cause, TextFault};
pub use listing::list_headings;
pub use printing::screen_text;
pub use reading::{Screens, read_text};
