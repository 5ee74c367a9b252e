//! Screens of a device as text.
#![tactic(auto)]

pub mod laws;
mod pages;

pub use pages::{PageCause, Unprinted, pages_text};
