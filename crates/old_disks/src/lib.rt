//! Disks, texts and listings of other systems as blocks, and back.
#![tactic(auto)]

mod body;
mod bytes;
mod ebcdic;
mod formats;
mod guessing;
mod half;
mod headings;
mod lines;
mod listing;
mod options;
mod orders;
mod packing;
mod pieces;
mod ragged;
mod records;
mod refusal;
mod remark;
mod scoring;
mod unpacking;

pub use formats::Format;
pub use guessing::guess;
pub use options::{Options, Records, read_options, read_skew};
pub use orders::{better_order, show_likeness, show_orders};
pub use packing::{Packed, pack};
pub use refusal::Refusal;
pub use remark::Remark;
pub use unpacking::{Unpacked, unpack};
