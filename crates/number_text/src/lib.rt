//! Numbers as text: digits, numbers that are read, and pictures of numbers in memory.
#![tactic(auto)]

mod base;
mod conversion;
mod digits;
mod picture;
mod text;
mod value;

pub use base::BadBase;
pub use conversion::convert;
pub use digits::{byte_of_digit, digit_law, digit_of};
pub use picture::{
    close_picture, expansion_law, hold, open_picture, pad, picture_digit, picture_digits, sign,
};
pub use text::{number, number_law, number_of_pieces};
pub use value::Number;
