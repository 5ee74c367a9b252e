//! The words of a source that is in screens: words between blanks, with the screen and the place that each is at;
//! comments dropped, and texts attached to the words of a body that take one.
#![tactic(auto)]

pub mod laws;
mod modes;
mod reading;
mod scanner;
mod spans;
mod word;

pub use modes::Mode;
pub use scanner::Scanner;
pub use word::Word;
