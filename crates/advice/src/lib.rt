//! What is said of a fault: which message it has, and what was probably meant.
#![tactic(auto)]

mod answer;
mod case;
mod choice;
mod filling;
mod near;
mod numbers;
mod source;
mod structures;
mod texts;
mod unknown;

pub use answer::advise;
pub use case::AdviceRefused;
pub use choice::{FULL, Known, MISSING, Message, UNKNOWN, choose};
pub use near::is_near;
pub use numbers::is_too_large;
