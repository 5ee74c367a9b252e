//! What old screens are, which dialect they were written for, and why.
#![tactic(auto)]

mod addresses;
mod habits;
mod kept;
mod looks;
mod names;
mod numbers;
mod page;
mod reader;
mod report;
mod screen;
mod signs;
mod source;
mod telling;
mod verdict;
mod wordlines;
mod words;

pub use report::{Asked, Report, survey};
pub use survey_tables::Dialect;
