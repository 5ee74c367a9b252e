//! The lessons of a course, their trials, and the judging of pupils' answers.
#![tactic(auto)]

mod bytes;
mod door;
mod faults;
mod files;
mod judging;
mod results;
mod screens;
mod sealing;
mod services;
mod sitting;
mod trials;

pub use files::{FileFault, blocks_of};
pub use judging::{Desk, Mark, Verdict, judge};
pub use results::{JudgedFiles, Judgment, Progress, judge_files, judge_next};
pub use screens::{Lesson, lessons_of};
pub use sealing::{is_left, seal};
pub use sitting::{Ending, Limits};
pub use trials::Kind;
