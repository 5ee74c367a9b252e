//! What a survey of old screens knows of dialects, systems and their words.
#![tactic(auto)]

mod advice;
mod dialects;
mod glossaries;
mod meanings;
mod signs;
mod texts;
mod words;

pub use advice::{ADVICE, Advice, MAPS, Map};
pub use dialects::{
    BEFORE_83, DIALECTS, Dialect, Dialects, F79, F79_POLY, F83, F83_POLY, FIG, FIG_F79, LATER,
    POLY, SYSTEMS, System,
};
pub use meanings::{FLAG_IN_SUM, LONELY_J, LOOP_DOWN, MEANINGS, Meaning, RETURN_KEY};
pub use signs::{EVERYWHERE, IN_USE, OWN_WORDS, SIGNS, WordSigns};
pub use texts::{HIDDEN, SUMS, TOOLS};
pub use words::{LeftOut, has};
