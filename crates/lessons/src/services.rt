//! What the machine's words ask of a host, and what a judge answers: a pupil's program reaches no file, no clock and no person.

use crate::door::{
    BYE_WITH, DUMP, EKEY, EMPTY, FAULT_TEXT, HELP, INDEX, KEY_IS_THERE, LAST, LIST, LOCATE, MS,
    OWN, PLACE, PROMPT, REPORT, RETYPE, SAVE, SEARCH, SEE, TICKS, UNCLOSED, VERSION, VIEW, WORDS,
};

/// What is done for a service.
#[derive(Clone, Copy, Debug, PartialEq, Eq)]
pub enum Service {
    /// No service: a program asks for a key.
    Key,
    /// It is answered, and nothing is shown: screens and words that a person would read, pauses, the saving of screens.
    Nothing,
    /// The same, and the next word of the input is taken.
    Word,
    /// The same, and the rest of the input is taken.
    Rest,
    /// It has two results, 0: no key was typed, no time has passed.
    Zeros,
    /// A comment that has no end: the place of its beginning is on the stack.
    Unclosed,
    /// A fault is described.
    FaultText,
    /// A fault is reported.
    Report,
    /// It is refused: files, the editor, steps, what is thrown, ports and boards.
    Refused,
}

/// What is done for a number in the cell SERVICE, when the machine asks for a key.
pub fn service_of(number: u16) -> Service {
    match number {
        0 | PROMPT | EKEY => Service::Key,
        LIST | INDEX | RETYPE | SAVE | BYE_WITH | EMPTY | DUMP | VERSION | MS | PLACE => {
            Service::Nothing
        }
        SEE | VIEW | LOCATE | WORDS | HELP => Service::Word,
        SEARCH => Service::Rest,
        KEY_IS_THERE | TICKS => Service::Zeros,
        UNCLOSED => Service::Unclosed,
        FAULT_TEXT => Service::FaultText,
        REPORT => Service::Report,
        _ if number <= LAST || number >= OWN => Service::Refused,
        _ => Service::Key,
    }
}
