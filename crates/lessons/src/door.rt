//! How words ask a host for services. tools/make-services wrote it: change commands/served/table.py.

/// The cell with the number of the service that a word asks for.
pub const SERVICE: u16 = 56;

/// The cell of a service's first result.
pub const FIRST: u16 = 58;

/// The cell of its second result.
pub const SECOND: u16 = 60;

/// The cell with the mark of a host.
pub const MARK: u16 = 62;

/// The mark of a host.
pub const HOST: u16 = 83;

/// The first of the numbers that a host registers itself.
pub const OWN: u16 = 100;

/// The last of the numbers below.
pub const LAST: u16 = 50;

/// The service PROMPT.
pub const PROMPT: u16 = 1;

/// The service UNCLOSED.
pub const UNCLOSED: u16 = 2;

/// The service INCLUDE.
pub const INCLUDE: u16 = 3;

/// The service INCLUDED.
pub const INCLUDED: u16 = 4;

/// The service RELOAD.
pub const RELOAD: u16 = 5;

/// The service LIST.
pub const LIST: u16 = 6;

/// The service INDEX.
pub const INDEX: u16 = 7;

/// The service SEARCH.
pub const SEARCH: u16 = 8;

/// The service RETYPE.
pub const RETYPE: u16 = 9;

/// The service EDIT.
pub const EDIT: u16 = 10;

/// The service ED.
pub const ED: u16 = 11;

/// The service SAVE.
pub const SAVE: u16 = 12;

/// The service BYE-WITH.
pub const BYE_WITH: u16 = 13;

/// The service EMPTY.
pub const EMPTY: u16 = 14;

/// The service SEE.
pub const SEE: u16 = 15;

/// The service VIEW.
pub const VIEW: u16 = 16;

/// The service LOCATE.
pub const LOCATE: u16 = 17;

/// The service WORDS.
pub const WORDS: u16 = 18;

/// The service HELP.
pub const HELP: u16 = 19;

/// The service DUMP.
pub const DUMP: u16 = 20;

/// The service VERSION.
pub const VERSION: u16 = 21;

/// The service MS.
pub const MS: u16 = 22;

/// The service KEY?.
pub const KEY_IS_THERE: u16 = 23;

/// The service EKEY.
pub const EKEY: u16 = 24;

/// The service ARGUMENT.
pub const ARGUMENT: u16 = 25;

/// The service ENVIRONMENT.
pub const ENVIRONMENT: u16 = 26;

/// The service UNDO.
pub const UNDO: u16 = 27;

/// The service WHY.
pub const WHY: u16 = 28;

/// The service DEBUG.
pub const DEBUG: u16 = 29;

/// The service BREAK-AT.
pub const BREAK_AT: u16 = 30;

/// The service FAULT-TEXT.
pub const FAULT_TEXT: u16 = 31;

/// The service REPORT.
pub const REPORT: u16 = 32;

/// The service REQUIRE.
pub const REQUIRE: u16 = 33;

/// The service SKIP.
pub const SKIP: u16 = 34;

/// The service EVALUATE.
pub const EVALUATE: u16 = 35;

/// The service CATCH.
pub const CATCH: u16 = 36;

/// The service CAUGHT.
pub const CAUGHT: u16 = 37;

/// The service THROW.
pub const THROW: u16 = 38;

/// The service TICKS.
pub const TICKS: u16 = 39;

/// The service PROFILE.
pub const PROFILE: u16 = 40;

/// The service PLACE.
pub const PLACE: u16 = 41;

/// The service NO-LINE.
pub const NO_LINE: u16 = 42;

/// The service NO-FIT.
pub const NO_FIT: u16 = 43;

/// The service LINE-LOST.
pub const LINE_LOST: u16 = 44;

/// The service DATE.
pub const DATE: u16 = 45;

/// The service CLOCK.
pub const CLOCK: u16 = 46;

/// The service SAVE-IMAGE.
pub const SAVE_IMAGE: u16 = 47;

/// The service PORT-FETCH.
pub const PORT_FETCH: u16 = 48;

/// The service PORT-STORE.
pub const PORT_STORE: u16 = 49;

/// The service UPDATE.
pub const UPDATE: u16 = 50;
