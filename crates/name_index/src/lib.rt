//! The name index: a table by which a search in FORTH need not walk a chain. For each number that a name can have it holds
//! the newest member of FORTH's chain whose name has it, for as long as memory says the same.
//!
//! Nothing is assumed of memory: the index answers what `dictionary`'s search does, whatever memory holds.
#![tactic(auto)]

mod admitting;
mod finding;
mod index;
mod slots;
mod watch;

pub use finding::find_indexed;
pub use index::NameIndex;
