//! The dictionary: headers in memory, their chains, the search of a name, and the words that add and forget headers.
//!
//! A header is known by the address of its link field, a vocabulary by the address of its record. Nothing is assumed
//! of memory: whatever it holds, each call ends, and a chain that goes on for more than 32,768 headers is refused.
#![tactic(auto)]

mod adding;
mod bits;
pub mod code_fields;
mod counting;
mod extents;
mod fault;
mod fields;
mod forgetting;
pub mod laws;
mod laying;
mod listing;
mod lookups;
mod newest;
mod reading;
mod site;

pub use adding::{add_header, add_vocabulary, can_add, record_bytes};
pub use bits::CountByte;
pub use extents::{extent_end, header_at};
pub use fault::{AddFault, ChainTooLong, ForgetFault, HeadersFault};
pub use fields::Header;
pub use forgetting::{cut_by, forget, forget_target};
pub use laying::{fits, lay_at};
pub use listing::{HeaderList, headers_in_order};
pub use lookups::{find, head_of, search, search_chain, search_from, search_hiding, search_in};
pub use newest::{newest_count, reveal, revealed, set_immediate};
pub use reading::{compilation_address, header, is_hidden, is_immediate, name_length};
pub use site::Site;
