//! How it is spelled why screens aren't loaded.

ghost use Rattle.load_subcommand.specs.Loads.{load_cause};

use inner_interpreter::{EndFault, Output, send_all};
use metacompiler::LoadFault;
use subcommands::{Reason, send_numbered};

/// Why screens aren't loaded, to be spelled.
#[derive(Drop)]
pub struct NotLoaded {
    pub why: LoadFault,
}

impl Reason for NotLoaded {
    ghost spelling = { λ u. load_cause u.why };

    fn send<W: Output>(&self, writer: &mut W) -> Result<(), EndFault> {
        match self.why {
            LoadFault::NotFound => send_all(writer, b"NotFound"),
            LoadFault::ChainTooLong => send_all(writer, b"ChainTooLong"),
            LoadFault::Fault(number) => send_numbered(writer, b"Fault ", number),
            LoadFault::Halted => send_all(writer, b"Halted"),
            LoadFault::Asked => send_all(writer, b"Asked"),
            LoadFault::Limit => send_all(writer, b"Limit"),
            LoadFault::Unfinished => send_all(writer, b"Unfinished"),
            LoadFault::BadSize => send_all(writer, b"BadSize"),
            LoadFault::OutOfMemory => send_all(writer, b"out of memory"),
        }
    }
}
