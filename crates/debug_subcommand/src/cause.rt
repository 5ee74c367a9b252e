//! How it is spelled why a word isn't traced.

ghost use Rattle.debug_subcommand.specs.Traced.{debug_cause};

use debug_tracer::DebugFault;
use inner_interpreter::{EndFault, Output, send_all};
use subcommands::Reason;

/// Why a word isn't traced, to be spelled.
#[derive(Drop)]
pub struct NotTraced {
    pub why: DebugFault,
}

impl Reason for NotTraced {
    ghost spelling = { λ u. debug_cause u.why };

    fn send<W: Output>(&self, writer: &mut W) -> Result<(), EndFault> {
        match self.why {
            DebugFault::NotFound => send_all(writer, b"NotFound"),
            DebugFault::ChainTooLong => send_all(writer, b"ChainTooLong"),
            DebugFault::NotColon => send_all(writer, b"NotColon"),
            DebugFault::OutOfMemory => send_all(writer, b"OutOfMemory"),
        }
    }
}
