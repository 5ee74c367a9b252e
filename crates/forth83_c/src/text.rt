//! A text that is put together in memory.

ghost use Rattle.std.specs.Prelude.{◌≡◌, []};

use inner_interpreter::{EndFault, Output};
use std::alloc::Global;

/// A writer into memory. It fails if memory runs out.
#[derive(Drop)]
pub struct Text {
    pub bytes: Vec<u8>,
    has_failed: bool,
}

impl Text {
    /// An empty text.
    pub fn new(alloc: Global) -> Text
        ensures { result.bytes.items ≡ [] }
    {
        Text {
            bytes: Vec::new(alloc),
            has_failed: false,
        }
    }
}

impl Output for Text {
    ghost use Rattle.std.specs.Prelude.{Some, true};

    ghost sent = { λ t. Some t.bytes.items };

    ghost passed = { λ t. true };

    ghost failed = { λ t. t.has_failed };

    fn send(&mut self, bytes: &[u8]) -> Result<usize, EndFault> {
        match self.bytes.extend_from_slice(bytes) {
            Ok(()) => Ok(bytes.len()),
            Err(_) => {
                self.has_failed = true;
                Err(EndFault)
            }
        }
    }

    fn flush(&mut self) -> Result<(), EndFault> {
        Ok(())
    }
}
