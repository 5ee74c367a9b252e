//! The calls of a device, with their pages, kept for contracts alone.
ghost use Rattle.std.specs.Prelude.{◌≡◌, ◌++◌, ◌∷◌, List, []};
ghost use base.Stored.{coded_list};
ghost use Rattle.block_buffers.specs.DeviceCalls.{DeviceCall, call_coded};

use std::marker::Model;

/// The calls that a device was given, in order. It takes no memory; a contract reads it as `calls`.
#[derive(Drop)]
pub struct PageLog {
    pub ghost calls: { List DeviceCall } by { coded_list call_coded },
}

impl Model for PageLog {
    ghost use Rattle.std.specs.Borrow.{ftrue};

    ghost also_owns = { λ _. ftrue };
}

/// A call, with the page that it gave or was handed.
#[derive(Clone, Copy, Drop)]
pub enum Called<'a> {
    Read { block: u16, page: &'a [u8; 1024] },
    ReadFailed { block: u16 },
    Written { block: u16, page: &'a [u8; 1024] },
    WriteFailed { block: u16, page: &'a [u8; 1024] },
}

impl PageLog {
    ghost use Rattle.block_buffers.specs.Noted.{call_of};

    /// No call was given.
    pub fn new() -> PageLog
        ensures { result.calls ≡ [] }
    {
        PageLog {}
    }

    /// One more call was given.
    #[inline(always)]
    pub fn then(&self, _call: &Called<'_>) -> PageLog
        ensures { result.calls ≡ self.now.calls ++ call_of _call.now ∷ [] }
    {
        PageLog {}
    }
}
