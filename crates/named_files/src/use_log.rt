//! What was opened and handed back, kept for contracts alone.

ghost use Rattle.std.specs.Prelude.{◌≡◌, ◌++◌, ◌∷◌, ℕ, List, [], Bool, Option, Some};
ghost use Rattle.std.specs.Coded.{coded_list};
ghost use Rattle.block_buffers.specs.DeviceCalls.{DeviceCall, call_coded};

use block_buffers::PageLog;
use inner_interpreter::{ByteLog, ReadLog};
use std::marker::Model;

/// What was handed back, in order. It takes no memory; a contract reads it as `opened`, `blocks`, `keys` and `traces`.
#[derive(Drop)]
pub struct UseLog {
    pub ghost opened: { List ℕ },
    pub ghost blocks: { List (List DeviceCall) } by { coded_list (coded_list call_coded) },
    pub ghost keys: { List (List (Option ℕ) × Bool) },
    pub ghost traces: { List (Option (List ℕ) × (Bool × Bool)) },
}

impl Model for UseLog {
    ghost use Rattle.std.specs.Borrow.{ftrue};

    ghost also_owns = { λ _. ftrue };
}

/// How many blocks there are.
#[derive(Clone, Copy, Drop)]
pub struct Opened {
    pub count: u32,
}

/// A reader: what its calls gave, and whether one failed.
#[derive(Clone, Copy, Drop)]
pub struct KeysUse<'a> {
    pub reads: &'a ReadLog,
    pub failed: bool,
}

/// A trace: its lines, and whether a call failed.
#[derive(Clone, Copy, Drop)]
pub struct TraceUse<'a> {
    pub lines: &'a ByteLog,
    pub failed: bool,
}

impl UseLog {
    /// Nothing was handed back.
    pub fn new() -> UseLog
        ensures { (result.opened ≡ []) × (result.blocks ≡ []) × (result.keys ≡ []) × (result.traces ≡ []) }
    {
        UseLog {}
    }

    /// Blocks were opened.
    #[inline(always)]
    pub fn with_opened(&self, _opened: &Opened) -> UseLog
        ensures { (result.opened ≡ self.now.opened ++ _opened.now.count ∷ []) × (result.blocks ≡ self.now.blocks)
            × (result.keys ≡ self.now.keys) × (result.traces ≡ self.now.traces) }
    {
        UseLog {}
    }

    /// Blocks were handed back.
    #[inline(always)]
    pub fn with_blocks(&self, _calls: &PageLog) -> UseLog
        ensures { (result.opened ≡ self.now.opened) × (result.blocks ≡ self.now.blocks ++ _calls.now.calls ∷ [])
            × (result.keys ≡ self.now.keys) × (result.traces ≡ self.now.traces) }
    {
        UseLog {}
    }

    /// A reader was handed back.
    #[inline(always)]
    pub fn with_keys(&self, _used: &KeysUse<'_>) -> UseLog
        ensures { (result.opened ≡ self.now.opened) × (result.blocks ≡ self.now.blocks) × (result.keys ≡ self.now.keys ++ (_used.now.reads.now.reads, _used.now.failed) ∷ [])
            × (result.traces ≡ self.now.traces) }
    {
        UseLog {}
    }

    /// A trace was handed back.
    #[inline(always)]
    pub fn with_trace(&self, _used: &TraceUse<'_>) -> UseLog
        ensures { (result.opened ≡ self.now.opened) × (result.blocks ≡ self.now.blocks) × (result.keys ≡ self.now.keys)
            × (result.traces ≡ self.now.traces ++ (Some _used.now.lines.now.bytes, (_used.now.lines.now.passed, _used.now.failed)) ∷ []) }
    {
        UseLog {}
    }
}
