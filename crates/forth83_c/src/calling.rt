//! A word that a host calls, and what was before it.

ghost use Rattle.std.specs.Prelude.{◌≡◌, ◌≢◌};
ghost use Rattle.forth83_c.specs.declared.status.Status.TheVariants as status;
ghost use Rattle.forth83_c.specs.Calls.{HasCalled, HasResumed, WhyNotCalled, WhyNotResumed};

use crate::kept::is_record;
use crate::record::{Forth83, Forth83Aside};
use crate::stack_cells::{behind_line, put_line, top_line};
use crate::status::Status;

/// Calls a word: where the machine is is kept aside, and the word is entered.
pub fn call(kept: &mut Forth83, word: u16) -> Status
    ensures called { result ≡ status.Done → HasCalled kept.old kept.new word }
    ensures why { WhyNotCalled kept.old result }
    ensures stays { result ≢ status.Done → kept.new ≡ kept.old }
{
    if !is_record(kept) {
        return Status::NoMachine;
    }
    if kept.halts != 0 {
        return Status::Halted;
    }
    if kept.asks > 2 || kept.is_called != 0 {
        return Status::Waiting;
    }
    let Some(line) = top_line(&kept.values, kept.values_top, kept.asks) else {
        return Status::Stack;
    };
    let top = behind_line(&kept.values, kept.values_top, kept.asks);
    kept.aside = Forth83Aside {
        ip: kept.ip,
        has_pending: kept.has_pending,
        pending: kept.pending,
        asks: kept.asks,
        asked: kept.asked,
        token: kept.token,
        line,
        returns_top: kept.returns_top,
        returns: kept.returns,
    };
    kept.is_called = 1;
    kept.values_top = top;
    kept.returns_top = 256;
    kept.ip = 0;
    kept.has_pending = 1;
    kept.pending = word;
    kept.asks = 0;
    Status::Done
}

/// Puts the machine back where it was before the call; a request that is open is given up.
pub fn resume(kept: &mut Forth83) -> Status
    ensures resumed { result ≡ status.Done → HasResumed kept.old kept.new }
    ensures why { WhyNotResumed kept.old result }
    ensures stays { result ≢ status.Done → kept.new ≡ kept.old }
{
    if !is_record(kept) {
        return Status::NoMachine;
    }
    if kept.is_called == 0 {
        return Status::NotAsked;
    }
    if kept.halts != 0 {
        return Status::Halted;
    }
    let below = behind_line(&kept.values, kept.values_top, kept.asks);
    let asks = kept.aside.asks;
    let line = kept.aside.line;
    let Some(top) = put_line(&mut kept.values, below, asks, line) else {
        return Status::Stack;
    };
    kept.values_top = top;
    kept.returns_top = kept.aside.returns_top;
    kept.returns = kept.aside.returns;
    kept.ip = kept.aside.ip;
    kept.has_pending = kept.aside.has_pending;
    kept.pending = kept.aside.pending;
    kept.asks = kept.aside.asks;
    kept.asked = kept.aside.asked;
    kept.token = kept.aside.token;
    kept.is_called = 0;
    Status::Done
}
