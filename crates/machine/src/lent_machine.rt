//! A machine over memory that is lent: its moves and its views.

ghost use Rattle.std.specs.Prelude.{◌≡◌, ◌≤◌, ◌<◌, ◌-◌, ◌++◌, None, IfOk, IfErr, OnErr, IsTrue, IsFalse};
ghost use Rattle.std.specs.Option.{option_copied};
ghost use Rattle.memory.specs.Bytes.{bytes, cell, front_put, zeros};
ghost use Rattle.memory.specs.declared.system.TheConstants.{FAULT};
ghost use Rattle.memory.specs.Mirrored.{stored};
ghost use Rattle.machine.specs.Answer.{asked_by, asked_page};
ghost use Rattle.machine.specs.Onward.{ran_from};
ghost use Rattle.machine.specs.State.{loaded_state};
ghost use Rattle.machine.specs.Tick.{concluded, by_fault, IsTicked, AreTicked, IsRefused, Runs, is_running, ticked, shown_span, is_quiet, quiet};

mod answers;
mod entering;
mod onward;

use crate::act::{Act, Cause, Event, Refused, Shown, Stretch};
use crate::steps::{execute, take_token};
use crate::stretches::stretch;
use block_buffers::buffers::Buffers;
pub use entering::{BadSize, SaveRefused, saved_in_place};
use image_loader::Image;
use machine_parts::faults::ABORTED;
use machine_parts::parts::{Outcome, Parts, Request, Span};
use memory::Memory;
use memory::system::FAULT;
use name_index::NameIndex;
use rows_in_place::rows_by_code;
use stacks::Stack;
use std::alloc::Global;
use std::marker::Model;

/// A Forth machine over memory that is lent. It moves by ticks and by answers to what it asks; beside that a host may enter a
/// word and write a cell.
#[derive(Drop)]
pub struct LentMachine<'m> {
    parts: Parts<'m>,
    wait: Option<(Request, u16)>,
    halt: Option<Cause>,
}

impl<'m> Model for LentMachine<'m> {
    ghost use Rattle.machine.specs.State.{State};

    ghost Value = { State };

    ghost view = { λ m. record { parts = m.parts; wait = m.wait; halt = m.halt } };
}

fn shown(span: Span) -> Shown
    ensures { result ≡ shown_span span }
{
    if span.len == 0 {
        Shown::Nothing
    } else {
        Shown::Span(span)
    }
}

fn quiet() -> Act
    ensures { result ≡ quiet }
{
    Act {
        shown: Shown::Nothing,
        event: Event::Went,
    }
}

/// So many ticks, all of them quiet.
fn quiet_stretch(count: u64, from: u16) -> Stretch
    ensures { result ≡ record { count = count; act = quiet; from = from } }
{
    Stretch {
        count,
        act: quiet(),
        from,
    }
}

/// Whether an act shows nothing and goes on.
fn is_quiet(act: &Act) -> bool
    ensures { result ≡ is_quiet act.now }
{
    match act.shown {
        Shown::Nothing => match act.event {
            Event::Went => true,
            _ => false,
        },
        _ => false,
    }
}

/// The address of the fault thread; 0 if there is none.
fn fault_thread(parts: &Parts) -> u16
    ensures { result ≡ cell parts.now.memory FAULT }
{
    parts.memory.cell(FAULT)
}

impl<'m> LentMachine<'m> {
    /// A machine over memory that has just an image's bytes, for a device of `block_count` blocks. Its index takes
    /// memory for a table when a search can use one; without that memory, searches are slower.
    #[tactic(auto, unfolding(machine_parts::specs::Whole::place_of))]
    pub fn load(
        alloc: Global,
        memory: &'m mut Memory,
        image: &Image,
        block_count: u32,
    ) -> LentMachine<'m>
        requires loaded { stored memory.old ≡ front_put image.now.bytes zeros }
        ensures { result ≡ loaded_state image.now block_count }
    {
        let buffers = Buffers::new(image.buffers());
        let limit = buffers.limit();
        let parts = Parts {
            memory,
            is_lent: false,
            values: Stack::new(),
            returns: Stack::new(),
            ip: 0,
            pending: Some(image.entry()),
            buffers,
            block_count,
            limit,
            index: NameIndex::new(alloc),
        };
        LentMachine {
            parts,
            wait: None,
            halt: None,
        }
    }

    /// Takes the machine apart: its parts, the request that waits with the token that asked, and why it halted.
    pub fn into_parts(self) -> (Parts<'m>, Option<(Request, u16)>, Option<Cause>)
        ensures { self.entry ≡ record { parts = result.0; wait = result.1; halt = result.2 } }
    {
        let LentMachine { parts, wait, halt } = self;
        (parts, wait, halt)
    }

    /// Puts a machine together again: what `into_parts` took apart is the same machine.
    pub fn resume(
        parts: Parts<'m>,
        wait: Option<(Request, u16)>,
        halt: Option<Cause>,
    ) -> LentMachine<'m>
        ensures { result ≡ record { parts = parts.entry; wait = wait; halt = halt } }
    {
        LentMachine { parts, wait, halt }
    }

    /// Memory.
    pub fn memory(&self) -> &Memory
        ensures { stored result.now ≡ self.now.parts.memory }
    {
        self.parts.memory
    }

    /// The data stack.
    pub fn values(&self) -> &Stack
        ensures { result.now ≡ self.now.parts.values }
    {
        &self.parts.values
    }

    /// The return stack.
    pub fn returns(&self) -> &Stack
        ensures { result.now ≡ self.now.parts.returns }
    {
        &self.parts.returns
    }

    /// The block buffers, the most recently referenced first.
    pub fn buffers(&self) -> &Buffers
        ensures { result.now ≡ self.now.parts.buffers }
    {
        &self.parts.buffers
    }

    /// The address of the token that comes next in place of that at `ip`, if there is one.
    pub fn pending(&self) -> Option<u16>
        ensures { result ≡ self.now.parts.pending }
    {
        self.parts.pending
    }

    /// The address of the next token in the thread.
    pub fn ip(&self) -> u16
        ensures { result ≡ self.now.parts.ip }
    {
        self.parts.ip
    }

    /// Why the machine halted, if it did.
    pub fn halted(&self) -> Option<Cause>
        ensures { result ≡ self.now.halt }
    {
        self.halt
    }

    /// The request that waits, if there is one.
    pub fn asked(&self) -> Option<Request>
        ensures { result ≡ asked_by self.now.wait }
    {
        match self.wait {
            Some((request, _)) => Some(request),
            None => None,
        }
    }

    /// The request that waits, if there is one, with the token that asked.
    pub fn waiting(&self) -> Option<(Request, u16)>
        ensures { result ≡ self.now.wait }
    {
        self.wait
    }

    /// The bytes of the block that a `Write` asks to keep; `None` if none is asked.
    pub fn asked_page(&self) -> Option<&[u8; 1024]>
        ensures { option_copied result ≡ asked_page self.now }
    {
        match self.wait {
            Some((Request::Write { block }, _)) => {
                let slot = self.parts.buffers.slot_of(block);
                let at = self.parts.buffers.address_of(slot);
                Some(self.parts.memory.page(at))
            }
            _ => None,
        }
    }

    /// The bytes of a span, in two pieces.
    pub fn shown(&self, span: Span) -> (&[u8], &[u8])
        ensures { result.0.now ++ result.1.now ≡ bytes self.now.parts.memory span.at span.len }
    {
        self.parts.memory.span(span.at, span.len)
    }

    /// One tick: a token is taken, and its row or thread is done. Refused while the machine is halted, and while
    /// it waits for an answer; it is then unchanged.
    pub fn tick(&mut self) -> Result<Act, Refused>
        ensures went { IfOk result (IsTicked self.old self.new) }
        ensures refused { IfErr result (IsRefused self.old self.new) }
        ensures stays { OnErr result (IsFalse (is_running self.old) × (self.new ≡ self.old)) }
    {
        if self.halt.is_some() {
            return Err(Refused::Halted);
        }
        if self.wait.is_some() {
            return Err(Refused::Waiting);
        }
        Ok(self.step())
    }

    /// Up to `n` ticks, of which only the last may show, ask, fault or halt: how many, and the last one's act.
    /// Refused as a tick would be, also if `n` is 0.
    pub fn ticks(&mut self, n: u64) -> Result<(u64, Act), Refused>
        ensures went { IfOk result (AreTicked n self.old self.new) }
        ensures some { IfOk result (λ r. 0 < n → 0 < r.0) }
        ensures most { IfOk result (λ r. r.0 ≤ n) }
        ensures refused { IfErr result (IsRefused self.old self.new) }
        ensures stays { OnErr result (IsFalse (is_running self.old) × (self.new ≡ self.old)) }
    {
        if self.halt.is_some() {
            return Err(Refused::Halted);
        }
        if self.wait.is_some() {
            return Err(Refused::Waiting);
        }
        let made = self.ticks_running(n);
        Ok((made.count, made.act))
    }

    /// `ticks` of a machine that runs.
    #[tactic(auto, using(crate::proofs::Ran::from_none, crate::proofs::Ran::from_quiet, crate::proofs::Ran::from_loud), unfolding(crate::specs::Onward::gone))]
    pub(crate) fn ticks_running(&mut self, n: u64) -> Stretch
        requires { Runs self.old }
        ensures ran { (result.from, result.count, self.new, result.act) ≡ ran_from 0 n self.old.parts }
        ensures some { 0 < n → 0 < result.count }
        ensures most { result.count ≤ n }
    {
        let mut done = stretch(&mut self.parts, rows_by_code(), None, 0, n);
        while done < n {
            let from = self.parts.ip;
            let act = self.step();
            done += 1;
            if !is_quiet(&act) {
                return Stretch {
                    count: done,
                    act,
                    from,
                };
            }
            done = stretch(&mut self.parts, rows_by_code(), None, done, n);
        }
        quiet_stretch(n, self.parts.ip)
    }

    /// A tick of a machine that runs.
    #[tactic(auto, unfolding(crate::specs::Tick::ticked))]
    pub(crate) fn step(&mut self) -> Act
        requires { Runs self.old }
        ensures ticked { (self.new, result) ≡ ticked self.old.parts }
        ensures goes_on { IsTrue (is_quiet result) → Runs self.new }
    {
        let token = take_token(&mut self.parts);
        let outcome = execute(&mut self.parts, token);
        self.conclude(token, outcome)
    }

    /// What the outcome of a token comes to.
    #[tactic(auto, unfolding(crate::specs::Tick::concluded))]
    fn conclude(&mut self, token: u16, outcome: Outcome) -> Act
        requires { Runs self.old }
        ensures concluded { (self.new, result) ≡ concluded token (self.old.parts, outcome) }
        ensures goes_on { IsTrue (is_quiet result) → Runs self.new }
    {
        let went = |shown: Shown| Act {
            shown,
            event: Event::Went,
        };
        match outcome {
            Outcome::Done => went(Shown::Nothing),
            Outcome::Show(span) => went(shown(span)),
            Outcome::Byte(byte) => went(Shown::Byte(byte)),
            Outcome::Ask(request) => {
                self.wait = Some((request, token));
                Act {
                    shown: Shown::Nothing,
                    event: Event::Ask(request),
                }
            }
            Outcome::Fault(f) => self.fault(Shown::Nothing, f),
            Outcome::Abort(span) => self.fault(shown(span), ABORTED),
            Outcome::Halt => {
                self.halt = Some(Cause::Bye);
                Act {
                    shown: Shown::Nothing,
                    event: Event::Halt(Cause::Bye),
                }
            }
        }
    }

    /// Fault `f`, after what was shown.
    #[tactic(auto, unfolding(crate::specs::Tick::by_fault))]
    fn fault(&mut self, shown: Shown, f: u16) -> Act
        requires { Runs self.old }
        ensures fault { (self.new, result) ≡ by_fault self.old.parts shown f }
        ensures loud { IsFalse (is_quiet result) }
        ensures settled { self.new.wait ≡ None }
    {
        let handler = fault_thread(&self.parts);
        self.parts.values.clear();
        self.parts.values.put(f);
        self.parts.returns.clear();
        self.parts.pending = None;
        self.parts.ip = handler;
        if handler == 0 {
            self.halt = Some(Cause::Fault(f));
            return Act {
                shown,
                event: Event::Halt(Cause::Fault(f)),
            };
        }
        Act {
            shown,
            event: Event::Fault(f),
        }
    }
}
