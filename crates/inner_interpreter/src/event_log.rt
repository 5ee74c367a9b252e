//! Events of a machine, kept for contracts alone.
ghost use Rattle.std.specs.Prelude.{◌≡◌, ◌++◌, List, []};
ghost use Rattle.std.specs.Coded.{coded_list};
ghost use Rattle.machine.specs.contracts.act.Event as event;
ghost use Rattle.machine.specs.declared.act.Event.{Event as Noted};

use machine::Event;
use std::marker::Model;

/// The requests, faults and halts that moves came to, in order. It takes no memory; a contract reads it as `events`.
#[derive(Drop)]
pub struct EventLog {
    pub ghost events: { List Noted } by { coded_list event.the_row.coded },
}

impl Model for EventLog {
    ghost use Rattle.std.specs.Borrow.{ftrue};

    ghost also_owns = { λ _. ftrue };
}

impl EventLog {
    ghost use Rattle.inner_interpreter.specs.Histories.{told_event};

    /// No event.
    pub fn new() -> EventLog
        ensures { result.events ≡ [] }
    {
        EventLog {}
    }

    /// What one move more came to.
    pub fn then(&self, _event: &Event) -> EventLog
        ensures { result.events ≡ self.now.events ++ told_event _event.now }
    {
        EventLog {}
    }
}
