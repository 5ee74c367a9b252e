//! The rounds of one screen.

ghost use Rattle.std.specs.Prelude.{◌≡◌, ◌+◌, None, Some};
ghost use Rattle.block_buffers.specs.Disks.{Disk};
ghost use Rattle.machine.specs.Answer.{asked_by};
ghost use Rattle.machine.specs.Tick.{Runs};
ghost use Rattle.metacompiler.specs.Rounds.{is_end, is_ended, stopped, stop_by, rounds};
ghost use Rattle.metacompiler.specs.Moved.{stage};
ghost use Rattle.metacompiler.specs.Making.{IsSettled, IsSettledBy, IsRound, IsLed, StopsAt};

use block_buffers::Device;
use inner_interpreter::{Cause, Event, LentMachine, answer_read, answer_write};
use machine_parts::parts::Request;

/// Why the rounds of a screen stop.
#[derive(Clone, Copy, Debug, PartialEq, Eq)]
pub enum Stop {
    Ended,
    Limit,
    Fault(u16),
    Halted,
    Asked,
}

/// Whether the rounds of a screen stopped at its end.
pub fn is_end(stop: Stop) -> bool
    ensures { result ≡ is_end stop }
{
    match stop {
        Stop::Ended => true,
        _ => false,
    }
}

/// Whether the screen's end is reached.
fn is_ended(machine: &LentMachine) -> bool
    ensures { result ≡ is_ended machine.now.parts }
{
    machine.ip() == 0 && machine.pending().is_none() && machine.returns().depth() == 0
}

/// Where the rounds stop after a fault or a halt.
fn stopped(event: Event) -> Stop
    ensures { result ≡ stopped event }
{
    match event {
        Event::Fault(f) => Stop::Fault(f),
        Event::Halt(Cause::Fault(f)) => Stop::Fault(f),
        Event::Halt(_) => Stop::Halted,
        _ => Stop::Asked,
    }
}

/// Where the rounds stop after a move.
fn stop_by(machine: &LentMachine, event: Event) -> Option<Stop>
    ensures { result ≡ stop_by machine.now event }
{
    match event {
        Event::Went => if is_ended(machine) {
            Some(Stop::Ended)
        } else {
            None
        },
        _ => Some(stopped(event)),
    }
}

/// A request is answered if it is one of the device, and a tick is left.
#[tactic(auto, using(crate::proofs::Making::read_settled, crate::proofs::Making::write_settled, crate::proofs::Making::unsettled, crate::proofs::Moving::none_left))]
fn settle<D: Device>(
    machine: &mut LentMachine,
    device: &mut D,
    left: u64,
    request: Request,
) -> Option<Stop>
    requires waits { asked_by machine.old.wait ≡ Some request }
    requires goes { machine.old.halt ≡ None }
    ensures told { (d : Disk) → D.disk device.old ≡ Some d →
        IsSettled left machine.old d request machine.new (D.disk device.new) result }
    ensures moved { IsSettledBy request (stage machine.old (D.calls device.old) left)
        (stage machine.new (D.calls device.new) left) result }
{
    match request {
        Request::Read { block } => {
            if left == 0 {
                return Some(Stop::Limit);
            }
            let act = answer_read(machine, device, block);
            stop_by(machine, act.event)
        }
        Request::Write { block } => {
            if left == 0 {
                return Some(Stop::Limit);
            }
            let act = answer_write(machine, device, block);
            stop_by(machine, act.event)
        }
        _ => Some(Stop::Asked),
    }
}

/// A tick, and the answer to what it asks of the device.
#[tactic(auto, using(crate::proofs::Making::asked_waits, crate::proofs::Making::round_asked, crate::proofs::Making::round_made))]
fn make_round<D: Device>(machine: &mut LentMachine, device: &mut D, left: u64) -> Option<Stop>
    ensures told { (d : Disk) → D.disk device.old ≡ Some d → Runs machine.old →
        IsRound left machine.old.parts d machine.new (D.disk device.new) result }
    ensures moved { Runs machine.old → IsLed (stage machine.old (D.calls device.old) (left + 1))
        (stage machine.new (D.calls device.new) left) result }
{
    match machine.tick() {
        Ok(act) => match act.event {
            Event::Ask(request) => settle(machine, device, left, request),
            Event::Went => stop_by(machine, act.event),
            Event::Fault(_) => stop_by(machine, act.event),
            Event::Halt(_) => stop_by(machine, act.event),
        },
        Err(_) => Some(Stop::Halted),
    }
}

/// Ticks up to the screen's end, with what is asked of the device between them.
#[tactic(auto, using(crate::proofs::Making::none_so_far, crate::proofs::Making::more_so_far, crate::proofs::Making::stops_so_far, crate::proofs::Making::all_so_far))]
pub fn make_rounds<D: Device>(machine: &mut LentMachine, device: &mut D, left: &mut u64) -> Stop
    ensures told { (d : Disk) → D.disk device.old ≡ Some d → Runs machine.old →
        StopsAt (rounds left.old machine.old.parts d) machine.new (D.disk device.new) left.new result }
    ensures moved { Runs machine.old → IsLed (stage machine.old (D.calls device.old) left.old)
        (stage machine.new (D.calls device.new) left.new) (Some result) }
{
    while *left > 0 {
        *left -= 1;
        if let Some(stop) = make_round(machine, device, *left) {
            return stop;
        }
    }
    Stop::Limit
}
