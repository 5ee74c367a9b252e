//! Driving a machine up to where its host is needed.

ghost use Rattle.std.specs.Prelude.{◌≡◌, ◌≤◌, ◌<◌, ◌+◌, ◌-◌, ℕ, List, length, drop, Some, None, true, false, IfSome, IsNone};
ghost use Rattle.std.specs.List.{list_all};
ghost use Rattle.cells.specs.Cell.{wrap};
ghost use Rattle.machine_parts.specs.declared.parts.Request.TheVariants as request;
ghost use Rattle.machine.specs.Answer.{answer_of, asked_by, is_typed};
ghost use Rattle.inner_interpreter.specs.Lines.{line_reply};
ghost use Rattle.machine.specs.Met.{AreUnmet};
ghost use Rattle.machine.specs.Onward.{ran_from};
ghost use Rattle.machine.specs.Tick.{Runs, ran, ticked};
ghost use Rattle.inner_interpreter.specs.Worlds.{rounds_left};
ghost use Rattle.forth83_c.specs.Driven.{EndsAt, GoesOn, HasDriven, HasStopped, StepsOn, at_0, counted, is_returned, least_room};

use crate::lines::whole_line;
use crate::record::Forth83Faults;
use crate::showing::{least_room, show};
use crate::stop::Stop;
use inner_interpreter::{Act, Answer, Cause, Event, Extent, LentMachine, Stretch};
use machine_parts::parts::Request;

/// Where a word that was called comes to when it has returned.
const AT_0: Extent = Extent { from: 0, end: 1 };

/// No address.
const NOWHERE: Extent = Extent { from: 0, end: 0 };

/// How far a call is: how many typed bytes were read and how many bytes shown, how many ticks are left, and the faults so far.
#[derive(Clone, Copy, Debug)]
pub struct Course {
    pub read: usize,
    pub shown: usize,
    pub left: u64,
    pub faults: Forth83Faults,
}

/// The faults with this one, which was met at `ip`.
fn with_fault(faults: Forth83Faults, ip: u16, fault: u16) -> Forth83Faults
    ensures count { result.count ≡ wrap (faults.count + 1) }
    ensures last { result.last ≡ fault }
    ensures ip { result.ip ≡ ip }
{
    Forth83Faults {
        count: faults.count.wrapping_add(1),
        last: fault,
        ip,
    }
}

/// The faults with that of a move that began at `ip`, if it comes to one.
pub fn counted(ip: u16, event: Event, faults: Forth83Faults) -> Forth83Faults
    ensures { result ≡ counted ip event faults }
{
    match event {
        Event::Fault(fault) => with_fault(faults, ip, fault),
        Event::Halt(Cause::Fault(fault)) => with_fault(faults, ip, fault),
        _ => faults,
    }
}

/// Whether a word that was called has returned.
#[tactic(auto, unfolding(crate::specs::Driven::is_returned))]
fn is_returned(machine: &LentMachine) -> bool
    ensures { result ≡ is_returned machine.now }
{
    let goes = machine.halted().is_none() && machine.asked().is_none();
    goes && machine.pending().is_none() && machine.ip() == 0 && machine.returns().depth() == 0
}

/// Ticks up to the first act that isn't quiet, and during a call up to where a token at address 0 comes next: how many, the last one's
/// act, and `ip` before it.
fn ticks(machine: &mut LentMachine, left: u64, calling: bool) -> Stretch
    requires runs { Runs machine.old }
    requires some { 0 < left }
    ensures ran { (result.count, machine.new, result.act) ≡ ran 0 result.count machine.old.parts }
    ensures from { result.from ≡ (ran_from 0 result.count machine.old.parts).0 }
    ensures some { 0 < result.count }
    ensures most { result.count ≤ left }
    ensures unmet { calling ≡ true → AreUnmet at_0 (result.count - 1) (ticked machine.old.parts).0.parts }
{
    if calling {
        return machine.ticks_onward(left, AT_0);
    }
    machine.ticks_onward(left, NOWHERE)
}

/// The bytes from a place on.
fn behind(bytes: &[u8], at: usize) -> &[u8]
    requires { at ≤ length bytes.now }
    ensures { result.now ≡ drop at bytes.now }
{
    &bytes[at..]
}

/// Ticks as `ticks` makes them; why the call ends there, if what the last one shows does not fit.
fn tick_on(
    machine: &mut LentMachine,
    out: &mut [u8],
    course: &mut Course,
    calling: bool,
) -> Option<Stop>
    requires runs { Runs machine.old }
    requires called { calling ≡ true → is_returned machine.old ≡ false }
    requires some { 0 < course.old.left }
    requires inside { course.old.shown ≤ length out.old }
    requires room { least_room (length out.old) ≤ length out.old - course.old.shown }
    ensures on { GoesOn calling machine.old course.old out.old machine.new course.new out.new result }
    ensures stopped { (unread : List ℕ) → IfSome result (λ stop. HasStopped calling stop machine.new unread course.new.left
        (length out.new) (length out.new - course.new.shown)) }
    ensures read { course.new.read ≡ course.old.read }
    ensures beyond { drop course.new.shown out.new ≡ drop course.new.shown out.old }
    ensures more { course.old.shown ≤ course.new.shown }
    ensures shown { course.new.shown ≤ length out.new }
    ensures fewer { course.new.left < course.old.left }
    ensures len { length out.new ≡ length out.old }
{
    let made = ticks(machine, course.left, calling);
    course.left -= made.count;
    course.faults = counted(made.from, made.act.event, course.faults);
    let (place, stop) = show(machine, out, course.shown, made.act.shown);
    course.shown = place;
    stop
}

/// A key from the typed bytes.
fn answer_key(
    machine: &mut LentMachine,
    typed: &[u8],
    out: &mut [u8],
    course: &mut Course,
    calling: bool,
) -> Option<Stop>
    requires waits { asked_by machine.old.wait ≡ Some request.Key }
    requires goes { machine.old.halt ≡ None }
    requires some { 0 < course.old.left }
    requires read { course.old.read ≤ length typed.now }
    requires inside { course.old.shown ≤ length out.old }
    requires room { least_room (length out.old) ≤ length out.old - course.old.shown }
    ensures on { StepsOn calling typed.now machine.old course.old out.old machine.new course.new out.new result }
    ensures stopped { IfSome result (λ stop. HasStopped calling stop machine.new (drop course.new.read typed.now) course.new.left
        (length out.new) (length out.new - course.new.shown)) }
    ensures settled { IsNone result → machine.new.wait ≡ None }
    ensures left { course.new.left ≡ course.old.left }
    ensures read { course.new.read ≤ length typed.now }
    ensures beyond { drop course.new.shown out.new ≡ drop course.new.shown out.old }
    ensures more { course.old.shown ≤ course.new.shown }
    ensures shown { course.new.shown ≤ length out.new }
    ensures len { length out.new ≡ length out.old }
{
    if course.read >= typed.len() {
        return Some(Stop::Typed);
    }
    let ip = machine.ip();
    let act = machine.answer(Answer::Key(typed[course.read])).unwrap();
    let (place, stop) = show(machine, out, course.shown, act.shown);
    course.shown = place;
    course.faults = counted(ip, act.event, course.faults);
    course.read += 1;
    stop
}

/// Answers with a line; no byte and no return are the end of input.
#[tactic(auto, using(inner_interpreter::proofs::Lining::line_fits, crate::proofs::Taking::reply_none, crate::proofs::Taking::reply_some, crate::proofs::Taking::reply_returned))]
fn give_line(machine: &mut LentMachine, bytes: &[u8], returned: bool, _n: u16) -> Act
    requires waits { asked_by machine.old.wait ≡ Some (request.Line _n) }
    requires goes { machine.old.halt ≡ None }
    requires typed { list_all is_typed bytes.now ≡ true }
    requires few { length bytes.now ≤ _n }
    requires fewer { returned ≡ true → length bytes.now < _n }
    ensures answered { (machine.new, result) ≡ answer_of machine.old (line_reply bytes.now returned) }
    ensures settled { machine.new.wait ≡ None }
{
    if returned {
        let line = Answer::Line {
            bytes,
            returned: true,
        };
        return machine.answer(line).unwrap();
    }
    if bytes.len() == 0 {
        return machine.answer(Answer::InputEnd).unwrap();
    }
    let line = Answer::Line {
        bytes,
        returned: false,
    };
    machine.answer(line).unwrap()
}

/// A line from the typed bytes.
fn answer_line(
    machine: &mut LentMachine,
    typed: &[u8],
    out: &mut [u8],
    course: &mut Course,
    n: u16,
    calling: bool,
) -> Option<Stop>
    requires waits { asked_by machine.old.wait ≡ Some (request.Line n) }
    requires goes { machine.old.halt ≡ None }
    requires some { 0 < course.old.left }
    requires read { course.old.read ≤ length typed.now }
    requires inside { course.old.shown ≤ length out.old }
    requires room { least_room (length out.old) ≤ length out.old - course.old.shown }
    ensures on { StepsOn calling typed.now machine.old course.old out.old machine.new course.new out.new result }
    ensures stopped { IfSome result (λ stop. HasStopped calling stop machine.new (drop course.new.read typed.now) course.new.left
        (length out.new) (length out.new - course.new.shown)) }
    ensures settled { IsNone result → machine.new.wait ≡ None }
    ensures left { course.new.left ≡ course.old.left }
    ensures read { course.new.read ≤ length typed.now }
    ensures beyond { drop course.new.shown out.new ≡ drop course.new.shown out.old }
    ensures more { course.old.shown ≤ course.new.shown }
    ensures shown { course.new.shown ≤ length out.new }
    ensures len { length out.new ≡ length out.old }
{
    let unread = behind(typed, course.read);
    let Some(line) = whole_line(unread, n) else {
        return Some(Stop::Typed);
    };
    let ip = machine.ip();
    let act = give_line(machine, &unread[..line.count], line.returned, n);
    let (place, stop) = show(machine, out, course.shown, act.shown);
    course.shown = place;
    course.faults = counted(ip, act.event, course.faults);
    course.read += line.next;
    stop
}

/// A move: a request is answered from the typed bytes, else ticks are made up to the first act that isn't quiet. Or why there
/// is none.
#[tactic(auto, using(inner_interpreter::proofs::Running::asked_none))]
fn step(
    machine: &mut LentMachine,
    typed: &[u8],
    out: &mut [u8],
    course: &mut Course,
    calling: bool,
) -> Option<Stop>
    requires read { course.old.read ≤ length typed.now }
    requires shown { course.old.shown ≤ length out.old }
    ensures on { StepsOn calling typed.now machine.old course.old out.old machine.new course.new out.new result }
    ensures stopped { IfSome result (λ stop. HasStopped calling stop machine.new (drop course.new.read typed.now) course.new.left
        (length out.new) (length out.new - course.new.shown)) }
    ensures fewer { IsNone result →
        rounds_left course.new.left machine.new.wait < rounds_left course.old.left machine.old.wait }
    ensures left { course.new.left ≤ course.old.left }
    ensures read { course.new.read ≤ length typed.now }
    ensures beyond { drop course.new.shown out.new ≡ drop course.new.shown out.old }
    ensures more { course.old.shown ≤ course.new.shown }
    ensures shown { course.new.shown ≤ length out.new }
    ensures len { length out.new ≡ length out.old }
{
    if machine.halted().is_some() {
        return Some(Stop::Halted);
    }
    if calling && is_returned(machine) {
        return Some(Stop::Returned);
    }
    if course.left == 0 {
        return Some(Stop::Limit);
    }
    if out.len() - course.shown < least_room(out.len()) {
        return Some(Stop::Room);
    }
    match machine.asked() {
        None => tick_on(machine, out, course, calling),
        Some(Request::Key) => answer_key(machine, typed, out, course, calling),
        Some(Request::Line { n }) => answer_line(machine, typed, out, course, n, calling),
        Some(Request::Read { block: _ }) => Some(Stop::Block),
        Some(Request::Write { block: _ }) => Some(Stop::Block),
    }
}

/// Drives a machine by typed bytes, for at most `limit` ticks, up to where its host is needed, or the word that was called has
/// returned: how far that is, and why it ended there.
#[tactic(auto, using(crate::proofs::Bytes::beyond_both))]
pub fn drive(
    machine: &mut LentMachine,
    typed: &[u8],
    out: &mut [u8],
    limit: u64,
    calling: bool,
    faults: Forth83Faults,
) -> (Course, Stop)
    ensures driven { HasDriven calling faults machine.old typed.now limit machine.new result.0 out.new result.1 }
    ensures stopped { EndsAt calling result.1 machine.new typed.now result.0 out.new }
    ensures left { result.0.left ≤ limit }
    ensures read { result.0.read ≤ length typed.now }
    ensures beyond { drop result.0.shown out.new ≡ drop result.0.shown out.old }
    ensures shown { result.0.shown ≤ length out.new }
    ensures len { length out.new ≡ length out.old }
{
    let mut course = Course {
        read: 0,
        shown: 0,
        left: limit,
        faults,
    };
    loop {
        if let Some(stop) = step(machine, typed, out, &mut course, calling) {
            return (course, stop);
        }
    }
}
