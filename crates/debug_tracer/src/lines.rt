//! Sending the lines of a trace.

ghost use Rattle.std.specs.Prelude.{◌++◌, OnOk, OnErr};
ghost use Rattle.memory.specs.Mirrored.{stored};
ghost use Rattle.std.specs.Io.KnownBytes.{Appends};
ghost use Rattle.dictionary.specs.Header.{name_of};
ghost use Rattle.inner_interpreter.specs.Ends.{Marks};
ghost use Rattle.inner_interpreter.specs.Sent.{AppendsPart};
ghost use Rattle.debug_tracer.specs.Lines.{blank, bar, line_end, name_if, name_at, place_text, values_text, returns_text, line};

use dictionary::{header, header_at};
use inner_interpreter::{EndFault, LentMachine, Output, send_all};
use itoa::{Buffer, Integer};
use memory::Memory;
use stacks::Stack;

/// Sends a number in decimal.
fn send_number<I: Integer, T: Output>(x: I, trace: &mut T) -> Result<(), EndFault>
    ensures ok { OnOk result (Appends (T.sent trace.old) (T.sent trace.new) (I.text x)) }
    ensures err { OnErr result (AppendsPart (T.sent trace.old) (T.sent trace.new) (I.text x)) }
    ensures mark { Marks (T.failed trace.old) (T.failed trace.new) result }
{
    let mut buffer = Buffer::new();
    send_all(trace, buffer.format(x).as_bytes())
}

#[tactic(auto, unfolding(crate::specs::Lines::blank))]
fn send_blank<T: Output>(trace: &mut T) -> Result<(), EndFault>
    ensures ok { OnOk result (Appends (T.sent trace.old) (T.sent trace.new) blank) }
    ensures err { OnErr result (AppendsPart (T.sent trace.old) (T.sent trace.new) blank) }
    ensures mark { Marks (T.failed trace.old) (T.failed trace.new) result }
{
    send_all(trace, b" ")
}

#[tactic(auto, unfolding(crate::specs::Lines::bar))]
fn send_bar<T: Output>(trace: &mut T) -> Result<(), EndFault>
    ensures ok { OnOk result (Appends (T.sent trace.old) (T.sent trace.new) bar) }
    ensures err { OnErr result (AppendsPart (T.sent trace.old) (T.sent trace.new) bar) }
    ensures mark { Marks (T.failed trace.old) (T.failed trace.new) result }
{
    send_all(trace, b" |")
}

#[tactic(auto, unfolding(crate::specs::Lines::line_end))]
fn send_line_end<T: Output>(trace: &mut T) -> Result<(), EndFault>
    ensures ok { OnOk result (Appends (T.sent trace.old) (T.sent trace.new) line_end) }
    ensures err { OnErr result (AppendsPart (T.sent trace.old) (T.sent trace.new) line_end) }
    ensures mark { Marks (T.failed trace.old) (T.failed trace.new) result }
{
    send_all(trace, b"\n")
}

/// Sends a number in decimal, after a blank.
#[tactic(auto, using(inner_interpreter::proofs::Sending::part_second, inner_interpreter::proofs::Sending::part_first, inner_interpreter::proofs::Sending::appends_both))]
fn send_apart<I: Integer, T: Output>(x: I, trace: &mut T) -> Result<(), EndFault>
    ensures ok { OnOk result (Appends (T.sent trace.old) (T.sent trace.new) (blank ++ I.text x)) }
    ensures err { OnErr result (AppendsPart (T.sent trace.old) (T.sent trace.new) (blank ++ I.text x)) }
    ensures mark { Marks (T.failed trace.old) (T.failed trace.new) result }
{
    match send_blank(trace) {
        Ok(()) => send_number(x, trace),
        Err(fault) => Err(fault),
    }
}

/// Sends the cells of the data stack from the bottom, each after a blank, as signed decimals.
fn send_values<T: Output>(values: &Stack, trace: &mut T) -> Result<(), EndFault>
    ensures ok { OnOk result (Appends (T.sent trace.old) (T.sent trace.new) (values_text values.now)) }
    ensures err { OnErr result (AppendsPart (T.sent trace.old) (T.sent trace.new) (values_text values.now)) }
    ensures mark { Marks (T.failed trace.old) (T.failed trace.new) result }
{
    for place in 0..values.depth() {
        let Some(x) = values.get(place) else {
            unreachable!()
        };
        match send_apart(x.cast_signed(), trace) {
            Ok(()) => {}
            Err(fault) => return Err(fault),
        }
    }
    Ok(())
}

/// Sends the cells of the return stack from the bottom, each after a blank, as unsigned decimals.
fn send_returns<T: Output>(returns: &Stack, trace: &mut T) -> Result<(), EndFault>
    ensures ok { OnOk result (Appends (T.sent trace.old) (T.sent trace.new) (returns_text returns.now)) }
    ensures err { OnErr result (AppendsPart (T.sent trace.old) (T.sent trace.new) (returns_text returns.now)) }
    ensures mark { Marks (T.failed trace.old) (T.failed trace.new) result }
{
    for place in 0..returns.depth() {
        let Some(x) = returns.get(place) else {
            unreachable!()
        };
        match send_apart(x, trace) {
            Ok(()) => {}
            Err(fault) => return Err(fault),
        }
    }
    Ok(())
}

/// Sends a header's name as it is in this memory, `?` if there is no header.
#[tactic(auto, using(inner_interpreter::proofs::Sending::part_second, inner_interpreter::proofs::Sending::part_first, inner_interpreter::proofs::Sending::appends_both), unfolding(dictionary::specs::Header::name_of))]
fn send_name_if<T: Output>(
    memory: &Memory,
    link_field: Option<u16>,
    trace: &mut T,
) -> Result<(), EndFault>
    ensures ok { OnOk result (Appends (T.sent trace.old) (T.sent trace.new) (name_if (stored memory.now) link_field)) }
    ensures err { OnErr result (AppendsPart (T.sent trace.old) (T.sent trace.new) (name_if (stored memory.now) link_field)) }
    ensures mark { Marks (T.failed trace.old) (T.failed trace.new) result }
{
    let Some(l) = link_field else {
        return send_all(trace, b"?");
    };
    let (front, back) = memory.span(l.wrapping_add(3), u16::from(header(memory, l).length));
    match send_all(trace, front) {
        Ok(()) => send_all(trace, back),
        Err(fault) => Err(fault),
    }
}

/// Sends the name that an address has in this memory, by its headers.
#[tactic(auto, unfolding(crate::specs::Lines::name_at))]
fn send_name<T: Output>(
    memory: &Memory,
    headers: &[u16],
    address: u16,
    trace: &mut T,
) -> Result<(), EndFault>
    ensures ok { OnOk result (Appends (T.sent trace.old) (T.sent trace.new) (name_at (stored memory.now) headers.now address)) }
    ensures err { OnErr result (AppendsPart (T.sent trace.old) (T.sent trace.new) (name_at (stored memory.now) headers.now address)) }
    ensures mark { Marks (T.failed trace.old) (T.failed trace.new) result }
{
    send_name_if(memory, header_at(memory, headers, address), trace)
}

/// Sends where the token that comes next is, and its name.
#[tactic(auto, using(inner_interpreter::proofs::Sending::part_second, inner_interpreter::proofs::Sending::part_first, inner_interpreter::proofs::Sending::appends_both))]
fn send_place<T: Output>(
    memory: &Memory,
    headers: &[u16],
    machine: &LentMachine,
    trace: &mut T,
) -> Result<(), EndFault>
    ensures ok { OnOk result (Appends (T.sent trace.old) (T.sent trace.new)
        (place_text (stored memory.now) headers.now machine.now.parts)) }
    ensures err { OnErr result (AppendsPart (T.sent trace.old) (T.sent trace.new)
        (place_text (stored memory.now) headers.now machine.now.parts)) }
    ensures mark { Marks (T.failed trace.old) (T.failed trace.new) result }
{
    let ip = machine.ip();
    match send_number(ip, trace) {
        Ok(()) => {}
        Err(fault) => return Err(fault),
    }
    match send_blank(trace) {
        Ok(()) => {}
        Err(fault) => return Err(fault),
    }
    send_name(memory, headers, machine.memory().cell(ip), trace)
}

/// Sends the line of the tick that comes next, with the names that this memory has for tokens, by its headers.
#[tactic(auto, using(inner_interpreter::proofs::Sending::part_second, inner_interpreter::proofs::Sending::part_first, inner_interpreter::proofs::Sending::appends_both), unfolding(crate::specs::Lines::line))]
pub fn send_line<T: Output>(
    memory: &Memory,
    headers: &[u16],
    machine: &LentMachine,
    trace: &mut T,
) -> Result<(), EndFault>
    ensures ok { OnOk result (Appends (T.sent trace.old) (T.sent trace.new) (line (stored memory.now) headers.now machine.now.parts)) }
    ensures err { OnErr result (AppendsPart (T.sent trace.old) (T.sent trace.new)
        (line (stored memory.now) headers.now machine.now.parts)) }
    ensures mark { Marks (T.failed trace.old) (T.failed trace.new) result }
{
    match send_place(memory, headers, machine, trace) {
        Ok(()) => {}
        Err(fault) => return Err(fault),
    }
    match send_bar(trace) {
        Ok(()) => {}
        Err(fault) => return Err(fault),
    }
    match send_values(machine.values(), trace) {
        Ok(()) => {}
        Err(fault) => return Err(fault),
    }
    match send_bar(trace) {
        Ok(()) => {}
        Err(fault) => return Err(fault),
    }
    match send_returns(machine.returns(), trace) {
        Ok(()) => {}
        Err(fault) => return Err(fault),
    }
    send_line_end(trace)
}
