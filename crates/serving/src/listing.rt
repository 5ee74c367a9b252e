//! What is made of the list of all headers: their link fields, their names, and DEBUG's line.

ghost use Rattle.std.specs.Prelude.{◌≡◌, ◌∷◌, ◌++◌, [], ℕ, List, false, IfOk, OnErr, OnOk};
ghost use Rattle.std.specs.Io.KnownBytes.{Appends};
ghost use Rattle.std.specs.List.{flat_map};
ghost use Rattle.cells.specs.Cell.{wrap};
ghost use Rattle.memory.specs.Bytes.{byte, cell, cell_bytes};
ghost use Rattle.memory.specs.Mirrored.{stored};
ghost use Rattle.debug_tracer.specs.Debugged.{debugged};
ghost use Rattle.dictionary.specs.Header.{compilation_address, name_of, view_of};
ghost use Rattle.dictionary.specs.Order.{headers};
ghost use Rattle.inner_interpreter.specs.Ends.{Marks};
ghost use Rattle.inner_interpreter.specs.Sent.{AppendsPart};
ghost use Rattle.serving.specs.Replies.{extent_cause, extent_reply, field_bytes, header_bytes, listing_bytes, listing_kind, listing_reply, text_reply};
ghost use Rattle.serving.specs.Texts.{Gathers};

use crate::any_word::AnyWord;
use crate::frames::{refuse, send_cells, send_list, send_text};
use crate::requests::Listing;
use crate::text::Text;
use debug_tracer::{DebugFault, extent_in, send_line};
use dictionary::{ChainTooLong, HeaderList, header};
use inner_interpreter::{EndFault, LentMachine, Output, send_all};
use memory::{Memory, OutOfMemory, cell_bytes};
use std::alloc::Global;

/// What the server needs memory for, beside a machine: a list of headers, a text, and what SEE shows a word in.
#[derive(Drop)]
pub struct Room {
    pub headers: HeaderList,
    pub text: Text,
    pub word: AnyWord,
}

impl Room {
    /// Room for every request.
    pub fn new(alloc: Global) -> Result<Room, OutOfMemory>
        ensures { IfOk result (λ room. (room.headers ≡ []) × (room.text ≡ record { bytes = []; failed = false })) }
    {
        Ok(Room {
            headers: HeaderList::new(alloc)?,
            text: Text::new(alloc)?,
            word: AnyWord::new(alloc)?,
        })
    }
}

/// What a header has before its name.
#[tactic(auto, using(inner_interpreter::proofs::Sending::part_second, inner_interpreter::proofs::Sending::part_first, inner_interpreter::proofs::Sending::appends_both))]
fn send_fields<W: Output>(memory: &Memory, l: u16, writer: &mut W) -> Result<(), EndFault>
    ensures ok { OnOk result (Appends (W.sent writer.old) (W.sent writer.new) (field_bytes (stored memory.now) l)) }
    ensures err { OnErr result (AppendsPart (W.sent writer.old) (W.sent writer.new) (field_bytes (stored memory.now) l)) }
    ensures mark { Marks (W.failed writer.old) (W.failed writer.new) result }
{
    let header = header(memory, l);
    match send_all(writer, &cell_bytes(header.compilation_address)) {
        Ok(()) => {}
        Err(fault) => return Err(fault),
    }
    match send_all(writer, &cell_bytes(header.view)) {
        Ok(()) => {}
        Err(fault) => return Err(fault),
    }
    match send_all(writer, &cell_bytes(memory.cell(header.compilation_address))) {
        Ok(()) => send_all(writer, &[memory.byte(l.wrapping_add(2))]),
        Err(fault) => Err(fault),
    }
}

/// A header.
#[tactic(auto, using(inner_interpreter::proofs::Sending::part_second, inner_interpreter::proofs::Sending::part_first, inner_interpreter::proofs::Sending::appends_both), unfolding(crate::specs::Replies::header_bytes, dictionary::specs::Header::name_of))]
fn send_header<W: Output>(memory: &Memory, l: u16, writer: &mut W) -> Result<(), EndFault>
    ensures ok { OnOk result (Appends (W.sent writer.old) (W.sent writer.new) (header_bytes (stored memory.now) l)) }
    ensures err { OnErr result (AppendsPart (W.sent writer.old) (W.sent writer.new) (header_bytes (stored memory.now) l)) }
    ensures mark { Marks (W.failed writer.old) (W.failed writer.new) result }
{
    let (front, back) = memory.span(l.wrapping_add(3), u16::from(header(memory, l).length));
    match send_fields(memory, l, writer) {
        Ok(()) => {}
        Err(fault) => return Err(fault),
    }
    match send_all(writer, front) {
        Ok(()) => send_all(writer, back),
        Err(fault) => Err(fault),
    }
}

/// These headers, with their names.
fn send_words<W: Output>(memory: &Memory, headers: &[u16], writer: &mut W) -> Result<(), EndFault>
    ensures ok { OnOk result (Appends (W.sent writer.old) (W.sent writer.new) (flat_map (header_bytes (stored memory.now)) headers.now)) }
    ensures err { OnErr result (AppendsPart (W.sent writer.old) (W.sent writer.new) (flat_map (header_bytes (stored memory.now)) headers.now)) }
    ensures mark { Marks (W.failed writer.old) (W.failed writer.new) result }
{
    for l in headers {
        match send_header(memory, *l, writer) {
            Ok(()) => {}
            Err(fault) => return Err(fault),
        }
    }
    Ok(())
}

/// What is made of all headers of a machine.
fn send_made<W: Output>(
    machine: &LentMachine,
    listing: Listing,
    listed: &[u16],
    writer: &mut W,
) -> Result<(), EndFault>
    requires { listed.now ≡ headers machine.now.parts.memory }
    ensures ok { OnOk result (Appends (W.sent writer.old) (W.sent writer.new) (listing_bytes listing machine.now.parts)) }
    ensures err { OnErr result (AppendsPart (W.sent writer.old) (W.sent writer.new) (listing_bytes listing machine.now.parts)) }
    ensures mark { Marks (W.failed writer.old) (W.failed writer.new) result }
{
    match listing {
        Listing::Headers => send_list(writer, listed),
        Listing::Words => send_words(machine.memory(), listed, writer),
        Listing::TraceLine => send_line(machine.memory(), listed, machine, writer),
    }
}

/// The same in the room for a text: whether it fits.
#[tactic(auto, using(crate::proofs::Texts::too_long))]
fn gather(machine: &LentMachine, listing: Listing, listed: &[u16], text: &mut Text) -> bool
    requires { listed.now ≡ headers machine.now.parts.memory }
    ensures { Gathers result text.new.bytes (listing_bytes listing machine.now.parts) }
{
    text.clear();
    match send_made(machine, listing, listed, text) {
        Ok(()) => {
            text.known();
            true
        }
        Err(_) => {
            text.known();
            false
        }
    }
}

fn kind_of(listing: Listing) -> u8
    ensures { result ≡ listing_kind listing }
{
    match listing {
        Listing::Headers => b'h',
        Listing::Words => b'a',
        Listing::TraceLine => b'd',
    }
}

/// A text, if it fits.
#[tactic(auto, unfolding(crate::specs::Replies::text_reply))]
fn send_if<W: Output>(writer: &mut W, kind: u8, fits: bool, text: &[u8]) -> Result<(), EndFault>
    ensures ok { (bytes : List ℕ) → Gathers fits text.now bytes → OnOk result (Appends (W.sent writer.old) (W.sent writer.new) (text_reply kind bytes)) }
    ensures err { (bytes : List ℕ) → Gathers fits text.now bytes → OnErr result (AppendsPart (W.sent writer.old) (W.sent writer.new) (text_reply kind bytes)) }
    ensures mark { Marks (W.failed writer.old) (W.failed writer.new) result }
{
    if fits {
        return send_text(writer, kind, text);
    }
    refuse(writer, 11)
}

/// What is made of all headers, or why it is not.
#[tactic(auto, unfolding(crate::specs::Replies::listing_reply))]
pub fn send_listing<W: Output>(
    machine: &LentMachine,
    listing: Listing,
    room: &mut Room,
    writer: &mut W,
) -> Result<(), EndFault>
    ensures ok { OnOk result (Appends (W.sent writer.old) (W.sent writer.new) (listing_reply listing machine.now.parts)) }
    ensures err { OnErr result (AppendsPart (W.sent writer.old) (W.sent writer.new) (listing_reply listing machine.now.parts)) }
    ensures mark { Marks (W.failed writer.old) (W.failed writer.new) result }
{
    match room.headers.fill(machine.memory()) {
        Ok(()) => {}
        Err(ChainTooLong) => return refuse(writer, 5),
    }
    let fits = gather(machine, listing, room.headers.as_slice(), &mut room.text);
    send_if(writer, kind_of(listing), fits, room.text.as_slice())
}

/// Why there is no extent.
fn extent_cause(fault: DebugFault) -> u8
    ensures { result ≡ extent_cause fault }
{
    match fault {
        DebugFault::NotFound => 4,
        DebugFault::ChainTooLong => 5,
        DebugFault::NotColon => 6,
        DebugFault::OutOfMemory => 11,
    }
}

/// Where the thread of the colon word of a name is, or why that is not known.
#[tactic(auto, unfolding(crate::specs::Replies::extent_reply))]
pub fn send_extent<W: Output>(
    machine: &LentMachine,
    name: &[u8],
    headers: &mut HeaderList,
    writer: &mut W,
) -> Result<(), EndFault>
    ensures ok { OnOk result (Appends (W.sent writer.old) (W.sent writer.new) (extent_reply (debugged machine.now.parts.memory name.now))) }
    ensures err { OnErr result (AppendsPart (W.sent writer.old) (W.sent writer.new)
        (extent_reply (debugged machine.now.parts.memory name.now))) }
    ensures mark { Marks (W.failed writer.old) (W.failed writer.new) result }
{
    match extent_in(headers, machine.memory(), name) {
        Ok(extent) => send_cells(writer, b'j', &[extent.from, extent.end]),
        Err(fault) => refuse(writer, extent_cause(fault)),
    }
}
