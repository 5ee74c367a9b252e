//! A request is obeyed.

ghost use Rattle.std.specs.Prelude.{◌≡◌, ◌≢◌, ℕ, List, Option, true, false, OnOk, OnErr, IfOk};
ghost use Rattle.block_buffers.specs.DeviceCalls.{DeviceCall};
ghost use Rattle.std.specs.Io.KnownBytes.{Appends};
ghost use Rattle.inner_interpreter.specs.Sent.{AppendsPart};
ghost use Rattle.machine.specs.Answer.{seen};
ghost use Rattle.inner_interpreter.specs.Ends.{Marks};
ghost use Rattle.inner_interpreter.specs.Moves.{Answer as AnswerTurn, Enter as EnterTurn};
ghost use Rattle.inner_interpreter.specs.Histories.{acted, takes};
ghost use Rattle.see.specs.Seeing.{IsShown, IsUnseen};
ghost use Rattle.see.specs.declared.refusal.SeeRefused.TheVariants.{OutOfMemory};
ghost use Rattle.serving.specs.Requests.{Extent, Find, Image, Listed, Look, Memory as MemoryWish, PutBack as PutBackWish, Registers as RegistersWish, See, SetBytes as SetBytesWish, SetCell as SetCellWish, Unknown, Version, View, wish_of};
ghost use Rattle.serving.specs.Room.{SendsFew, may_move, move_room};
ghost use Rattle.serving.specs.Served.{HasObeyed, HasSaved, Looks, MayObey, act_reply, is_stretch, move_refusal, moved, needs_room, served};

use crate::any_word::AnyWord;
use crate::frames::{refuse, send_cells, send_memory, show, shown_len};
use crate::listing::{Room, send_extent, send_listing};
use crate::looking::{send_found, send_image, send_seen, send_view};
use crate::putting::put_back;
use crate::replies::end;
use crate::requests::{Command, Listing, VERSION};
use crate::running::run;
use crate::saving::save;
use crate::state::{send_registers, send_state};
use block_buffers::Device;
use dictionary::HeaderList;
use inner_interpreter::{Act, Answer, EndFault, Event, LentMachine, Output, Refused, Shown};
use see::{SeeRefused, see};
use std::alloc::Global;

/// Enters a word, which shows nothing.
fn enter(machine: &mut LentMachine, word: u16) -> Result<Act, Refused>
    ensures taken { IfOk result (λ act. (takes machine.old (EnterTurn word) ≡ true) ×
        ((machine.new, act) ≡ acted machine.old (EnterTurn word))) }
    ensures left { OnErr result ((takes machine.old (EnterTurn word) ≡ false) × (machine.new ≡ machine.old)) }
{
    match machine.enter(word) {
        Ok(()) => Ok(Act {
            shown: Shown::Nothing,
            event: Event::Went,
        }),
        Err(refused) => Err(refused),
    }
}

/// Answers the machine.
fn answer(machine: &mut LentMachine, answer: Answer<'_>) -> Result<Act, Refused>
    ensures taken { IfOk result (λ act. (takes machine.old (AnswerTurn (seen answer.entry)) ≡ true) ×
        ((machine.new, act) ≡ acted machine.old (AnswerTurn (seen answer.entry)))) }
    ensures left { OnErr result ((takes machine.old (AnswerTurn (seen answer.entry)) ≡ false) × (machine.new ≡ machine.old)) }
{
    machine.answer(answer)
}

/// Why a machine didn't take a move.
#[tactic(auto, unfolding(crate::specs::Served::move_refusal))]
fn refuse_move<W: Output>(machine: &LentMachine, writer: &mut W) -> Result<(), EndFault>
    ensures ok { OnOk result (Appends (W.sent writer.old) (W.sent writer.new) (move_refusal machine.now)) }
    ensures err { OnErr result (AppendsPart (W.sent writer.old) (W.sent writer.new) (move_refusal machine.now)) }
    ensures mark { Marks (W.failed writer.old) (W.failed writer.new) result }
{
    match machine.halted() {
        None => refuse(writer, 1),
        Some(_) => refuse(writer, 2),
    }
}

/// The reply to a move that was taken: what it showed, and what the machine does after it.
#[tactic(auto, using(inner_interpreter::proofs::Sending::part_second, inner_interpreter::proofs::Sending::part_first, inner_interpreter::proofs::Sending::appends_both))]
fn send_act<W: Output>(machine: &LentMachine, act: Act, writer: &mut W) -> Result<(), EndFault>
    ensures ok { OnOk result (Appends (W.sent writer.old) (W.sent writer.new) (act_reply machine.now act)) }
    ensures err { OnErr result (AppendsPart (W.sent writer.old) (W.sent writer.new) (act_reply machine.now act)) }
    ensures room { OnOk result (SendsFew move_room (W.sent writer.old) (W.sent writer.new)) }
    ensures mark { Marks (W.failed writer.old) (W.failed writer.new) result }
{
    let _size = shown_len(machine, act.shown);
    match show(machine, writer, act.shown) {
        Ok(()) => end(machine, writer, 0, act.event),
        Err(fault) => Err(fault),
    }
}

/// Enters a word.
fn obey_entry<W: Output>(
    machine: &mut LentMachine,
    word: u16,
    writer: &mut W,
) -> Result<(), EndFault>
    ensures ok { OnOk result (Looks (moved machine.old (EnterTurn word)) true machine.new (W.sent writer.old) (W.sent writer.new)) }
    ensures err { OnErr result (Looks (moved machine.old (EnterTurn word)) false machine.new (W.sent writer.old) (W.sent writer.new)) }
    ensures room { OnOk result (SendsFew move_room (W.sent writer.old) (W.sent writer.new)) }
    ensures mark { Marks (W.failed writer.old) (W.failed writer.new) result }
{
    match enter(machine, word) {
        Ok(act) => send_act(machine, act, writer),
        Err(_) => refuse_move(machine, writer),
    }
}

/// Answers what the machine asks.
fn obey_answer<W: Output>(
    machine: &mut LentMachine,
    reply: Answer<'_>,
    writer: &mut W,
) -> Result<(), EndFault>
    ensures ok { OnOk result (Looks (moved machine.old (AnswerTurn (seen reply.entry))) true machine.new (W.sent writer.old)
        (W.sent writer.new)) }
    ensures err { OnErr result (Looks (moved machine.old (AnswerTurn (seen reply.entry))) false machine.new (W.sent writer.old)
        (W.sent writer.new)) }
    ensures room { OnOk result (SendsFew move_room (W.sent writer.old) (W.sent writer.new)) }
    ensures mark { Marks (W.failed writer.old) (W.failed writer.new) result }
{
    match answer(machine, reply) {
        Ok(act) => send_act(machine, act, writer),
        Err(_) => refuse_move(machine, writer),
    }
}

/// Writes a cell.
fn obey_cell<W: Output>(
    machine: &mut LentMachine,
    address: u16,
    x: u16,
    writer: &mut W,
) -> Result<(), EndFault>
    ensures ok { OnOk result (Looks (served machine.old (SetCellWish address x)) true machine.new (W.sent writer.old) (W.sent writer.new)) }
    ensures err { OnErr result (Looks (served machine.old (SetCellWish address x)) false machine.new (W.sent writer.old) (W.sent writer.new)) }
    ensures room { OnOk result (SendsFew move_room (W.sent writer.old) (W.sent writer.new)) }
    ensures mark { Marks (W.failed writer.old) (W.failed writer.new) result }
{
    machine.set_cell(address, x);
    end(machine, writer, 0, Event::Went)
}

/// Writes 1 to 2,046 bytes.
fn obey_bytes<W: Output>(
    machine: &mut LentMachine,
    at: u16,
    bytes: &[u8],
    writer: &mut W,
) -> Result<(), EndFault>
    ensures ok { OnOk result (Looks (served machine.old (SetBytesWish at bytes.now)) true machine.new (W.sent writer.old) (W.sent writer.new)) }
    ensures err { OnErr result (Looks (served machine.old (SetBytesWish at bytes.now)) false machine.new (W.sent writer.old) (W.sent writer.new)) }
    ensures room { OnOk result (SendsFew move_room (W.sent writer.old) (W.sent writer.new)) }
    ensures mark { Marks (W.failed writer.old) (W.failed writer.new) result }
{
    if bytes.is_empty() || bytes.len() > 2046 {
        return refuse(writer, 3);
    }
    machine.set_bytes(at, bytes);
    end(machine, writer, 0, Event::Went)
}

/// All registers of the machine.
fn obey_registers<W: Output>(machine: &LentMachine, writer: &mut W) -> Result<(), EndFault>
    ensures ok { OnOk result (Looks (served machine.now RegistersWish) true machine.now (W.sent writer.old) (W.sent writer.new)) }
    ensures err { OnErr result (Looks (served machine.now RegistersWish) false machine.now (W.sent writer.old) (W.sent writer.new)) }
    ensures mark { Marks (W.failed writer.old) (W.failed writer.new) result }
{
    send_registers(machine, writer)
}

/// Puts registers back.
fn obey_put_back<W: Output>(
    machine: &mut LentMachine,
    body: &[u8],
    writer: &mut W,
) -> Result<(), EndFault>
    ensures ok { (count : ℕ) (calls : List DeviceCall) → OnOk result (HasObeyed count (PutBackWish body.now) true machine.old machine.new
        calls calls (W.sent writer.old) (W.sent writer.new)) }
    ensures err { (count : ℕ) (calls : List DeviceCall) → OnErr result (HasObeyed count (PutBackWish body.now) false machine.old machine.new
        calls calls (W.sent writer.old) (W.sent writer.new)) }
    ensures room { OnOk result (SendsFew move_room (W.sent writer.old) (W.sent writer.new)) }
    ensures mark { Marks (W.failed writer.old) (W.failed writer.new) result }
{
    if put_back(machine, body) {
        return end(machine, writer, 0, Event::Went);
    }
    refuse(writer, 12)
}

/// What the machine has beside memory.
fn obey_look<W: Output>(machine: &LentMachine, writer: &mut W) -> Result<(), EndFault>
    ensures ok { OnOk result (Looks (served machine.now Look) true machine.now (W.sent writer.old) (W.sent writer.new)) }
    ensures err { OnErr result (Looks (served machine.now Look) false machine.now (W.sent writer.old) (W.sent writer.new)) }
    ensures mark { Marks (W.failed writer.old) (W.failed writer.new) result }
{
    send_state(machine, writer)
}

/// At most 2,048 bytes of memory.
#[tactic(auto, unfolding(crate::specs::Replies::memory_reply))]
fn obey_memory<W: Output>(
    machine: &LentMachine,
    at: u16,
    n: u16,
    writer: &mut W,
) -> Result<(), EndFault>
    ensures ok { OnOk result (Looks (served machine.now (MemoryWish at n)) true machine.now (W.sent writer.old) (W.sent writer.new)) }
    ensures err { OnErr result (Looks (served machine.now (MemoryWish at n)) false machine.now (W.sent writer.old) (W.sent writer.new)) }
    ensures mark { Marks (W.failed writer.old) (W.failed writer.new) result }
{
    if n > 2048 {
        return refuse(writer, 3);
    }
    send_memory(machine, writer, b'm', at, n)
}

/// What a name means.
fn obey_find<W: Output>(machine: &LentMachine, name: &[u8], writer: &mut W) -> Result<(), EndFault>
    ensures ok { OnOk result (Looks (served machine.now (Find name.now)) true machine.now (W.sent writer.old) (W.sent writer.new)) }
    ensures err { OnErr result (Looks (served machine.now (Find name.now)) false machine.now (W.sent writer.old) (W.sent writer.new)) }
    ensures mark { Marks (W.failed writer.old) (W.failed writer.new) result }
{
    send_found(machine, name, writer)
}

/// Where a word was made.
fn obey_view<W: Output>(machine: &LentMachine, name: &[u8], writer: &mut W) -> Result<(), EndFault>
    ensures ok { OnOk result (Looks (served machine.now (View name.now)) true machine.now (W.sent writer.old) (W.sent writer.new)) }
    ensures err { OnErr result (Looks (served machine.now (View name.now)) false machine.now (W.sent writer.old) (W.sent writer.new)) }
    ensures mark { Marks (W.failed writer.old) (W.failed writer.new) result }
{
    send_view(machine, name, writer)
}

/// The image up to HERE.
fn obey_image<W: Output>(machine: &LentMachine, entry: u16, writer: &mut W) -> Result<(), EndFault>
    ensures ok { OnOk result (Looks (served machine.now (Image entry)) true machine.now (W.sent writer.old) (W.sent writer.new)) }
    ensures err { OnErr result (Looks (served machine.now (Image entry)) false machine.now (W.sent writer.old) (W.sent writer.new)) }
    ensures mark { Marks (W.failed writer.old) (W.failed writer.new) result }
{
    send_image(machine, entry, writer)
}

/// The version of the requests and their replies.
fn obey_version<W: Output>(_machine: &LentMachine, writer: &mut W) -> Result<(), EndFault>
    ensures ok { OnOk result (Looks (served _machine.now Version) true _machine.now (W.sent writer.old) (W.sent writer.new)) }
    ensures err { OnErr result (Looks (served _machine.now Version) false _machine.now (W.sent writer.old) (W.sent writer.new)) }
    ensures mark { Marks (W.failed writer.old) (W.failed writer.new) result }
{
    send_cells(writer, b'V', &[VERSION])
}

/// A frame that is no request.
fn obey_unknown<W: Output>(_machine: &LentMachine, writer: &mut W) -> Result<(), EndFault>
    ensures ok { OnOk result (Looks (served _machine.now Unknown) true _machine.now (W.sent writer.old) (W.sent writer.new)) }
    ensures err { OnErr result (Looks (served _machine.now Unknown) false _machine.now (W.sent writer.old) (W.sent writer.new)) }
    ensures mark { Marks (W.failed writer.old) (W.failed writer.new) result }
{
    refuse(writer, 3)
}

/// The colon word that a name means, as text.
fn obey_see<W: Output>(
    machine: &LentMachine,
    name: &[u8],
    word: &mut AnyWord,
    writer: &mut W,
) -> Result<(), EndFault>
    ensures ok { (count : ℕ) (calls : List DeviceCall) → OnOk result (HasObeyed count (See name.now) true machine.now machine.now calls calls
        (W.sent writer.old) (W.sent writer.new)) }
    ensures err { (count : ℕ) (calls : List DeviceCall) → OnErr result (HasObeyed count (See name.now) false machine.now machine.now calls calls
        (W.sent writer.old) (W.sent writer.new)) }
    ensures mark { Marks (W.failed writer.old) (W.failed writer.new) result }
{
    let seen = word.show(machine.memory(), name);
    send_seen(&seen, word.text(), writer)
}

/// SEE's text, if memory for it was found.
fn send_shown<W: Output>(
    machine: &LentMachine,
    name: &[u8],
    text: &[u8],
    writer: &mut W,
) -> Result<(), EndFault>
    requires { IsShown machine.now.parts.memory name.now text.now }
    ensures ok { (count : ℕ) (calls : List DeviceCall) → OnOk result (MayObey count (See name.now) true machine.now machine.now calls calls
        (W.sent writer.old) (W.sent writer.new)) }
    ensures err { (count : ℕ) (calls : List DeviceCall) → OnErr result (MayObey count (See name.now) false machine.now machine.now calls calls
        (W.sent writer.old) (W.sent writer.new)) }
    ensures mark { Marks (W.failed writer.old) (W.failed writer.new) result }
{
    send_seen(&Ok(()), text, writer)
}

/// Why there is no text of SEE, if it isn't lack of memory.
fn send_unseen<W: Output>(
    machine: &LentMachine,
    name: &[u8],
    refused: SeeRefused,
    writer: &mut W,
) -> Result<(), EndFault>
    requires unseen { IsUnseen machine.now.parts.memory name.now refused }
    requires known { refused ≢ OutOfMemory }
    ensures ok { (count : ℕ) (calls : List DeviceCall) → OnOk result (MayObey count (See name.now) true machine.now machine.now calls calls
        (W.sent writer.old) (W.sent writer.new)) }
    ensures err { (count : ℕ) (calls : List DeviceCall) → OnErr result (MayObey count (See name.now) false machine.now machine.now calls calls
        (W.sent writer.old) (W.sent writer.new)) }
    ensures mark { Marks (W.failed writer.old) (W.failed writer.new) result }
{
    send_seen(&Err(refused), &[], writer)
}

/// No memory for SEE was found.
fn send_lack<W: Output>(machine: &LentMachine, name: &[u8], writer: &mut W) -> Result<(), EndFault>
    ensures ok { (count : ℕ) (calls : List DeviceCall) → OnOk result (MayObey count (See name.now) true machine.now machine.now calls calls
        (W.sent writer.old) (W.sent writer.new)) }
    ensures err { (count : ℕ) (calls : List DeviceCall) → OnErr result (MayObey count (See name.now) false machine.now machine.now calls calls
        (W.sent writer.old) (W.sent writer.new)) }
    ensures mark { Marks (W.failed writer.old) (W.failed writer.new) result }
{
    refuse(writer, 11)
}

/// SEE's text in memory that is asked for.
fn obey_see_in_place<W: Output>(
    alloc: Global,
    machine: &LentMachine,
    name: &[u8],
    writer: &mut W,
) -> Result<(), EndFault>
    ensures ok { (count : ℕ) (calls : List DeviceCall) → OnOk result (MayObey count (See name.now) true machine.now machine.now calls calls
        (W.sent writer.old) (W.sent writer.new)) }
    ensures err { (count : ℕ) (calls : List DeviceCall) → OnErr result (MayObey count (See name.now) false machine.now machine.now calls calls
        (W.sent writer.old) (W.sent writer.new)) }
    ensures mark { Marks (W.failed writer.old) (W.failed writer.new) result }
{
    match see(alloc, machine.memory(), name) {
        Ok(text) => send_shown(machine, name, &text, writer),
        Err(SeeRefused::OutOfMemory) => send_lack(machine, name, writer),
        Err(refused) => send_unseen(machine, name, refused, writer),
    }
}

/// What is made of the list of all headers.
fn obey_listing<W: Output>(
    machine: &LentMachine,
    listing: Listing,
    room: &mut Room,
    writer: &mut W,
) -> Result<(), EndFault>
    ensures ok { OnOk result (Looks (served machine.now (Listed listing)) true machine.now (W.sent writer.old) (W.sent writer.new)) }
    ensures err { OnErr result (Looks (served machine.now (Listed listing)) false machine.now (W.sent writer.old) (W.sent writer.new)) }
    ensures mark { Marks (W.failed writer.old) (W.failed writer.new) result }
{
    send_listing(machine, listing, room, writer)
}

/// Where the thread of the colon word is that a name means.
fn obey_extent<W: Output>(
    machine: &LentMachine,
    name: &[u8],
    headers: &mut HeaderList,
    writer: &mut W,
) -> Result<(), EndFault>
    ensures ok { OnOk result (Looks (served machine.now (Extent name.now)) true machine.now (W.sent writer.old) (W.sent writer.new)) }
    ensures err { OnErr result (Looks (served machine.now (Extent name.now)) false machine.now (W.sent writer.old) (W.sent writer.new)) }
    ensures mark { Marks (W.failed writer.old) (W.failed writer.new) result }
{
    send_extent(machine, name, headers, writer)
}

/// The updated buffers are written, and how many could not be is the reply.
fn obey_save<W: Output, D: Device>(
    machine: &LentMachine,
    device: &mut D,
    count: u32,
    kind: u8,
    writer: &mut W,
) -> Result<(), EndFault>
    ensures ok { OnOk result (HasSaved count kind true machine.now (D.calls device.old) (D.calls device.new)
        (W.sent writer.old) (W.sent writer.new)) }
    ensures err { OnErr result (HasSaved count kind false machine.now (D.calls device.old) (D.calls device.new)
        (W.sent writer.old) (W.sent writer.new)) }
    ensures mark { Marks (W.failed writer.old) (W.failed writer.new) result }
{
    let lost = save(machine, device, count);
    send_cells(writer, kind, &[lost])
}

/// Does what a request asks that needs no room. One that needs it is refused.
fn obey_plainly<W: Output, D: Device>(
    machine: &mut LentMachine,
    device: &mut D,
    count: u32,
    command: Command<'_>,
    writer: &mut W,
) -> Result<(), EndFault>
    ensures ok { needs_room (wish_of command.entry) ≡ false → OnOk result (HasObeyed count (wish_of command.entry) true machine.old
        machine.new (D.calls device.old) (D.calls device.new) (W.sent writer.old) (W.sent writer.new)) }
    ensures err { needs_room (wish_of command.entry) ≡ false → OnErr result (HasObeyed count (wish_of command.entry) false machine.old
        machine.new (D.calls device.old) (D.calls device.new) (W.sent writer.old) (W.sent writer.new)) }
    ensures room { may_move (wish_of command.entry) ≡ true → OnOk result (SendsFew move_room (W.sent writer.old) (W.sent writer.new)) }
    ensures mark { Marks (W.failed writer.old) (W.failed writer.new) result }
{
    match command {
        Command::Run(limit) => run(machine, device, count, limit, writer),
        Command::Answer(answer) => obey_answer(machine, answer, writer),
        Command::Enter(word) => obey_entry(machine, word, writer),
        Command::SetCell { address, x } => obey_cell(machine, address, x, writer),
        Command::SetBytes { at, bytes } => obey_bytes(machine, at, bytes, writer),
        Command::Look => obey_look(machine, writer),
        Command::Registers => obey_registers(machine, writer),
        Command::PutBack(body) => obey_put_back(machine, body, writer),
        Command::Memory { at, n } => obey_memory(machine, at, n, writer),
        Command::Find(name) => obey_find(machine, name, writer),
        Command::View(name) => obey_view(machine, name, writer),
        Command::See(_) => refuse(writer, 11),
        Command::Listed(_) => refuse(writer, 11),
        Command::Extent(_) => refuse(writer, 11),
        Command::Image(entry) => obey_image(machine, entry, writer),
        Command::Save => obey_save(machine, device, count, b'b', writer),
        Command::Quit => obey_save(machine, device, count, b'q', writer),
        Command::Version => obey_version(machine, writer),
        Command::Unknown => obey_unknown(machine, writer),
    }
}

/// Does what a request asks over a device of `count` blocks, and replies. On a failed writer a front of the replies was sent: of a run, those of the moves that were made.
pub fn obey<W: Output, D: Device>(
    machine: &mut LentMachine,
    device: &mut D,
    count: u32,
    room: &mut Room,
    command: Command<'_>,
    writer: &mut W,
) -> Result<(), EndFault>
    ensures ok { OnOk result (HasObeyed count (wish_of command.entry) true machine.old machine.new
        (D.calls device.old) (D.calls device.new) (W.sent writer.old) (W.sent writer.new)) }
    ensures err { OnErr result (HasObeyed count (wish_of command.entry) false machine.old machine.new
        (D.calls device.old) (D.calls device.new) (W.sent writer.old) (W.sent writer.new)) }
    ensures mark { Marks (W.failed writer.old) (W.failed writer.new) result }
{
    match command {
        Command::Listed(listing) => obey_listing(machine, listing, room, writer),
        Command::Extent(name) => obey_extent(machine, name, &mut room.headers, writer),
        Command::See(name) => obey_see(machine, name, &mut room.word, writer),
        _ => obey_plainly(machine, device, count, command, writer),
    }
}

/// The same, if no room was taken before the first request: a request that needs room asks for it, and is refused if there
/// is none.
pub fn obey_in_place<W: Output, D: Device>(
    alloc: Global,
    machine: &mut LentMachine,
    device: &mut D,
    count: u32,
    command: Command<'_>,
    writer: &mut W,
) -> Result<(), EndFault>
    ensures ok { OnOk result (MayObey count (wish_of command.entry) true machine.old machine.new
        (D.calls device.old) (D.calls device.new) (W.sent writer.old) (W.sent writer.new)) }
    ensures err { OnErr result (MayObey count (wish_of command.entry) false machine.old machine.new
        (D.calls device.old) (D.calls device.new) (W.sent writer.old) (W.sent writer.new)) }
    ensures room { may_move (wish_of command.entry) ≡ true → OnOk result (SendsFew move_room (W.sent writer.old) (W.sent writer.new)) }
    ensures mark { Marks (W.failed writer.old) (W.failed writer.new) result }
{
    match command {
        Command::Listed(listing) => match Room::new(alloc) {
            Ok(mut room) => obey_listing(machine, listing, &mut room, writer),
            Err(_) => refuse(writer, 11),
        },
        Command::Extent(name) => match HeaderList::new(alloc) {
            Ok(mut headers) => obey_extent(machine, name, &mut headers, writer),
            Err(_) => refuse(writer, 11),
        },
        Command::See(name) => obey_see_in_place(alloc, machine, name, writer),
        _ => obey_plainly(machine, device, count, command, writer),
    }
}
