//! Requests that look at the machine.

ghost use Rattle.std.specs.Prelude.{◌≡◌, ◌++◌, length, OnErr, OnOk};
ghost use Rattle.std.specs.Io.KnownBytes.{Appends};
ghost use Rattle.dictionary.specs.Search.{by_address, sought};
ghost use Rattle.image_loader.specs.Files.{field, file, opening};
ghost use Rattle.inner_interpreter.specs.Ends.{Marks};
ghost use Rattle.inner_interpreter.specs.Sent.{AppendsPart};
ghost use Rattle.see.specs.View.{viewed};
ghost use Rattle.serving.specs.Frames.{frame, long_reply};
ghost use Rattle.serving.specs.Replies.{found_reply, image_reply, see_cause, see_reply, view_reply};

use crate::frames::{refuse, send_cells, send_frame, send_pair, send_text};
use dictionary::{ChainTooLong, find};
use image_loader::{BorrowedImage, file_header};
use inner_interpreter::{EndFault, LentMachine, Output};
use machine::saved_in_place;
use see::{SeeRefused, ViewRefused, view};

/// What a name means.
#[tactic(auto, unfolding(crate::specs::Replies::found_reply))]
pub fn send_found<W: Output>(
    machine: &LentMachine,
    name: &[u8],
    writer: &mut W,
) -> Result<(), EndFault>
    ensures ok { OnOk result (Appends (W.sent writer.old) (W.sent writer.new)
        (found_reply (by_address machine.now.parts.memory (sought machine.now.parts.memory name.now)))) }
    ensures err { OnErr result (AppendsPart (W.sent writer.old) (W.sent writer.new)
        (found_reply (by_address machine.now.parts.memory (sought machine.now.parts.memory name.now)))) }
    ensures mark { Marks (W.failed writer.old) (W.failed writer.new) result }
{
    match find(machine.memory(), name) {
        Ok(Some(word)) => send_cells(writer, b'y', &[word]),
        Ok(None) => refuse(writer, 4),
        Err(ChainTooLong) => refuse(writer, 5),
    }
}

/// Where a word was made.
#[tactic(auto, unfolding(crate::specs::Replies::view_reply))]
pub fn send_view<W: Output>(
    machine: &LentMachine,
    name: &[u8],
    writer: &mut W,
) -> Result<(), EndFault>
    ensures ok { OnOk result (Appends (W.sent writer.old) (W.sent writer.new)
        (view_reply (viewed machine.now.parts.memory (sought machine.now.parts.memory name.now)))) }
    ensures err { OnErr result (AppendsPart (W.sent writer.old) (W.sent writer.new)
        (view_reply (viewed machine.now.parts.memory (sought machine.now.parts.memory name.now)))) }
    ensures mark { Marks (W.failed writer.old) (W.failed writer.new) result }
{
    match view(machine.memory(), name) {
        Ok(block) => send_cells(writer, b'i', &[block]),
        Err(ViewRefused::NotFound) => refuse(writer, 4),
        Err(ViewRefused::ChainTooLong) => refuse(writer, 5),
    }
}

/// Why there is no text of SEE.
#[tactic(auto, unfolding(memory::specs::Bytes::cell_bytes, crate::specs::Replies::see_reply))]
fn send_refused<W: Output>(refused: &SeeRefused, writer: &mut W) -> Result<(), EndFault>
    ensures ok { OnOk result (Appends (W.sent writer.old) (W.sent writer.new) (frame 33 (see_cause refused.now))) }
    ensures err { OnErr result (AppendsPart (W.sent writer.old) (W.sent writer.new) (frame 33 (see_cause refused.now))) }
    ensures mark { Marks (W.failed writer.old) (W.failed writer.new) result }
{
    match refused {
        SeeRefused::NotFound => send_frame(writer, b'!', &[4]),
        SeeRefused::ChainTooLong => send_frame(writer, b'!', &[5]),
        SeeRefused::NotColon => send_frame(writer, b'!', &[6]),
        SeeRefused::NotStructured => send_frame(writer, b'!', &[7]),
        SeeRefused::Nameless(w) => send_frame(
            writer,
            b'!',
            &[8, (*w % 256) as u8, (*w / 256) as u8],
        ),
        SeeRefused::Shadowed => send_frame(writer, b'!', &[9]),
        SeeRefused::BadText => send_frame(writer, b'!', &[10]),
        SeeRefused::OutOfMemory => send_frame(writer, b'!', &[11]),
    }
}

/// SEE's text, or why there is none.
#[tactic(auto, unfolding(crate::specs::Replies::see_reply))]
pub fn send_seen<W: Output>(
    seen: &Result<(), SeeRefused>,
    text: &[u8],
    writer: &mut W,
) -> Result<(), EndFault>
    ensures ok { OnOk result (Appends (W.sent writer.old) (W.sent writer.new) (see_reply text.now seen.now)) }
    ensures err { OnErr result (AppendsPart (W.sent writer.old) (W.sent writer.new) (see_reply text.now seen.now)) }
    ensures mark { Marks (W.failed writer.old) (W.failed writer.new) result }
{
    match seen {
        Ok(()) => send_text(writer, b'z', text),
        Err(refused) => send_refused(refused, writer),
    }
}

/// The file of an image.
fn send_file<W: Output>(image: &BorrowedImage<'_>, writer: &mut W) -> Result<(), EndFault>
    ensures ok { OnOk result (Appends (W.sent writer.old) (W.sent writer.new) (long_reply 116 (file image.now))) }
    ensures err { OnErr result (AppendsPart (W.sent writer.old) (W.sent writer.new) (long_reply 116 (file image.now))) }
    ensures mark { Marks (W.failed writer.old) (W.failed writer.new) result }
{
    send_pair(writer, b't', &file_header(image), image.bytes())
}

/// The image up to HERE, or why there is none.
#[tactic(auto, unfolding(crate::specs::Replies::image_reply))]
pub fn send_image<W: Output>(
    machine: &LentMachine,
    entry: u16,
    writer: &mut W,
) -> Result<(), EndFault>
    ensures ok { OnOk result (Appends (W.sent writer.old) (W.sent writer.new) (image_reply machine.now.parts entry)) }
    ensures err { OnErr result (AppendsPart (W.sent writer.old) (W.sent writer.new) (image_reply machine.now.parts entry)) }
    ensures mark { Marks (W.failed writer.old) (W.failed writer.new) result }
{
    match saved_in_place(machine.memory(), machine.buffers(), entry) {
        Ok(image) => send_file(&image, writer),
        Err(_) => refuse(writer, 12),
    }
}
