//! Rows 200 to 204: the line editor, on the screen that SCR names.

#![tactic(auto, using(machine_parts::proofs::Takes::takes))]

ghost use Rattle.std.specs.Prelude.{◌≡◌, ◌<◌, ◌≤◌, ◌+◌, length};
ghost use Rattle.block_buffers.specs.Entries.{address_of};
ghost use Rattle.block_buffers.specs.Screens.{blank_screen, line_start, line_deleted};
ghost use Rattle.memory.specs.Bytes.{cell, front_put, page, put_cell, with_page};
ghost use Rattle.memory.specs.Mirrored.{stored};
ghost use Rattle.primitives.specs.Blocks.{IsFetched};
ghost use Rattle.primitives.specs.Editor.{line_text, line, edited, edits, put, insert, delete, wipe};

use crate::blocks::fetch;
use crate::streams::open;
use block_buffers::{BLOCK_SIZE, delete_line, insert_line, put_line};
use input_source::{Stream, Word, word_bytes};
use machine_parts::faults::DATA_UNDERFLOW;
use machine_parts::leaves;
use machine_parts::parts::{Outcome, Parts};
use memory::Memory;
use memory::system::{SCR, TO_IN};

/// What a line's text does to the screen.
#[derive(Clone, Copy)]
pub enum Edit {
    /// It becomes the line.
    Put,
    /// It comes before the line, and the last line is lost.
    Insert,
}

/// References block SCR, and gives its slot; or says what stops the row.
fn open_screen(parts: &mut Parts) -> Result<usize, Outcome>
    ensures { IsFetched parts.old parts.new (cell parts.old.memory SCR) result }
{
    let block = parts.memory.cell(SCR);
    fetch(parts, block)
}

/// Writes bytes over the beginning of a line.
#[tactic(auto, unfolding(memory::specs::Bytes::front_put))]
fn put_front(line: &mut [u8], bytes: &[u8])
    requires { length bytes.now ≤ length line.old }
    ensures { line.new ≡ front_put bytes.now line.old }
{
    line[..bytes.len()].copy_from_slice(bytes);
}

/// The text that the editor takes of a stream: all from its place on, at most 64 bytes, filled with blanks.
#[tactic(auto, unfolding(crate::specs::Editor::line_text, block_buffers::specs::Screens::blank_line, input_source::specs::Words::bytes_in))]
fn line_text(memory: &Memory, stream: Stream) -> [u8; 64]
    requires { stream.place ≤ stream.size }
    ensures { result ≡ line_text (stored memory.now) stream }
{
    let word = Word {
        at: stream.place,
        len: (stream.size - stream.place).min(64),
        next: stream.size,
    };
    let bytes = word_bytes(memory, stream, word);
    let mut line = [b' '; 64];
    put_front(&mut line, &bytes[..word.len as usize]);
    line
}

/// Deletes a line of the screen in a slot.
fn delete_in(parts: &mut Parts, slot: usize, n: u16)
    requires { slot < length parts.old.buffers }
    ensures { let m = parts.old.memory in let at = address_of parts.old.buffers slot in
        parts.new ≡ (record parts.old { memory = with_page m at (line_deleted (page m at) n) }) }
{
    let at = parts.buffers.address_of(slot);
    let mut screen = *parts.memory.page(at);
    delete_line(&mut screen, n);
    parts.set_page(slot, &screen);
}

/// Wipes the screen in a slot.
fn wipe_in(parts: &mut Parts, slot: usize)
    requires { slot < length parts.old.buffers }
    ensures { parts.new ≡ (record parts.old
        { memory = with_page parts.old.memory (address_of parts.old.buffers slot) blank_screen }) }
{
    let at = parts.buffers.address_of(slot);
    let mut screen = *parts.memory.page(at);
    block_buffers::wipe(&mut screen);
    parts.set_page(slot, &screen);
}

/// A line's text becomes line `n` of a screen, or comes before it.
fn edit_screen(screen: &mut [u8; BLOCK_SIZE], edit: Edit, n: u16, text: &[u8; 64])
    ensures { screen.new ≡ edited edit screen.old n text.now }
{
    match edit {
        Edit::Put => put_line(screen, n, text),
        Edit::Insert => insert_line(screen, n, text),
    }
}

/// `>IN` goes to the stream's end, and its text edits line `n` of the screen in a slot.
fn edit_in(parts: &mut Parts, slot: usize, edit: Edit, n: u16, stream: Stream)
    requires slot { slot < length parts.old.buffers }
    requires place { stream.place ≤ stream.size }
    ensures { let m = parts.old.memory in let at = address_of parts.old.buffers slot in
        let screen = edited edit (page m at) n (line_text m stream) in
        parts.new ≡ (record parts.old { memory = with_page (put_cell m TO_IN stream.size) at screen }) }
{
    let at = parts.buffers.address_of(slot);
    let text = line_text(parts.memory, stream);
    let mut screen = *parts.memory.page(at);
    edit_screen(&mut screen, edit, n, &text);
    parts.set_cell(TO_IN, stream.size);
    parts.set_page(slot, &screen);
}

/// 200 `LINE` ( n -- a 64 )
pub fn line(parts: &mut Parts) -> Outcome
    ensures { (parts.new, result) ≡ line parts.old }
{
    let Some(n) = parts.values.pick(0) else {
        return Outcome::Fault(DATA_UNDERFLOW);
    };
    match open_screen(parts) {
        Ok(slot) => {
            let a = line_address(parts.buffers.address_of(slot), n);
            leaves!(parts, 1, [a, 64])
        }
        Err(outcome) => outcome,
    }
}

/// Where line `n` of the screen that begins at `at` begins.
fn line_address(at: u16, n: u16) -> u16
    requires { at ≤ 64512 }
    ensures { result ≡ at + line_start n }
{
    at + 64 * (n % 16)
}

/// A row that takes a line's text out of the stream, and edits the screen with it.
fn edit_line(parts: &mut Parts, edit: Edit) -> Outcome
    ensures { (parts.new, result) ≡ edits edit parts.old }
{
    let Some(n) = parts.values.pick(0) else {
        return Outcome::Fault(DATA_UNDERFLOW);
    };
    let stream = match open(parts) {
        Ok(stream) => stream,
        Err(outcome) => return outcome,
    };
    let slot = match open_screen(parts) {
        Ok(slot) => slot,
        Err(outcome) => return outcome,
    };
    edit_in(parts, slot, edit, n, stream);
    parts.values.lower(1);
    parts.buffers.mark_front();
    Outcome::Done
}

/// 201 `PUT` ( n -- )
pub fn put(parts: &mut Parts) -> Outcome
    ensures { (parts.new, result) ≡ put parts.old }
{
    edit_line(parts, Edit::Put)
}

/// 202 `INSERT` ( n -- )
pub fn insert(parts: &mut Parts) -> Outcome
    ensures { (parts.new, result) ≡ insert parts.old }
{
    edit_line(parts, Edit::Insert)
}

/// 203 `DELETE` ( n -- )
pub fn delete(parts: &mut Parts) -> Outcome
    ensures { (parts.new, result) ≡ delete parts.old }
{
    let Some(n) = parts.values.pick(0) else {
        return Outcome::Fault(DATA_UNDERFLOW);
    };
    let slot = match open_screen(parts) {
        Ok(slot) => slot,
        Err(outcome) => return outcome,
    };
    delete_in(parts, slot, n);
    parts.values.lower(1);
    parts.buffers.mark_front();
    Outcome::Done
}

/// 204 `WIPE` ( -- )
pub fn wipe(parts: &mut Parts) -> Outcome
    ensures { (parts.new, result) ≡ wipe parts.old }
{
    let slot = match open_screen(parts) {
        Ok(slot) => slot,
        Err(outcome) => return outcome,
    };
    wipe_in(parts, slot);
    parts.buffers.mark_front();
    Outcome::Done
}
