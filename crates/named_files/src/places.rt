//! A place in a screen, shown to people on standard error: the line, and a mark below it.

ghost use Rattle.std.specs.Prelude.{◌≡◌, ◌<◌, ◌++◌, ◌∷◌, ◌&&◌, [], IfSome, if◌then◌else◌, nat_le, nat_lt};
ghost use Rattle.block_buffers.specs.Calls.{KeepsBlocks};
ghost use Rattle.block_buffers.specs.DeviceCalls.{WasRead};
ghost use Rattle.block_buffers.specs.ReadPages.{AreReadFrom};
ghost use Rattle.named_files.specs.Trying.{OnlyReads};

use crate::files::Places;
use block_buffers::{BLOCK_SIZE, Device, LINE_SIZE, MemoryDevice, screen_line};
use std::alloc::{AllocError, Global};
use std::fmt::Display;

/// A byte of a screen's line as a terminal can show it.
fn shown(byte: u8) -> char
    ensures { result ≡ (if nat_le 32 byte && nat_lt byte 127 then byte else 63) }
{
    if (b' '..0x7F).contains(&byte) {
        char::from(byte)
    } else {
        '?'
    }
}

/// A line of a screen, and below it a mark at `column`.
fn marked(alloc: Global, line: &[u8], column: usize) -> Result<String, AllocError> {
    let mut text = String::new(alloc);
    for byte in line.trim_ascii_end() {
        text.push(shown(*byte))?;
    }
    text.push('\n')?;
    for _ in 0..column {
        text.push(' ')?;
    }
    text.push('^')?;
    Ok(text)
}

/// Says that a screen can't be shown.
pub fn say_missing(rt: &HostRuntime, name: &str, number: u16) {
    let _said = eprintln!(rt; "{name}: screen {number} does not exist or cannot be read");
}

/// Says where a refusal is, and why it is, with that line of the screen.
pub fn show_line<C: Display + Drop>(
    rt: &HostRuntime,
    name: &str,
    (number, screen): (u16, &[u8; BLOCK_SIZE]),
    offset: u16,
    cause: C,
) {
    // What is missing is missed at the end of the last line.
    let offset = offset.min(BLOCK_SIZE as u16 - 1);
    let (line, column) = (offset / LINE_SIZE as u16, offset % LINE_SIZE as u16);
    if let Ok(text) = marked(rt.alloc(), screen_line(screen, line), usize::from(column)) {
        let _said = eprintln!(rt;
            "{name}: screen {number}, line {line}, column {column}: {cause}\n{text}"
        );
    }
}

/// The bytes of a block. `None`: it can't be read.
fn block_in<D: Device>(device: &mut D, block: u16) -> Option<[u8; BLOCK_SIZE]>
    ensures kept { KeepsBlocks (D.disk device.old) (D.disk device.new) }
    ensures counted { D.block_count device.new ≡ D.block_count device.old }
    ensures read { IfSome result (λ page. (D.calls device.new ≡ D.calls device.old ++ WasRead block page ∷ []) ×
        (block < D.block_count device.old)) }
    ensures only_reads { OnlyReads (D.calls device.old) (D.calls device.new) }
{
    let mut page = [0; BLOCK_SIZE];
    match device.read(block, &mut page) {
        Ok(()) => Some(page),
        Err(_) => None,
    }
}

/// The bytes of a screen. If it cannot be read, that is shown.
pub fn read_screen<F: Places, D: Device>(
    files: &F,
    name: &str,
    device: &mut D,
    number: u16,
) -> Option<[u8; BLOCK_SIZE]>
    ensures kept { KeepsBlocks (D.disk device.old) (D.disk device.new) }
    ensures counted { D.block_count device.new ≡ D.block_count device.old }
    ensures read { IfSome result (λ page. D.calls device.new ≡ D.calls device.old ++ WasRead number page ∷ []) }
{
    let screen = block_in(device, number);
    if screen.is_none() {
        files.say_missing(name, number);
    }
    screen
}

/// The blocks of a device, each of which is read once, to try a load on. `None`: one can't be read, or memory ran out.
pub fn blocks_of<D: Device>(alloc: Global, device: &mut D) -> Option<MemoryDevice>
    ensures kept { KeepsBlocks (D.disk device.old) (D.disk device.new) }
    ensures counted { D.block_count device.new ≡ D.block_count device.old }
    ensures read { IfSome result (λ _. AreReadFrom 0 (D.block_count device.old) (D.block_count device.old)
        (D.calls device.old) (D.calls device.new)) }
    ensures only_reads { OnlyReads (D.calls device.old) (D.calls device.new) }
{
    let mut blocks = Vec::new(alloc);
    for number in 0..device.count() {
        let Some(page) = block_in(device, number as u16) else {
            return None;
        };
        match blocks.push(page) {
            Ok(()) => {}
            Err(_) => return None,
        }
    }
    if blocks.len() > 65536 {
        return None;
    }
    Some(MemoryDevice::new(blocks, Vec::new(alloc)))
}

/// Where the word begins that was read when bytes were read up to `place`.
fn start_before(screen: &[u8], place: usize) -> usize {
    let Some(read) = screen.get(..place) else {
        return 0;
    };
    let before = read.trim_ascii_end().iter().rposition(|byte| *byte == b' ');
    before.map_or(0, |blank| blank.saturating_add(1))
}

/// Where the word begins that comes next after `place`.
fn start_behind(screen: &[u8], place: usize) -> usize {
    let Some(coming) = screen.get(place..) else {
        return place;
    };
    let blanks = coming.iter().position(|byte| *byte != b' ');
    blanks.map_or(place, |blanks| place.saturating_add(blanks))
}

/// Where the word begins in a screen that was read when the stream had come to `place`.
pub fn word_before(screen: &[u8; BLOCK_SIZE], place: u16) -> u16 {
    let word = start_before(screen, usize::from(place).min(BLOCK_SIZE));
    word.min(BLOCK_SIZE) as u16
}

/// Where the word begins in a screen that comes next after `place`.
pub fn word_behind(screen: &[u8; BLOCK_SIZE], place: u16) -> u16 {
    let word = start_behind(screen, usize::from(place).min(BLOCK_SIZE));
    word.min(BLOCK_SIZE) as u16
}
