//! Loading and running of a machine that is kept.

ghost use Rattle.std.specs.Prelude.{◌≡◌, ◌≢◌, ◌<◌, ◌≤◌, ◌⊎◌, length, take, drop};
ghost use Rattle.image_loader.specs.Files.{Contents, IsFile, IsCutShort, IsFollowed, HasBadMagic, HasBadVersion, HasBadBuffers, HasBadSize};
ghost use Rattle.machine.specs.State.{loaded_state};
ghost use Rattle.forth83_c.specs.declared.status.Status.TheVariants as status;
ghost use Rattle.machine.specs.Answer.{seen};
ghost use Rattle.forth83_c.specs.Called.{AsksPage, HasAnswered, HasBegun, HasEntered, HasPopped, HasPushed, HasRun, HasSaved, Tells, TellsMachine, WhyNotAnswered, WhyNotEntered, WhyNoPage, WhyNotPushed, WhyNotPopped, WhyNotSaved, code_of};
ghost use Rattle.machine.specs.Registers.{state_of};
ghost use Rattle.forth83_c.specs.Kept.{IsAside, IsKept, SameBeside};
ghost use Rattle.memory.specs.Bytes.{front_put, zeros};
ghost use Rattle.memory.specs.Mirrored.{stored};

use crate::driving::counted;
use crate::kept::{is_record, keep, rest_of};
use crate::lent::{answer_lent, drive_lent};
use crate::record::{Forth83, Forth83Aside, Forth83End, Forth83Faults};
use crate::stack_cells::{put_cell, top_cell};
use crate::status::Status;
use image_loader::{BorrowedImage, ImageFault, write_into};
use inner_interpreter::Answer;
use machine::{Rest, saved_in_place};
use machine_parts::parts::Request;
use memory::Memory;
use name_index::NameIndex;
use std::alloc::Global;

/// Makes memory zero.
#[tactic(auto, using(memory::proofs::Behind::zeros_are))]
fn clear(memory: &mut Memory)
    ensures { stored memory.new ≡ zeros }
{
    memory.bytes = [0; 65552];
}

/// Puts these bytes into memory, from address 0 on.
#[tactic(auto, using(memory::proofs::Behind::front_begun))]
fn put_front(memory: &mut Memory, bytes: &[u8])
    requires { length bytes.now ≤ 65536 }
    ensures { stored memory.new ≡ front_put bytes.now (stored memory.old) }
{
    let end = bytes.len();
    memory.bytes[0..end].copy_from_slice(bytes);
}

/// Puts these bytes into memory, and zeros after them.
fn hold(memory: &mut Memory, bytes: &[u8])
    requires { length bytes.now ≤ 65536 }
    ensures { stored memory.new ≡ front_put bytes.now zeros }
{
    clear(memory);
    put_front(memory, bytes);
}

/// All but memory of the machine that an image starts with.
fn rest_at_start(image: &BorrowedImage<'_>, block_count: u32) -> Rest
    ensures { state_of (front_put image.now.bytes zeros) result ≡ loaded_state image.now block_count }
{
    Rest::at_start(image.entry(), image.buffers(), block_count)
}

/// No fault was met, and no word is called.
fn begin(kept: &mut Forth83)
    ensures faults { kept.new.faults ≡ record { count = 0; last = 0; ip = 0 } }
    ensures called { kept.new.is_called ≡ 0 }
    ensures aside { IsAside kept.new.aside }
    ensures memory { kept.new.memory ≡ kept.old.memory }
{
    kept.faults = Forth83Faults {
        count: 0,
        last: 0,
        ip: 0,
    };
    kept.is_called = 0;
    kept.aside = Forth83Aside {
        ip: 0,
        has_pending: 0,
        pending: 0,
        asks: 0,
        asked: 0,
        token: 0,
        line: [0; 2],
        returns_top: 0,
        returns: [0; 257],
    };
}

/// Loads an image into a record.
pub fn load(image: &[u8], block_count: u32, kept: &mut Forth83) -> Status
    ensures loaded { (contents : Contents) → IsFile image.now contents → result ≡ status.Done →
        IsKept kept.new (loaded_state contents block_count) }
    ensures begun { result ≡ status.Done → HasBegun kept.new }
    ensures found { result ≡ status.Done → (contents : Contents) × IsFile image.now contents }
    ensures accepted { (contents : Contents) → IsFile image.now contents → result ≡ status.Done }
    ensures truncated { IsCutShort image.now → result ≡ status.Truncated }
    ensures trailing { IsFollowed image.now → result ≡ status.TrailingBytes }
    ensures bad_magic { HasBadMagic image.now → result ≡ status.BadMagic }
    ensures bad_version { HasBadVersion image.now → result ≡ status.BadVersion }
    ensures bad_buffers { HasBadBuffers image.now → result ≡ status.BadBuffers }
    ensures bad_size { HasBadSize image.now → result ≡ status.BadSize }
    ensures known { result ≢ status.OutOfMemory }
    ensures stays { result ≢ status.Done → kept.new ≡ kept.old }
{
    match image_loader::read_in_place(image) {
        Ok(image) => {
            hold(&mut kept.memory, image.bytes());
            begin(kept);
            keep(rest_at_start(&image, block_count), kept);
            Status::Done
        }
        Err(ImageFault::Truncated) => Status::Truncated,
        Err(ImageFault::TrailingBytes) => Status::TrailingBytes,
        Err(ImageFault::BadMagic) => Status::BadMagic,
        Err(ImageFault::BadVersion) => Status::BadVersion,
        Err(ImageFault::BadBuffers) => Status::BadBuffers,
        Err(ImageFault::BadSize) => Status::BadSize,
        Err(ImageFault::OutOfMemory) => unreachable!(),
    }
}

/// Drives the machine of a record.
pub fn run(
    alloc: Global,
    kept: &mut Forth83,
    typed: &[u8],
    shown: &mut [u8],
    limit: u64,
    end: &mut Forth83End,
) -> Status
    ensures ran { result ≡ status.Done → HasRun kept.old kept.new typed.now shown.new limit end.new }
    ensures beyond { result ≡ status.Done → drop end.new.shown shown.new ≡ drop end.new.shown shown.old }
    ensures refused { (result ≡ status.Done) ⊎ ((result ≡ status.NoMachine) ⊎ (result ≡ status.ShortRoom)) }
    ensures room { length shown.old ≡ 0 → result ≡ status.ShortRoom }
    ensures roomy { result ≡ status.ShortRoom → length shown.old ≡ 0 }
    ensures no_machine { 0 < length shown.old → TellsMachine kept.old (code_of result) }
    ensures stays { result ≢ status.Done → kept.new ≡ kept.old }
    ensures silent { result ≢ status.Done → shown.new ≡ shown.old }
    ensures untold { result ≢ status.Done → end.new ≡ end.old }
{
    if shown.is_empty() {
        return Status::ShortRoom;
    }
    let Some(rest) = rest_of(kept) else {
        return Status::NoMachine;
    };
    let index = NameIndex::new(alloc);
    let calling = kept.is_called == 1;
    let faults = kept.faults;
    let mut left = None;
    let driven = drive_lent(
        &mut kept.memory,
        rest,
        &mut left,
        index,
        typed,
        shown,
        limit,
        calling,
        faults,
    );
    let course = driven.course;
    let stop = driven.stop;
    keep(left.unwrap(), kept);
    kept.faults = course.faults;
    let span = stop.span();
    *end = Forth83End {
        read: course.read,
        shown: course.shown,
        left: course.left,
        stop: stop.code(),
        at: span.at,
        len: span.len,
    };
    Status::Done
}

/// Answers what the machine of a record asks.
pub fn answer(alloc: Global, kept: &mut Forth83, answer: Answer<'_>) -> Status
    ensures answered { result ≡ status.Done → HasAnswered kept.old kept.new (seen answer.entry) }
    ensures no_machine { TellsMachine kept.old (code_of result) }
    ensures why { Tells (WhyNotAnswered (seen answer.entry)) kept.old result }
    ensures known { result ≢ status.OutOfMemory }
    ensures stays { result ≢ status.Done → kept.new ≡ kept.old }
{
    let Some(rest) = rest_of(kept) else {
        return Status::NoMachine;
    };
    if rest.registers.halt.is_some() {
        return Status::Halted;
    }
    if !answer.fits(rest.registers.wait) {
        return Status::NotAsked;
    }
    let ip = rest.registers.ip;
    let index = NameIndex::new(alloc);
    let mut left = None;
    let answered = answer_lent(&mut kept.memory, rest, &mut left, index, answer);
    let event = answered.event;
    keep(left.unwrap(), kept);
    kept.faults = counted(ip, event, kept.faults);
    Status::Done
}

/// Enters a word.
pub fn enter(kept: &mut Forth83, word: u16) -> Status
    ensures entered { result ≡ status.Done → HasEntered kept.old kept.new word }
    ensures no_machine { TellsMachine kept.old (code_of result) }
    ensures why { Tells WhyNotEntered kept.old result }
    ensures known { result ≢ status.OutOfMemory }
    ensures stays { result ≢ status.Done → kept.new ≡ kept.old }
{
    let Some(mut rest) = rest_of(kept) else {
        return Status::NoMachine;
    };
    if rest.registers.halt.is_some() {
        return Status::Halted;
    }
    if rest.registers.wait.is_some() {
        return Status::Waiting;
    }
    rest.registers.returns.clear();
    rest.registers.ip = 0;
    rest.registers.pending = Some(word);
    keep(rest, kept);
    Status::Done
}

/// Puts the bytes that the machine of a record asks to be kept into `page`.
pub fn asked_page(kept: &Forth83, page: &mut [u8]) -> Status
    ensures asks { result ≡ status.Done → AsksPage kept.now page.new }
    ensures size { length page.old ≢ 1024 → result ≡ status.BadPage }
    ensures no_machine { length page.old ≡ 1024 → TellsMachine kept.now (code_of result) }
    ensures why { length page.old ≡ 1024 → Tells WhyNoPage kept.now result }
    ensures known { result ≢ status.OutOfMemory }
    ensures stays { result ≢ status.Done → page.new ≡ page.old }
{
    if page.len() != 1024 {
        return Status::BadPage;
    }
    let Some(rest) = rest_of(kept) else {
        return Status::NoMachine;
    };
    match rest.registers.wait {
        Some((Request::Write { block }, _)) => {
            let slot = rest.registers.buffers.slot_of(block);
            let at = rest.registers.buffers.address_of(slot);
            page.copy_from_slice(kept.memory.page(at));
            Status::Done
        }
        _ => Status::NotAsked,
    }
}

/// Pushes a number on the data stack of a record, if nothing is asked.
pub fn push(kept: &mut Forth83, x: u16) -> Status
    ensures pushed { result ≡ status.Done → HasPushed kept.old kept.new x }
    ensures beside { result ≡ status.Done → SameBeside kept.old kept.new }
    ensures waiting { kept.old.asks ≢ 0 → result ≡ status.Waiting }
    ensures no_machine { kept.old.asks ≡ 0 → TellsMachine kept.old (code_of result) }
    ensures why { kept.old.asks ≡ 0 → Tells WhyNotPushed kept.old result }
    ensures known { result ≢ status.OutOfMemory }
    ensures stays { result ≢ status.Done → kept.new ≡ kept.old }
{
    if kept.asks != 0 {
        return Status::Waiting;
    }
    if !is_record(kept) {
        return Status::NoMachine;
    }
    match put_cell(&mut kept.values, kept.values_top, x) {
        Some(top) => {
            kept.values_top = top;
            Status::Done
        }
        None => Status::Stack,
    }
}

/// Pops the number on top of the data stack of a record, if nothing is asked.
pub fn pop(kept: &mut Forth83, x: &mut u16) -> Status
    ensures popped { result ≡ status.Done → HasPopped kept.old kept.new x.new }
    ensures beside { result ≡ status.Done → SameBeside kept.old kept.new }
    ensures waiting { kept.old.asks ≢ 0 → result ≡ status.Waiting }
    ensures no_machine { kept.old.asks ≡ 0 → TellsMachine kept.old (code_of result) }
    ensures why { kept.old.asks ≡ 0 → Tells WhyNotPopped kept.old result }
    ensures known { result ≢ status.OutOfMemory }
    ensures stays { result ≢ status.Done → kept.new ≡ kept.old }
    ensures untold { result ≢ status.Done → x.new ≡ x.old }
{
    if kept.asks != 0 {
        return Status::Waiting;
    }
    if !is_record(kept) {
        return Status::NoMachine;
    }
    match top_cell(&kept.values, kept.values_top) {
        Some((cell, top)) => {
            *x = cell;
            kept.values_top = top;
            Status::Done
        }
        None => Status::Stack,
    }
}

/// Puts the file of the image that the machine of a record is saved as into `file`, and how many bytes it has into `size`.
pub fn save(kept: &Forth83, entry: u16, file: &mut [u8], size: &mut usize) -> Status
    ensures saved { result ≡ status.Done → HasSaved kept.now entry (take size.new file.new) }
    ensures fits { result ≡ status.Done → size.new ≤ length file.new }
    ensures beyond { result ≡ status.Done → drop size.new file.new ≡ drop size.new file.old }
    ensures no_machine { TellsMachine kept.now (code_of result) }
    ensures why { Tells (WhyNotSaved entry (length file.old)) kept.now result }
    ensures known { result ≢ status.OutOfMemory }
    ensures stays { result ≢ status.Done → file.new ≡ file.old }
    ensures untold { result ≢ status.Done → size.new ≡ size.old }
{
    let Some(rest) = rest_of(kept) else {
        return Status::NoMachine;
    };
    let Ok(image) = saved_in_place(&kept.memory, &rest.registers.buffers, entry) else {
        return Status::BadSize;
    };
    match write_into(&image, file) {
        Ok(count) => {
            *size = count;
            Status::Done
        }
        Err(_) => Status::ShortRoom,
    }
}
