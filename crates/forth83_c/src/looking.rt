//! What is in the memory of a machine that is kept. No machine is resumed: these calls read memory alone.

ghost use Rattle.std.specs.Prelude.{◌≡◌, ◌≢◌, ◌≤◌, length, take, drop};
ghost use Rattle.forth83_c.specs.declared.status.Status.TheVariants as status;
ghost use Rattle.forth83_c.specs.Called.{Tells, TellsMachine, code_of};
ghost use Rattle.forth83_c.specs.Looked.{HasExtent, HasListed, HasSeen, HasViewed, WhyNoExtent, WhyNotListed, WhyNotSeen, WhyNotViewed, by_refusal};

use crate::kept::is_record;
use crate::record::Forth83;
use crate::showing::put;
use crate::status::Status;
use debug_tracer::{DebugFault, extent_in};
use dictionary::{HeaderList, HeadersFault, headers_in_order};
use memory::OutOfMemory;
use see::{SeeRefused, ViewRefused};
use std::alloc::Global;

/// Puts the view cell of the word that a name means into `block`.
pub fn view(kept: &Forth83, name: &[u8], block: &mut u16) -> Status
    ensures viewed { result ≡ status.Done → HasViewed kept.now name.now block.new }
    ensures no_machine { TellsMachine kept.now (code_of result) }
    ensures why { Tells (WhyNotViewed name.now) kept.now result }
    ensures known { result ≢ status.OutOfMemory }
    ensures untold { result ≢ status.Done → block.new ≡ block.old }
{
    if !is_record(kept) {
        return Status::NoMachine;
    }
    match see::view(&kept.memory, name) {
        Ok(cell) => {
            *block = cell;
            Status::Done
        }
        Err(ViewRefused::NotFound) => Status::NotFound,
        Err(ViewRefused::ChainTooLong) => Status::ChainTooLong,
    }
}

/// Puts cells at the front of a room that has as many, and answers how many they are.
pub fn put_cells(room: &mut [u16], cells: &[u16]) -> usize
    requires { length cells.now ≤ length room.old }
    ensures front { take result room.new ≡ cells.now }
    ensures beyond { drop result room.new ≡ drop result room.old }
    ensures fits { result ≤ length room.new }
    ensures len { length room.new ≡ length room.old }
{
    room[..cells.len()].copy_from_slice(cells);
    cells.len()
}

/// Puts the link fields of all headers of all vocabularies into `list`, ascending and each once, and how many they are into `count`.
pub fn headers(alloc: Global, kept: &Forth83, list: &mut [u16], count: &mut usize) -> Status
    ensures listed { result ≡ status.Done → HasListed kept.now (take count.new list.new) }
    ensures fits { result ≡ status.Done → count.new ≤ length list.new }
    ensures beyond { result ≡ status.Done → drop count.new list.new ≡ drop count.new list.old }
    ensures no_machine { TellsMachine kept.now (code_of result) }
    ensures why { Tells (WhyNotListed (length list.old)) kept.now result }
    ensures stays { result ≢ status.Done → list.new ≡ list.old }
    ensures untold { result ≢ status.Done → count.new ≡ count.old }
{
    if !is_record(kept) {
        return Status::NoMachine;
    }
    let found = match headers_in_order(alloc, &kept.memory) {
        Ok(found) => found,
        Err(HeadersFault::ChainTooLong) => return Status::ChainTooLong,
        Err(HeadersFault::OutOfMemory) => return Status::OutOfMemory,
    };
    if list.len() < found.len() {
        return Status::ShortRoom;
    }
    *count = put_cells(list, found.as_slice());
    Status::Done
}

/// Puts where the thread of the colon word that a name means begins into `from`, and where it ends into `end`.
pub fn extent(alloc: Global, kept: &Forth83, name: &[u8], from: &mut u16, end: &mut u16) -> Status
    ensures extent { result ≡ status.Done → HasExtent kept.now name.now from.new end.new }
    ensures no_machine { TellsMachine kept.now (code_of result) }
    ensures why { Tells (WhyNoExtent name.now) kept.now result }
    ensures untold_from { result ≢ status.Done → from.new ≡ from.old }
    ensures untold_end { result ≢ status.Done → end.new ≡ end.old }
{
    if !is_record(kept) {
        return Status::NoMachine;
    }
    let mut list = match HeaderList::new(alloc) {
        Ok(list) => list,
        Err(OutOfMemory) => return Status::OutOfMemory,
    };
    match extent_in(&mut list, &kept.memory, name) {
        Ok(extent) => {
            *from = extent.from;
            *end = extent.end;
            Status::Done
        }
        Err(DebugFault::NotFound) => Status::NotFound,
        Err(DebugFault::ChainTooLong) => Status::ChainTooLong,
        Err(DebugFault::NotColon) => Status::NotColon,
        Err(DebugFault::OutOfMemory) => Status::OutOfMemory,
    }
}

/// Why there is no text of SEE.
fn by_refusal(refused: &SeeRefused) -> Status
    ensures { result ≡ by_refusal refused.now }
{
    match refused {
        SeeRefused::NotFound => Status::NotFound,
        SeeRefused::ChainTooLong => Status::ChainTooLong,
        SeeRefused::NotColon => Status::NotColon,
        SeeRefused::NotStructured => Status::NotStructured,
        SeeRefused::Nameless(_) => Status::Nameless,
        SeeRefused::Shadowed => Status::Shadowed,
        SeeRefused::BadText => Status::BadText,
        SeeRefused::OutOfMemory => Status::OutOfMemory,
    }
}

/// Puts SEE's text of the colon word that a name means into `text`, and how many bytes it has into `size`.
pub fn see(alloc: Global, kept: &Forth83, name: &[u8], text: &mut [u8], size: &mut usize) -> Status
    ensures seen { result ≡ status.Done → HasSeen kept.now name.now (take size.new text.new) }
    ensures fits { result ≡ status.Done → size.new ≤ length text.new }
    ensures beyond { result ≡ status.Done → drop size.new text.new ≡ drop size.new text.old }
    ensures no_machine { TellsMachine kept.now (code_of result) }
    ensures why { Tells (WhyNotSeen name.now (length text.old)) kept.now result }
    ensures stays { result ≢ status.Done → text.new ≡ text.old }
    ensures untold { result ≢ status.Done → size.new ≡ size.old }
{
    if !is_record(kept) {
        return Status::NoMachine;
    }
    match see::see(alloc, &kept.memory, name) {
        Ok(seen) => {
            if text.len() < seen.len() {
                return Status::ShortRoom;
            }
            *size = put(text, 0, seen.as_slice());
            Status::Done
        }
        Err(refused) => by_refusal(&refused),
    }
}
