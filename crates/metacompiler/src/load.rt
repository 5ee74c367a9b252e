//! Screens are loaded on an image: the machine that it is loaded to compiles them.

ghost use Rattle.std.specs.Prelude.{◌≡◌, ◌+◌, ◌-◌, Some, Err, IfOk, IfErr};
ghost use Rattle.block_buffers.specs.Disks.{Disk};
ghost use Rattle.memory.specs.Bytes.{put_cell};
ghost use Rattle.machine.specs.Tick.{Runs};
ghost use Rattle.metacompiler.specs.Rounds.{entered, rounds, screens};
ghost use Rattle.metacompiler.specs.Loaded.{interpret_in, ended, fault_of, loaded_on, loaded_by_machine, IsLoaded, IsSaved};
ghost use Rattle.metacompiler.specs.Moved.{stage, at_screen, AreRead, word_on, word_of, HasRead, HasLoaded, HasStopped};
ghost use Rattle.metacompiler.specs.Compiled.{Compiles};
ghost use Rattle.metacompiler.specs.Making.{IsLed, StopsAt};

use crate::rounds::{Stop, is_end, make_rounds};
use block_buffers::Device;
use dictionary::find;
use image_loader::Image;
use inner_interpreter::{LentMachine, SaveRefused};
use machine_parts::faults::BLOCK_ZERO;
use memory::Memory;
use memory::system::{BLK, STATE, TO_IN};
use std::alloc::Global;
use thiserror::Error;

/// Why screens can't be loaded.
#[derive(Clone, Copy, Debug, PartialEq, Eq, Error)]
pub enum LoadFault {
    /// The image has no word INTERPRET.
    #[error("NotFound")]
    NotFound,
    /// A chain that is searched for it has more than 32,768 headers.
    #[error("ChainTooLong")]
    ChainTooLong,
    /// A fault of the machine, of this number; 16 if the first screen is 0, which is the terminal's buffer.
    #[error("Fault {0}")]
    Fault(u16),
    /// The machine halted.
    #[error("Halted")]
    Halted,
    /// It asked for a key or a line.
    #[error("Asked")]
    Asked,
    /// All ticks are done, and it must go on.
    #[error("Limit")]
    Limit,
    /// A definition isn't ended: STATE isn't 0.
    #[error("Unfinished")]
    Unfinished,
    /// HERE is no size of an image.
    #[error("BadSize")]
    BadSize,
    /// Memory was not found.
    #[error("out of memory")]
    OutOfMemory,
}

/// INTERPRET's compilation address.
fn interpret_in(machine: &LentMachine) -> Result<u16, LoadFault>
    ensures { result ≡ interpret_in machine.now.parts.memory }
{
    match find(machine.memory(), b"INTERPRET") {
        Ok(Some(word)) => Ok(word),
        Ok(None) => Err(LoadFault::NotFound),
        Err(_) => Err(LoadFault::ChainTooLong),
    }
}

/// One screen is read from its beginning.
fn load_screen<D: Device>(
    machine: &mut LentMachine,
    device: &mut D,
    interpret: u16,
    screen: u16,
    left: &mut u64,
) -> Stop
    ensures told { (d : Disk) → D.disk device.old ≡ Some d → Runs machine.old →
        StopsAt (rounds left.old (entered machine.old.parts interpret screen) d) machine.new
        (D.disk device.new) left.new result }
    ensures moved { Runs machine.old →
        IsLed (at_screen interpret screen (stage machine.old (D.calls device.old) left.old))
        (stage machine.new (D.calls device.new) left.new) (Some result) }
{
    machine.set_cell(BLK, screen);
    machine.set_cell(TO_IN, 0);
    match machine.enter(interpret) {
        Ok(()) => make_rounds(machine, device, left),
        Err(_) => Stop::Halted,
    }
}

/// The screens from one to another in turn, up to the first that doesn't end.
fn load_screens<D: Device>(
    machine: &mut LentMachine,
    device: &mut D,
    interpret: u16,
    from: u16,
    to: u16,
    left: &mut u64,
) -> Stop
    ensures told { (d : Disk) → D.disk device.old ≡ Some d → Runs machine.old →
        StopsAt (screens interpret (to + 1 - from) from left.old machine.old.parts d) machine.new
        (D.disk device.new) left.new result }
    ensures moved { Runs machine.old → AreRead interpret (to + 1 - from) from
        (stage machine.old (D.calls device.old) left.old) (stage machine.new (D.calls device.new) left.new) result }
{
    for screen in from..=to {
        let stop = load_screen(machine, device, interpret, screen, left);
        if !is_end(stop) {
            return stop;
        }
    }
    Stop::Ended
}

/// Why screens can't be loaded whose rounds stop so.
fn fault_of(stop: Stop) -> LoadFault
    ensures { result ≡ fault_of stop }
{
    match stop {
        Stop::Fault(f) => LoadFault::Fault(f),
        Stop::Halted => LoadFault::Halted,
        Stop::Asked => LoadFault::Asked,
        Stop::Limit => LoadFault::Limit,
        Stop::Ended => LoadFault::Limit,
    }
}

/// After all screens: BLK and >IN get these cells, words must be executed again, and memory is saved.
fn save(
    machine: &mut LentMachine,
    alloc: Global,
    entry: u16,
    blk: u16,
    to_in: u16,
) -> Result<Image, LoadFault>
    ensures { IsSaved
        (ended entry
        (record machine.old.parts { memory = put_cell (put_cell machine.old.parts.memory BLK blk) TO_IN to_in }))
        result }
{
    machine.set_cell(BLK, blk);
    machine.set_cell(TO_IN, to_in);
    if machine.memory().cell(STATE) != 0 {
        return Err(LoadFault::Unfinished);
    }
    match machine.save(alloc, entry) {
        Ok(image) => Ok(image),
        Err(SaveRefused::BadSize) => Err(LoadFault::BadSize),
        Err(SaveRefused::OutOfMemory) => Err(LoadFault::OutOfMemory),
    }
}

/// The screens from one to another are loaded by a machine that runs, to which an image with this entry was loaded, as
/// `load_by_machine` does. If a screen's rounds stop before its end, its BLK and >IN say where that was.
#[tactic(auto, using(crate::proofs::Answering::refused_loaded, crate::proofs::Answering::stopped_loaded, crate::proofs::Answering::saved_loaded, crate::proofs::Answering::stopped_there, crate::proofs::Answering::saved_there))]
pub fn load_on<D: Device>(
    machine: &mut LentMachine,
    alloc: Global,
    device: &mut D,
    entry: u16,
    from: u16,
    to: u16,
    limit: u64,
) -> Result<Image, LoadFault>
    ensures told { (d : Disk) → D.disk device.old ≡ Some d → Runs machine.old →
        IsLoaded d (loaded_on entry machine.old.parts d from to limit) result (D.disk device.new) }
    ensures refused { IfErr (word_on machine.old from to) (λ c. (result ≡ Err c) × (device.new ≡ device.old)) }
    ensures moved { Runs machine.old → IfOk (word_on machine.old from to)
        (λ word. HasRead word entry from to (stage machine.old (D.calls device.old) limit)
        (D.calls device.new) result) }

    // If a screen's rounds stop before its end, the machine is as they left it: its BLK and >IN say where that was.
    ensures stopped { Runs machine.old → IfOk (word_on machine.old from to)
        (λ word. HasStopped word from to (stage machine.old (D.calls device.old) limit) machine.new
        (D.calls device.new) result) }
{
    let interpret = match interpret_in(machine) {
        Ok(interpret) => interpret,
        Err(fault) => return Err(fault),
    };
    if from == 0 && from <= to {
        return Err(LoadFault::Fault(BLOCK_ZERO));
    }
    let blk = machine.memory().cell(BLK);
    let to_in = machine.memory().cell(TO_IN);
    let mut left = limit;
    let stop = load_screens(machine, device, interpret, from, to, &mut left);
    if !is_end(stop) {
        return Err(fault_of(stop));
    }
    save(machine, alloc, entry, blk, to_in)
}

/// Loads screens on an image: the machine that it is loaded to compiles them in turn, with at most `limit` ticks, and
/// its memory up to HERE is the new image, which starts with the same word. For each screen BLK is set to it, >IN to 0,
/// and INTERPRET is entered; after the last BLK and >IN get their cells of before. What is shown is dropped; what is
/// asked of the device is asked of `device`, and what was written stays written.
pub fn load_by_machine<D: Device>(
    alloc: Global,
    image: &Image,
    device: &mut D,
    from: u16,
    to: u16,
    limit: u64,
) -> Result<Image, LoadFault>
    ensures told { (d : Disk) → D.disk device.old ≡ Some d →
        IsLoaded d (loaded_by_machine image.now d from to limit) result (D.disk device.new) }
    ensures compiled { (d : Disk) → D.disk device.old ≡ Some d → Compiles image.now d from to result }

    // Whatever the device is: if no INTERPRET is found or the first screen is 0, this is answered, and the device is as
    // it was; else the screens are read by moves of the machine, up to the first that doesn't end.
    ensures refused { IfErr (word_of image.now from to) (λ c. IsSaved (Err c) result × (device.new ≡ device.old)) }
    ensures moved { IfOk (word_of image.now from to)
        (λ word. HasLoaded word image.now (D.block_count device.old) from to limit (D.calls device.old)
        (D.calls device.new) result) }
{
    let Ok(mut memory) = Memory::with_front(alloc, image.bytes()) else {
        return Err(LoadFault::OutOfMemory);
    };
    let memory: &mut Memory = &mut memory;
    let count = device.count();
    let mut machine = LentMachine::load(alloc, memory, image, count);
    load_on(&mut machine, alloc, device, image.entry(), from, to, limit)
}
