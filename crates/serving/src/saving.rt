//! The updated buffers are written.

ghost use Rattle.std.specs.Prelude.{◌≡◌, ◌<◌, ◌≤◌, ◌++◌, ◌∷◌, [], List, length};
ghost use Rattle.block_buffers.specs.DeviceCalls.{DeviceCall};
ghost use Rattle.serving.specs.Saving.{AreSaved, unsaved};

use block_buffers::{Device, Entry};
use inner_interpreter::LentMachine;

/// The block of a buffer that is to be written.
#[tactic(auto, unfolding(crate::specs::Saving::unsaved))]
fn unsaved(entry: Entry, count: u32) -> Option<u16>
    ensures { result ≡ unsaved count entry }
{
    match entry.block {
        Some(block) if entry.updated && u32::from(block) < count => Some(block),
        _ => None,
    }
}

/// Writes the block of a buffer if it was updated and is one of the first `count`, and answers whether that failed.
fn save_entry<D: Device>(machine: &LentMachine, device: &mut D, count: u32, entry: Entry) -> u16
    requires { entry.slot < length machine.now.parts.buffers }
    ensures saved { (calls : List DeviceCall) × (D.calls device.new ≡ D.calls device.old ++ calls)
        × AreSaved count machine.now.parts (entry ∷ []) calls result }
    ensures few { result ≤ 1 }
{
    let Some(block) = unsaved(entry, count) else {
        return 0;
    };
    let address = machine.buffers().address_of(entry.slot);
    match device.write(block, machine.memory().page(address)) {
        Ok(()) => 0,
        Err(_) => 1,
    }
}

/// Writes the updated buffers whose blocks are among the first `count`, the most recently referenced first, and answers how many of them could not be
/// written. The machine keeps their marks.
pub fn save<D: Device>(machine: &LentMachine, device: &mut D, count: u32) -> u16
    ensures saved { (calls : List DeviceCall) × (D.calls device.new ≡ D.calls device.old ++ calls)
        × AreSaved count machine.now.parts machine.now.parts.buffers calls result }
{
    let buffers = machine.buffers();
    let mut lost = 0;
    for place in 0..usize::from(buffers.count()) {
        lost += save_entry(machine, device, count, buffers.entry(place));
    }
    lost
}
