//! Containers of other systems as blocks, and back.

ghost use Rattle.std.specs.Prelude.{◌≡◌, ◌≤◌, ◌%◌, ◌⊎◌, IfErr, IfOk, length, drop};

use crate::showing::put;
use old_disks::{Packed, Refusal, Unpacked, read_options};
use std::alloc::{AllocError, Global};

/// Why a container is not read or written.
#[derive(Clone, Copy)]
pub enum Unread {
    /// There was no memory for it.
    OutOfMemory,
    /// There is too little room for the blocks.
    ShortRoom,
    /// The options, the container or the blocks are refused, and a text says why.
    Refused,
}

impl Unread {
    /// Its number in the header.
    pub fn code(self) -> u32
        ensures { (result ≡ 2) ⊎ ((result ≡ 3) ⊎ (result ≡ 23)) }
    {
        match self {
            Unread::OutOfMemory => 2,
            Unread::ShortRoom => 3,
            Unread::Refused => 23,
        }
    }
}

/// Room for a text, and how many bytes of it are used.
#[derive(Drop)]
pub struct Told<'a> {
    pub room: &'a mut [u8],
    pub size: &'a mut usize,
}

impl Told<'_> {
    /// Puts as much of a text as there is room for.
    fn tell(&mut self, text: &str) {
        let bytes = text.as_bytes();
        let count = bytes.len().min(self.room.len());
        *self.size = put(self.room, 0, &bytes[..count]);
    }

    /// Says why something is refused.
    fn refuse(&mut self, alloc: Global, refusal: Refusal) -> Unread {
        if matches!(refusal, Refusal::OutOfMemory) {
            return Unread::OutOfMemory;
        }
        let Ok(text) = format!(in alloc; "{refusal}") else {
            return Unread::OutOfMemory;
        };
        self.tell(text.as_str());
        Unread::Refused
    }

    /// Says what is to be said, or nothing.
    fn remark(
        &mut self,
        alloc: Global,
        remark: Option<old_disks::Remark>,
    ) -> Result<(), AllocError> {
        match remark {
            Some(remark) => {
                let text = format!(in alloc; "{remark}")?;
                self.tell(text.as_str());
            }
            None => self.tell(""),
        }
        Ok(())
    }
}

/// The blocks of a container by these options.
fn unpacked(alloc: Global, options: &[u8], container: &[u8]) -> Result<Unpacked, Refusal>
    ensures { IfOk result (λ u. length u.blocks.items % 1024 ≡ 0) }
{
    let options = read_options(alloc, options)?;
    old_disks::unpack(alloc, container, &options)
}

/// The container with blocks by these options.
fn packed(
    alloc: Global,
    options: &[u8],
    blocks: &[u8],
    container: &[u8],
) -> Result<Packed, Refusal> {
    let options = read_options(alloc, options)?;
    old_disks::pack(alloc, blocks, container, &options)
}

/// Puts the blocks of a container into `room`, how many bytes they have into `size`, and what is said of them into `told`. Answers the
/// number of the first one. With too little room, `size` says how much is needed.
pub fn unpack(
    alloc: Global,
    options: &[u8],
    container: &[u8],
    room: &mut [u8],
    size: &mut usize,
    told: Told<'_>,
) -> Result<u16, Unread>
    ensures fits { IfOk result (λ _. size.new ≤ length room.new) }
    ensures beyond { IfOk result (λ _. drop size.new room.new ≡ drop size.new room.old) }
    ensures whole { IfOk result (λ _. size.new % 1024 ≡ 0) }
    ensures stays { IfErr result (λ _. room.new ≡ room.old) }
{
    let mut told = told;
    let unpacked = match unpacked(alloc, options, container) {
        Ok(unpacked) => unpacked,
        Err(refusal) => return Err(told.refuse(alloc, refusal)),
    };
    let blocks = unpacked.blocks.as_slice();
    if room.len() < blocks.len() {
        *size = blocks.len();
        return Err(Unread::ShortRoom);
    }
    if told.remark(alloc, unpacked.remark).is_err() {
        return Err(Unread::OutOfMemory);
    }
    *size = put(room, 0, blocks);
    Ok(u16::try_from(unpacked.first).unwrap_or(0))
}

/// Puts blocks into a container, and what is said of them into `told`.
pub fn pack(
    alloc: Global,
    options: &[u8],
    blocks: &[u8],
    container: &mut [u8],
    told: Told<'_>,
) -> Result<(), Unread>
    ensures len { length container.new ≡ length container.old }
    ensures stays { IfErr result (λ _. container.new ≡ container.old) }
{
    let mut told = told;
    let packed = match packed(alloc, options, blocks, container) {
        Ok(packed) => packed,
        Err(refusal) => return Err(told.refuse(alloc, refusal)),
    };
    if packed.container.len() != container.len() {
        return Err(Unread::ShortRoom);
    }
    if told.remark(alloc, packed.remark).is_err() {
        return Err(Unread::OutOfMemory);
    }
    container.copy_from_slice(packed.container.as_slice());
    Ok(())
}

/// Puts the name of the format that a container may have into `told`.
pub fn guess(alloc: Global, container: &[u8], told: Told<'_>) -> Result<(), Unread> {
    let mut told = told;
    match old_disks::guess(alloc, container) {
        Ok(name) => {
            told.tell(name);
            Ok(())
        }
        Err(_) => Err(Unread::OutOfMemory),
    }
}
