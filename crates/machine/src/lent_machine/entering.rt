//! What a host does with a machine beside its moves: a word is entered, a cell is written, memory is saved as an image.

ghost use Rattle.std.specs.Prelude.{◌≡◌, ◌≤◌, length, None, IsSome, IsTrue, IsFalse, IfOk, IfErr, OnErr, IsErrOf};
ghost use Rattle.memory.specs.Mirrored.{stored};
ghost use Rattle.machine_parts.specs.Whole.{Whole};
ghost use Rattle.machine.specs.Tick.{Runs, is_running};
ghost use Rattle.machine.specs.Entering.{entered, with_parts, with_bytes, with_cell, can_save, saved};
ghost use Rattle.machine.specs.Registers.{registers_of, with_registers};

use super::LentMachine;
use crate::act::Refused;
use crate::registers::Registers;
use block_buffers::buffers::Buffers;
use image_loader::{BorrowedImage, Image};
use memory::Memory;
use memory::system::DP;
use std::alloc::Global;
use std::mem::replace;
use thiserror::Error;

/// Why memory can't be saved as an image.
#[derive(Clone, Copy, Debug, PartialEq, Eq, Error)]
pub enum SaveRefused {
    /// HERE is below 256, or above where the block buffers begin.
    #[error("HERE is below 256, or above where the block buffers begin")]
    BadSize,
    /// There is no memory left.
    #[error("out of memory")]
    OutOfMemory,
}

/// HERE is below 256, or above where the block buffers begin.
#[derive(Clone, Copy, Debug, PartialEq, Eq, Error)]
#[error("HERE is below 256, or above where the block buffers begin")]
pub struct BadSize;

impl<'m> LentMachine<'m> {
    /// Enters a word: the return stack is emptied, `ip` is 0, and the word comes next. `Halted` if the machine is, else
    /// `Waiting` while a request waits; it is then unchanged.
    pub fn enter(&mut self, word: u16) -> Result<(), Refused>
        ensures entered { IfOk result (λ _. self.new ≡ with_parts self.old (entered self.old.parts word)) }
        ensures runs { IfOk result (λ _. Runs self.new) }
        ensures halted { IsSome self.old.halt → IsErrOf result Refused.Halted }
        ensures waiting { self.old.halt ≡ None → IsSome self.old.wait → IsErrOf result Refused.Waiting }
        ensures stays { OnErr result (IsFalse (is_running self.old) × (self.new ≡ self.old)) }
    {
        if self.halt.is_some() {
            return Err(Refused::Halted);
        }
        if self.wait.is_some() {
            return Err(Refused::Waiting);
        }
        self.parts.returns.clear();
        self.parts.ip = 0;
        self.parts.pending = Some(word);
        Ok(())
    }

    /// Writes a cell of memory, and nothing else.
    pub fn set_cell(&mut self, address: u16, x: u16)
        ensures { self.new ≡ with_cell self.old address x }
    {
        self.parts.set_cell(address, x);
    }

    /// Writes bytes of memory from an address on, and nothing else. After address 65,535 comes 0.
    pub fn set_bytes(&mut self, address: u16, bytes: &[u8])
        requires { length bytes.now ≤ 65535 }
        ensures { self.new ≡ with_bytes self.old address bytes.now }
    {
        self.parts.set_bytes(address, bytes);
    }

    /// Puts these registers in place of the machine's own, which are the result. Memory and device stay.
    pub fn replace_registers(&mut self, registers: Registers) -> Registers
        requires { length registers.buffers ≡ length self.old.parts.buffers }
        ensures put { self.new ≡ with_registers self.old registers }
        ensures own { result ≡ registers_of self.old }
    {
        let Registers {
            values,
            returns,
            ip,
            pending,
            buffers,
            wait,
            halt,
        } = registers;
        Registers {
            values: replace(&mut self.parts.values, values),
            returns: replace(&mut self.parts.returns, returns),
            ip: replace(&mut self.parts.ip, ip),
            pending: replace(&mut self.parts.pending, pending),
            buffers: replace(&mut self.parts.buffers, buffers),
            wait: replace(&mut self.wait, wait),
            halt: replace(&mut self.halt, halt),
        }
    }

    /// Memory up to HERE as an image with as many block buffers, which starts with the word at `entry`. `BadSize` if
    /// HERE is no size of such an image.
    pub fn save(&self, alloc: Global, entry: u16) -> Result<Image, SaveRefused>
        ensures saved { IfOk result (λ image. image ≡ saved self.now.parts entry) }
        ensures fits { IfOk result (λ _. IsTrue (can_save self.now.parts)) }
        ensures size { IsFalse (can_save self.now.parts) → IsErrOf result SaveRefused.BadSize }
        ensures room { IfErr result (λ e. e ≡ SaveRefused.BadSize → IsFalse (can_save self.now.parts)) }
    {
        let Ok(image) = saved_in_place(self.parts.memory, &self.parts.buffers, entry) else {
            return Err(SaveRefused::BadSize);
        };
        match image.to_image(alloc) {
            Ok(image) => Ok(image),
            Err(_) => Err(SaveRefused::OutOfMemory),
        }
    }
}

/// The same image of memory and buffers that no machine has now, with the bytes as they lie in memory.
#[tactic(auto, unfolding(crate::specs::Entering::can_save))]
pub fn saved_in_place<'m>(
    memory: &'m Memory,
    buffers: &Buffers,
    entry: u16,
) -> Result<BorrowedImage<'m>, BadSize>
    ensures saved { (s : Whole) → s.memory ≡ stored memory.now → s.buffers ≡ buffers.now →
        IfOk result (λ image. image ≡ saved s entry) }
    ensures fits { (s : Whole) → s.memory ≡ stored memory.now → s.buffers ≡ buffers.now →
        IfOk result (λ _. IsTrue (can_save s)) }
    ensures size { (s : Whole) → s.memory ≡ stored memory.now → s.buffers ≡ buffers.now →
        IfErr result (λ _. IsFalse (can_save s)) }
{
    let here = memory.cell(DP);
    let limit = buffers.limit();
    if here < 256 || here > limit {
        return Err(BadSize);
    }
    let bytes = &memory.as_slice()[..here as usize];
    Ok(BorrowedImage::new(buffers.count(), entry, bytes))
}
