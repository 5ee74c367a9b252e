//! The record that a machine is kept in between two calls. It is plain bytes of the host's, and may be copied. Calls work in its memory
//! as it lies there.

use memory::Memory;

/// A block buffer.
#[repr(C)]
#[derive(Clone, Copy)]
pub struct Forth83Buffer {
    /// Its slot, from 0 on.
    pub slot: u16,
    /// 1 if it has a block.
    pub has_block: u16,
    /// That block.
    pub block: u16,
    /// 1 if the block was updated since it was read or written.
    pub updated: u16,
}

/// The faults that a machine met since it was loaded, whether its image handled them or not.
#[repr(C)]
#[derive(Clone, Copy, Debug)]
pub struct Forth83Faults {
    /// How many they are, modulo 65,536.
    pub count: u16,
    /// The last of them; 0 if there is none.
    pub last: u16,
    /// The address of the next token in the thread, before the tick or the answer that met it.
    pub ip: u16,
}

/// Where a machine was when a word was called: what is kept of it while that word runs.
#[repr(C)]
#[derive(Drop)]
pub struct Forth83Aside {
    /// The address of the next token in the thread.
    pub ip: u16,
    /// 1 if another token came next.
    pub has_pending: u16,
    /// The address of that token.
    pub pending: u16,
    /// What it asked: 0 nothing, 1 a key, 2 a line.
    pub asks: u16,
    /// The most bytes of that line.
    pub asked: u16,
    /// The token that asked.
    pub token: u16,
    /// The two cells that a line needs, which were on top of the data stack, the top first.
    pub line: [u16; 2],
    /// Where the top of the return stack is among its cells.
    pub returns_top: u16,
    /// The cells of the return stack.
    pub returns: [u16; 257],
}

/// A machine: all that a tick reads and writes, its faults, and what a call keeps aside.
#[repr(C)]
#[derive(Drop)]
pub struct Forth83 {
    /// Which layout this is: 3.
    pub abi: u32,
    /// How many blocks its device has.
    pub block_count: u32,
    /// The address of the next token in the thread.
    pub ip: u16,
    /// 1 if another token comes next.
    pub has_pending: u16,
    /// The address of that token.
    pub pending: u16,
    /// What it asks: 0 nothing, 1 a key, 2 a line, 3 a block's bytes, 4 that a block's bytes be kept.
    pub asks: u16,
    /// The most bytes of that line, or the block.
    pub asked: u16,
    /// The token that asks.
    pub token: u16,
    /// Why it halted: 0 it did not, 1 BYE, 2 the end of input, 3 input that can't be read, 4 a fault.
    pub halts: u16,
    /// That fault.
    pub fault: u16,
    /// Where the top of the data stack is among its cells; 256 if it is empty.
    pub values_top: u16,
    /// The same of the return stack.
    pub returns_top: u16,
    /// How many buffers there are, 2 to 16.
    pub buffer_count: u16,
    /// The buffers, the most recently referenced first.
    pub buffers: [Forth83Buffer; 16],
    /// The cells of the data stack, the bottom at place 255.
    pub values: [u16; 257],
    /// The cells of the return stack.
    pub returns: [u16; 257],
    /// Memory, with sixteen bytes after it that calls use for themselves.
    pub memory: Memory,
    /// The faults so far.
    pub faults: Forth83Faults,
    /// 1 while a word is called.
    pub is_called: u16,
    /// What is kept aside then.
    pub aside: Forth83Aside,
}

/// How a call of `forth83_run` ended.
#[repr(C)]
#[derive(Clone, Copy)]
pub struct Forth83End {
    /// How many typed bytes were read.
    pub read: usize,
    /// How many bytes are shown.
    pub shown: usize,
    /// How many ticks of the limit are left.
    pub left: u64,
    /// Why it ended: 0 the machine is halted, 1 no tick is left, 2 too little room, 3 typed bytes are wanted, 4 a block is,
    /// 5 the host shows bytes of memory by itself, 6 these and a blank, 7 the word that was called has returned.
    pub stop: u32,
    /// The address of these bytes; they go on at address 0 after memory's end.
    pub at: u16,
    /// How many they are; 0 if it ended for another reason.
    pub len: u16,
}
