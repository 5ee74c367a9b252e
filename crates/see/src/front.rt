//! One instruction off the front of a thread.

ghost use Rattle.std.specs.Prelude.{◌≡◌, ◌≤◌, ◌+◌, ◌<◌, ℕ, length, map, take, drop, IfSome, slice_index};
ghost use Rattle.std.specs.Option.{option_map};
ghost use Rattle.memory.specs.Controls.{number_of};
ghost use Rattle.colon_bodies.specs.Instructions.{len};
ghost use Rattle.colon_bodies.specs.Found.{is_cell, pick, controls, of_control, first, peel, with_text};
ghost use Rattle.see.specs.Apart.{instr, front, peeled};

use colon_bodies::cell_of;
use memory::controls::Control;

/// An instruction: a cell and what comes after it.
#[derive(Clone, Copy)]
pub enum Instruction<'a> {
    /// A word's compilation address.
    Call(u16),
    /// (LIT) and a number.
    Number(u16),
    /// COMPILE's control and a compilation address.
    Pair(u16),
    /// (.") or, if this is true, (ABORT"), and a text.
    Text(bool, &'a [u8]),
    /// ?BRANCH and an address.
    Query(u16),
    /// BRANCH and an address.
    Branch(u16),
    /// (DO) and an address.
    Do(u16),
    /// (LOOP) or, if this is true, (+LOOP), and an address.
    Loop(bool, u16),
    /// (DOES>).
    Does,
}

/// An instruction, and the bytes after it.
#[derive(Clone, Copy)]
pub struct Taken<'a> {
    pub first: Instruction<'a>,
    pub rest: &'a [u8],
}

/// What is after the first `n` bytes.
pub fn tail(bytes: &[u8], n: usize) -> &[u8]
    ensures { result.now ≡ drop n bytes.now }
{
    if n < bytes.len() {
        &bytes[n..]
    } else {
        &bytes[bytes.len()..]
    }
}

/// The first `n` bytes, or all.
pub fn head(bytes: &[u8], n: usize) -> &[u8]
    ensures { result.now ≡ take n bytes.now }
{
    if n < bytes.len() { &bytes[..n] } else { bytes }
}

/// A cell, and the bytes after it.
fn peel_off(bytes: &[u8]) -> Option<(u16, &[u8])>
    ensures is { peeled result ≡ peel bytes.now }
    ensures lengths { IfSome result (λ p. length bytes.now ≡ 2 + length p.1.now) }
{
    if bytes.len() < 2 {
        return None;
    }
    Some((bytes[0] as u16 + 256 * bytes[1] as u16, tail(bytes, 2)))
}

/// A text after its length.
fn text_off(aborts: bool, bytes: &[u8]) -> Option<Taken>
    ensures { front result ≡ with_text aborts bytes.now }
{
    if bytes.is_empty() {
        return None;
    }
    let n = bytes[0] as usize;
    let after = tail(bytes, 1);
    Some(Taken {
        first: Instruction::Text(aborts, head(after, n)),
        rest: tail(after, n),
    })
}

/// Whether the cell is that of a control.
fn is_control(c: u16, control: u16) -> bool
    ensures { (rt : ℕ → ℕ) (k : ℕ) → rt k ≡ control → result ≡ is_cell rt k c }
{
    c != 0 && c == control
}

/// The control whose cell it is.
fn control_in(c: u16, runtime: &[u16], among: &[Control]) -> Option<Control>
    requires { 28 ≤ length runtime.now }
    ensures { option_map number_of result ≡ pick (slice_index runtime.now) c (map number_of among.now) }
{
    for control in among.iter() {
        if is_control(c, cell_of(runtime, *control)) {
            return Some(*control);
        }
    }
    None
}

/// The control whose cell it is, among those that a thread can show.
pub fn control_at(c: u16, runtime: &[u16]) -> Option<Control>
    requires { 28 ≤ length runtime.now }
    ensures { option_map number_of result ≡ pick (slice_index runtime.now) c controls }
{
    control_in(
        c,
        runtime,
        &[
            Control::Literal,
            Control::ShowText,
            Control::AbortText,
            Control::ZeroBranch,
            Control::Branch,
            Control::Do,
            Control::Loop,
            Control::PlusLoop,
            Control::Does,
            Control::Compile,
        ],
    )
}

/// The instruction of a control that takes the cell after it, from the bytes after its own.
macro_rules! with_cell {
    ($bytes:expr, $x:ident -> $first:expr) => {{
        let ($x, rest) = peel_off($bytes)?;
        Some(Taken {
            first: $first,
            rest,
        })
    }};
}

/// A control's instruction, from the bytes after its cell.
fn control_off(control: Control, bytes: &[u8]) -> Option<Taken>
    ensures { front result ≡ of_control (number_of control) bytes.now }
{
    match control {
        Control::Literal => with_cell!(bytes, x -> Instruction::Number(x)),
        Control::Branch => with_cell!(bytes, x -> Instruction::Branch(x)),
        Control::ZeroBranch => with_cell!(bytes, x -> Instruction::Query(x)),
        Control::Do => with_cell!(bytes, x -> Instruction::Do(x)),
        Control::Loop => with_cell!(bytes, x -> Instruction::Loop(false, x)),
        Control::PlusLoop => with_cell!(bytes, x -> Instruction::Loop(true, x)),
        Control::ShowText => text_off(false, bytes),
        Control::AbortText => text_off(true, bytes),
        Control::Does => Some(Taken {
            first: Instruction::Does,
            rest: bytes,
        }),
        Control::Compile | Control::Exit => with_cell!(bytes, x -> Instruction::Pair(x)),
    }
}

/// The first instruction.
pub fn first_off<'a>(bytes: &'a [u8], runtime: &[u16]) -> Option<Taken<'a>>
    requires { 28 ≤ length runtime.now }
    ensures is { front result ≡ first (slice_index runtime.now) bytes.now }
    ensures lengths { IfSome result (λ t. len (instr t.first) + length t.rest.now ≡ length bytes.now) }
{
    let (c, rest) = peel_off(bytes)?;
    match control_at(c, runtime) {
        None => Some(Taken {
            first: Instruction::Call(c),
            rest,
        }),
        Some(control) => control_off(control, rest),
    }
}
