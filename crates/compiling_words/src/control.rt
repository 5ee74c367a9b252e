//! What is written for control primitives.

ghost use Rattle.std.specs.Prelude.{◌≡◌, length};
ghost use Rattle.memory.specs.Mirrored.{stored};
ghost use Rattle.memory.specs.Controls.{number_of};
ghost use Rattle.compiling_words.specs.Code.{runtime, control_code, literal_code};

use memory::controls::Control;
use memory::system::RUNTIME_CELLS;
use memory::{Memory, cell_bytes};

/// The compilation address of a control primitive: its runtime cell.
pub fn runtime(memory: &Memory, control: Control) -> u16
    ensures { result ≡ runtime (stored memory.now) (number_of control) }
{
    memory.cell(RUNTIME_CELLS + 2 * control as u16)
}

/// The code of a control primitive that takes a cell from after it.
pub fn control_code(memory: &Memory, control: Control, x: u16) -> [u8; 4]
    ensures value { result ≡ control_code (stored memory.now) (number_of control) x }
    ensures len { length (control_code (stored memory.now) (number_of control) x) ≡ 4 }
{
    let [first_low, first_high] = cell_bytes(runtime(memory, control));
    let [low, high] = cell_bytes(x);
    [first_low, first_high, low, high]
}

/// The code of a literal: `(LIT)` and the cell.
pub fn literal_code(memory: &Memory, x: u16) -> [u8; 4]
    ensures value { result ≡ literal_code (stored memory.now) x }
    ensures len { length (literal_code (stored memory.now) x) ≡ 4 }
{
    control_code(memory, Control::Literal, x)
}
