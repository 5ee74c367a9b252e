//! The controls that words write.

ghost use Rattle.std.specs.Prelude.{◌≡◌, ◌≤◌, length, slice_index};
ghost use Rattle.memory.specs.Controls.{number_of};
ghost use Rattle.colon_bodies.specs.Tokens.{text_control, loop_control};

use memory::controls::Control;

/// The compilation address of a control, if `runtime` has that of each control primitive k at k.
pub fn cell_of(runtime: &[u16], control: Control) -> u16
    requires { 28 ≤ length runtime.now }
    ensures { result ≡ slice_index runtime.now (number_of control) }
{
    runtime[control as usize]
}

/// The control that shows a text, or that aborts with it.
pub fn text_control(aborts: bool) -> Control
    ensures { number_of result ≡ text_control aborts }
{
    if aborts {
        Control::AbortText
    } else {
        Control::ShowText
    }
}

/// The control that ends a loop.
pub fn loop_control(plus: bool) -> Control
    ensures { number_of result ≡ loop_control plus }
{
    if plus {
        Control::PlusLoop
    } else {
        Control::Loop
    }
}
