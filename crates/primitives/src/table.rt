//! The rows by number.

ghost use Rattle.std.specs.Prelude.{◌≡◌};
ghost use Rattle.primitives.specs.Table.{devices, numbers, input, compiling, editor, row};

use crate::{compiling, defining, devices, dictionary_rows, editor, interpret, numbers, streams};
use machine_parts::faults::UNKNOWN_CODE;
use machine_parts::parts::{Outcome, Parts};
use plain_rows::{cell_row, control_row, double_row, memory_row, stack_row};

/// Rows 112 to 121.
#[tactic(auto, unfolding(plain_rows::specs::Table::row_in, crate::specs::Table::devices))]
pub fn device_row(parts: &mut Parts, number: u8, _token: u16) -> Outcome
    ensures { (parts.new, result) ≡ devices number parts.old }
{
    match number {
        112 => devices::block(parts),
        113 => devices::buffer(parts),
        114 => devices::update(parts),
        115 => devices::save_buffers(parts),
        116 => devices::flush(parts),
        117 => devices::empty_buffers(parts),
        118 => devices::key(parts),
        119 => devices::expect(parts),
        120 => devices::emit(parts),
        121 => devices::type_out(parts),
        _ => Outcome::Fault(UNKNOWN_CODE),
    }
}

/// Rows 128 to 134.
#[tactic(auto, unfolding(plain_rows::specs::Table::row_in, crate::specs::Table::numbers))]
pub fn number_row(parts: &mut Parts, number: u8, _token: u16) -> Outcome
    ensures { (parts.new, result) ≡ numbers number parts.old }
{
    match number {
        128 => numbers::open_picture(parts),
        129 => numbers::picture_digit(parts),
        130 => numbers::picture_digits(parts),
        131 => numbers::close_picture(parts),
        132 => numbers::hold(parts),
        133 => numbers::sign(parts),
        134 => numbers::convert(parts),
        _ => Outcome::Fault(UNKNOWN_CODE),
    }
}

/// Rows 144 to 157.
#[tactic(auto, unfolding(plain_rows::specs::Table::row_in, crate::specs::Table::input))]
#[inline(never)]
pub fn input_row(parts: &mut Parts, number: u8, _token: u16) -> Outcome
    ensures { (parts.new, result) ≡ input number parts.old }
{
    match number {
        144 => streams::word(parts),
        145 => streams::paren(parts),
        146 => streams::dot_paren(parts),
        147 => dictionary_rows::find(parts),
        148 => dictionary_rows::tick(parts),
        149 => interpret::interpret(parts),
        150 => dictionary_rows::create(parts),
        151 => dictionary_rows::immediate(parts),
        152 => dictionary_rows::forget(parts),
        153 => dictionary_rows::to_body(parts),
        154 => dictionary_rows::here(parts),
        155 => dictionary_rows::pad_row(parts),
        156 => dictionary_rows::vocabulary(parts),
        157 => dictionary_rows::definitions(parts),
        _ => Outcome::Fault(UNKNOWN_CODE),
    }
}

/// Rows 168 to 197.
#[tactic(auto, unfolding(plain_rows::specs::Table::row_in, crate::specs::Table::compiling))]
#[inline(never)]
pub fn compile_row(parts: &mut Parts, number: u8, _token: u16) -> Outcome
    ensures { (parts.new, result) ≡ compiling number parts.old }
{
    match number {
        168 => defining::colon(parts),
        169 => compiling::semicolon(parts),
        170 => compiling::left_bracket(parts),
        171 => compiling::right_bracket(parts),
        172 => compiling::comma(parts),
        173 => compiling::c_comma(parts),
        174 => compiling::allot(parts),
        175 => compiling::literal(parts),
        176 => defining::bracket_tick(parts),
        177 => defining::bracket_compile(parts),
        178 => compiling::compile_does(parts),
        179 => compiling::if_row(parts),
        180 => compiling::else_row(parts),
        181 => compiling::then_row(parts),
        182 => compiling::begin(parts),
        183 => compiling::until(parts),
        184 => compiling::while_row(parts),
        185 => compiling::repeat(parts),
        186 => compiling::again(parts),
        187 => compiling::do_row(parts),
        188 => compiling::loop_row(parts),
        189 => compiling::plus_loop(parts),
        190 => defining::dot_quote(parts),
        191 => defining::abort_quote(parts),
        192 => defining::constant(parts),
        193 => defining::variable(parts),
        194 => compiling::mark_back(parts),
        195 => compiling::resolve_back(parts),
        196 => compiling::mark_forward(parts),
        197 => compiling::resolve_forward(parts),
        _ => Outcome::Fault(UNKNOWN_CODE),
    }
}

/// Rows 200 to 204.
#[tactic(auto, unfolding(plain_rows::specs::Table::row_in, crate::specs::Table::editor))]
#[inline(never)]
pub fn editor_row(parts: &mut Parts, number: u8, _token: u16) -> Outcome
    ensures { (parts.new, result) ≡ editor number parts.old }
{
    match number {
        200 => editor::line(parts),
        201 => editor::put(parts),
        202 => editor::insert(parts),
        203 => editor::delete(parts),
        204 => editor::wipe(parts),
        _ => Outcome::Fault(UNKNOWN_CODE),
    }
}

/// Does the row of `number` for the token `token`. A number that no row has is fault 6.
#[tactic(auto, unfolding(crate::specs::Table::row))]
pub fn row(parts: &mut Parts, number: u8, token: u16) -> Outcome
    ensures { (parts.new, result) ≡ row number token parts.old }
{
    match number {
        0..=31 => control_row(parts, number, token),
        32..=47 => stack_row(parts, number, token),
        48..=79 => cell_row(parts, number, token),
        80..=95 => double_row(parts, number, token),
        96..=111 => memory_row(parts, number, token),
        112..=127 => device_row(parts, number, token),
        128..=143 => number_row(parts, number, token),
        144..=159 => input_row(parts, number, token),
        160..=199 => compile_row(parts, number, token),
        _ => editor_row(parts, number, token),
    }
}
