//! The rows by number. Numbers that no row has are fault 6.

ghost use Rattle.std.specs.Prelude.{◌≡◌};
ghost use Rattle.plain_rows.specs.Table.{control, stack, cells, memory, doubles};

use crate::{cell, control, double, memory_rows, stack};
use machine_parts::faults::UNKNOWN_CODE;
use machine_parts::parts::{Outcome, Parts};

/// Rows 1 to 27.
#[tactic(auto, unfolding(crate::specs::Table::row_in, crate::specs::Table::control))]
pub fn control_row(parts: &mut Parts, number: u8, token: u16) -> Outcome
    ensures { (parts.new, result) ≡ control number token parts.old }
{
    match number {
        1 => control::colon_code(parts, token),
        2 => control::variable_code(parts, token),
        3 => control::constant_code(parts, token),
        4 => control::vocabulary_code(parts, token),
        5 => control::exit(parts),
        6 => control::lit(parts),
        7 => control::branch(parts),
        8 => control::zero_branch(parts),
        9 => control::begin_loop(parts),
        10 => control::next_loop(parts),
        11 => control::step_loop(parts),
        12 => control::leave_loop(parts),
        13 => control::index(parts),
        14 => control::outer_index(parts),
        15 => control::execute(parts),
        16 => control::show_inline(parts),
        17 => control::abort_inline(parts),
        18 => control::run_does(parts),
        19 => control::compile(parts),
        20 => control::to_r(parts),
        21 => control::from_r(parts),
        22 => control::r_fetch(parts),
        23 => control::bye(parts),
        24 => control::r_clear(parts),
        25 => control::s_clear(parts),
        26 => control::raise(parts),
        27 => control::noop(parts),
        _ => Outcome::Fault(UNKNOWN_CODE),
    }
}

/// Rows 32 to 45.
#[tactic(auto, unfolding(crate::specs::Table::row_in, crate::specs::Table::stack))]
pub fn stack_row(parts: &mut Parts, number: u8, _token: u16) -> Outcome
    ensures { (parts.new, result) ≡ stack number parts.old }
{
    match number {
        32 => stack::dup(parts),
        33 => stack::drop_cell(parts),
        34 => stack::swap(parts),
        35 => stack::over(parts),
        36 => stack::rot(parts),
        37 => stack::pick(parts),
        38 => stack::roll(parts),
        39 => stack::question_dup(parts),
        40 => stack::depth(parts),
        41 => stack::two_drop(parts),
        42 => stack::two_dup(parts),
        43 => stack::two_over(parts),
        44 => stack::two_rot(parts),
        45 => stack::two_swap(parts),
        _ => Outcome::Fault(UNKNOWN_CODE),
    }
}

/// Rows 48 to 79.
#[tactic(auto, unfolding(crate::specs::Table::row_in, crate::specs::Table::cells))]
pub fn cell_row(parts: &mut Parts, number: u8, _token: u16) -> Outcome
    ensures { (parts.new, result) ≡ cells number parts.old }
{
    match number {
        48 => cell::plus(parts),
        49 => cell::minus(parts),
        50 => cell::times(parts),
        51 => cell::slash(parts),
        52 => cell::modulo(parts),
        53 => cell::slash_mod(parts),
        54 => cell::times_slash(parts),
        55 => cell::times_slash_mod(parts),
        56 => cell::one_plus(parts),
        57 => cell::one_minus(parts),
        58 => cell::two_plus(parts),
        59 => cell::two_minus(parts),
        60 => cell::two_times(parts),
        61 => cell::two_slash(parts),
        62 => cell::negate(parts),
        63 => cell::absolute(parts),
        64 => cell::min(parts),
        65 => cell::max(parts),
        66 => cell::and(parts),
        67 => cell::or(parts),
        68 => cell::xor(parts),
        69 => cell::turned(parts),
        70 => cell::equals(parts),
        71 => cell::differs(parts),
        72 => cell::less(parts),
        73 => cell::greater(parts),
        74 => cell::u_less(parts),
        75 => cell::zero_equals(parts),
        76 => cell::zero_less(parts),
        77 => cell::zero_greater(parts),
        78 => cell::um_times(parts),
        79 => cell::um_slash_mod(parts),
        _ => Outcome::Fault(UNKNOWN_CODE),
    }
}

/// Rows 80 to 90.
#[tactic(auto, unfolding(crate::specs::Table::row_in, crate::specs::Table::doubles))]
pub fn double_row(parts: &mut Parts, number: u8, _token: u16) -> Outcome
    ensures { (parts.new, result) ≡ doubles number parts.old }
{
    match number {
        80 => double::d_plus(parts),
        81 => double::d_minus(parts),
        82 => double::d_negate(parts),
        83 => double::d_absolute(parts),
        84 => double::d_two_slash(parts),
        85 => double::d_min(parts),
        86 => double::d_max(parts),
        87 => double::d_equals(parts),
        88 => double::d_zero_equals(parts),
        89 => double::d_less(parts),
        90 => double::du_less(parts),
        _ => Outcome::Fault(UNKNOWN_CODE),
    }
}

/// Rows 96 to 107.
#[tactic(auto, unfolding(crate::specs::Table::row_in, crate::specs::Table::memory))]
pub fn memory_row(parts: &mut Parts, number: u8, _token: u16) -> Outcome
    ensures { (parts.new, result) ≡ memory number parts.old }
{
    match number {
        96 => memory_rows::fetch(parts),
        97 => memory_rows::store(parts),
        98 => memory_rows::c_fetch(parts),
        99 => memory_rows::c_store(parts),
        100 => memory_rows::plus_store(parts),
        101 => memory_rows::two_fetch(parts),
        102 => memory_rows::two_store(parts),
        103 => memory_rows::cmove(parts),
        104 => memory_rows::cmove_down(parts),
        105 => memory_rows::fill(parts),
        106 => memory_rows::count(parts),
        107 => memory_rows::dash_trailing(parts),
        _ => Outcome::Fault(UNKNOWN_CODE),
    }
}
