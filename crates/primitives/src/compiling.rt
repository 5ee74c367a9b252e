//! Rows 169 to 197: the words that write code, except those that take names or texts out of the stream.

#![tactic(auto, using(machine_parts::proofs::Takes::takes, name_index::proofs::Writes::writes))]

ghost use Rattle.std.specs.Prelude.{◌≡◌, ◌≤◌, ◌++◌, length, drop};
ghost use Rattle.primitives.specs.Compiling.{compiles, resolves, ahead, semicolon, left_bracket, right_bracket, comma, c_comma, allot, literal, compile_does, if_row, else_row, then_row, begin, until, while_row, repeat, again, do_row, loop_row, plus_loop, mark_back, resolve_back, mark_forward, resolve_forward};

use crate::writing::end_definition;
use compiling_words::{Control, control_code, literal_code, runtime};
use machine_parts::faults::{DATA_OVERFLOW, DATA_UNDERFLOW, DICTIONARY_FULL};
use machine_parts::parts::{Outcome, Parts};
use machine_parts::{leaves, top_first};
use memory::cell_bytes;
use memory::system::{DP, STATE};

/// Writes bytes, and puts the cells `given`, the new top first, in place of the `taken` top cells.
#[tactic(auto, unfolding(machine_parts::specs::Row::room, crate::specs::Compiling::compiles))]
pub fn compile(parts: &mut Parts, bytes: &[u8], taken: usize, given: &[u16]) -> Outcome
    requires { taken ≤ length parts.old.values }
    ensures { (parts.new, result) ≡ compiles parts.old bytes.now (given.now ++ drop taken parts.old.values) }
{
    if !parts.has_room(bytes.len()) {
        return Outcome::Fault(DICTIONARY_FULL);
    }
    if parts.values.replace(taken, given).is_err() {
        return Outcome::Fault(DATA_OVERFLOW);
    }
    let here = parts.memory.cell(DP);
    parts.lay_at(here, bytes);
    Outcome::Done
}

/// The same, and then the cell at `a` is the new HERE.
#[tactic(auto, unfolding(machine_parts::specs::Row::room, crate::specs::Compiling::resolves))]
fn resolve(parts: &mut Parts, bytes: &[u8], a: u16, taken: usize, given: &[u16]) -> Outcome
    requires { taken ≤ length parts.old.values }
    ensures { (parts.new, result) ≡ resolves parts.old bytes.now a (given.now ++ drop taken parts.old.values) }
{
    if !parts.has_room(bytes.len()) {
        return Outcome::Fault(DICTIONARY_FULL);
    }
    if parts.values.replace(taken, given).is_err() {
        return Outcome::Fault(DATA_OVERFLOW);
    }
    let here = parts.memory.cell(DP);
    parts.lay_at(here, bytes);
    parts.set_cell(a, here.wrapping_add(bytes.len() as u16));
    Outcome::Done
}

/// The place `n` bytes after HERE.
fn ahead(parts: &Parts, n: u16) -> u16
    ensures { result ≡ ahead parts.now n }
{
    parts.memory.cell(DP).wrapping_add(n)
}

/// 169 `;` ( -- )
pub fn semicolon(parts: &mut Parts) -> Outcome
    ensures { (parts.new, result) ≡ semicolon parts.old }
{
    match end_definition(parts) {
        Ok(()) => Outcome::Done,
        Err(_) => Outcome::Fault(DICTIONARY_FULL),
    }
}

/// 170 `[` ( -- )
pub fn left_bracket(parts: &mut Parts) -> Outcome
    ensures { (parts.new, result) ≡ left_bracket parts.old }
{
    parts.set_cell(STATE, 0);
    Outcome::Done
}

/// 171 `]` ( -- )
pub fn right_bracket(parts: &mut Parts) -> Outcome
    ensures { (parts.new, result) ≡ right_bracket parts.old }
{
    parts.set_cell(STATE, 65535);
    Outcome::Done
}

/// 172 `,` ( x -- )
pub fn comma(parts: &mut Parts) -> Outcome
    ensures { (parts.new, result) ≡ comma parts.old }
{
    let Some(x) = parts.values.pick(0) else {
        return Outcome::Fault(DATA_UNDERFLOW);
    };
    compile(parts, &cell_bytes(x), 1, &[])
}

/// 173 `C,` ( c -- )
pub fn c_comma(parts: &mut Parts) -> Outcome
    ensures { (parts.new, result) ≡ c_comma parts.old }
{
    let Some(c) = parts.values.pick(0) else {
        return Outcome::Fault(DATA_UNDERFLOW);
    };
    compile(parts, &[(c % 256) as u8], 1, &[])
}

/// 174 `ALLOT` ( n -- )
pub fn allot(parts: &mut Parts) -> Outcome
    ensures { (parts.new, result) ≡ allot parts.old }
{
    let Some(n) = parts.values.pick(0) else {
        return Outcome::Fault(DATA_UNDERFLOW);
    };
    if compiling_words::allot(parts.memory, n, parts.limit).is_err() {
        return Outcome::Fault(DICTIONARY_FULL);
    }
    parts.values.lower(1);
    Outcome::Done
}

/// 175 `LITERAL` ( x -- )
pub fn literal(parts: &mut Parts) -> Outcome
    ensures { (parts.new, result) ≡ literal parts.old }
{
    let Some(x) = parts.values.pick(0) else {
        return Outcome::Fault(DATA_UNDERFLOW);
    };
    let code = literal_code(parts.memory, x);
    compile(parts, &code, 1, &[])
}

/// 178 `DOES>` ( -- )
pub fn compile_does(parts: &mut Parts) -> Outcome
    ensures { (parts.new, result) ≡ compile_does parts.old }
{
    let code = cell_bytes(runtime(parts.memory, Control::Does));
    compile(parts, &code, 0, &[])
}

/// 179 `IF` ( -- a )
pub fn if_row(parts: &mut Parts) -> Outcome
    ensures { (parts.new, result) ≡ if_row parts.old }
{
    let code = control_code(parts.memory, Control::ZeroBranch, 0);
    let a = ahead(parts, 2);
    compile(parts, &code, 0, &[a])
}

/// 180 `ELSE` ( a -- a2 )
pub fn else_row(parts: &mut Parts) -> Outcome
    ensures { (parts.new, result) ≡ else_row parts.old }
{
    let Some(a) = parts.values.pick(0) else {
        return Outcome::Fault(DATA_UNDERFLOW);
    };
    let code = control_code(parts.memory, Control::Branch, 0);
    let a2 = ahead(parts, 2);
    resolve(parts, &code, a, 1, &[a2])
}

/// 181 `THEN` ( a -- )
pub fn then_row(parts: &mut Parts) -> Outcome
    ensures { (parts.new, result) ≡ then_row parts.old }
{
    resolve_forward(parts)
}

/// 182 `BEGIN` ( -- a )
pub fn begin(parts: &mut Parts) -> Outcome
    ensures { (parts.new, result) ≡ begin parts.old }
{
    mark_back(parts)
}

/// 183 `UNTIL` ( a -- )
pub fn until(parts: &mut Parts) -> Outcome
    ensures { (parts.new, result) ≡ until parts.old }
{
    let Some(a) = parts.values.pick(0) else {
        return Outcome::Fault(DATA_UNDERFLOW);
    };
    let code = control_code(parts.memory, Control::ZeroBranch, a);
    compile(parts, &code, 1, &[])
}

/// 184 `WHILE` ( -- a )
pub fn while_row(parts: &mut Parts) -> Outcome
    ensures { (parts.new, result) ≡ while_row parts.old }
{
    if_row(parts)
}

/// 185 `REPEAT` ( a b -- )
pub fn repeat(parts: &mut Parts) -> Outcome
    ensures { (parts.new, result) ≡ repeat parts.old }
{
    let Some((a, b)) = parts.values.top2() else {
        return Outcome::Fault(DATA_UNDERFLOW);
    };
    let code = control_code(parts.memory, Control::Branch, a);
    resolve(parts, &code, b, 2, &[])
}

/// 186 `AGAIN` ( a -- )
pub fn again(parts: &mut Parts) -> Outcome
    ensures { (parts.new, result) ≡ again parts.old }
{
    let Some(a) = parts.values.pick(0) else {
        return Outcome::Fault(DATA_UNDERFLOW);
    };
    let code = control_code(parts.memory, Control::Branch, a);
    compile(parts, &code, 1, &[])
}

/// 187 `DO` ( -- a b )
pub fn do_row(parts: &mut Parts) -> Outcome
    ensures { (parts.new, result) ≡ do_row parts.old }
{
    let code = control_code(parts.memory, Control::Do, 0);
    let a = ahead(parts, 2);
    let b = ahead(parts, 4);
    compile(parts, &code, 0, &top_first!([] a, b))
}

/// 188 `LOOP` ( a b -- )
pub fn loop_row(parts: &mut Parts) -> Outcome
    ensures { (parts.new, result) ≡ loop_row parts.old }
{
    let Some((a, b)) = parts.values.top2() else {
        return Outcome::Fault(DATA_UNDERFLOW);
    };
    let code = control_code(parts.memory, Control::Loop, b);
    resolve(parts, &code, a, 2, &[])
}

/// 189 `+LOOP` ( a b -- )
pub fn plus_loop(parts: &mut Parts) -> Outcome
    ensures { (parts.new, result) ≡ plus_loop parts.old }
{
    let Some((a, b)) = parts.values.top2() else {
        return Outcome::Fault(DATA_UNDERFLOW);
    };
    let code = control_code(parts.memory, Control::PlusLoop, b);
    resolve(parts, &code, a, 2, &[])
}

/// 194 `<MARK` ( -- a )
pub fn mark_back(parts: &mut Parts) -> Outcome
    ensures { (parts.new, result) ≡ mark_back parts.old }
{
    let a = compiling_words::mark_back(parts.memory);
    leaves!(parts, 0, [a])
}

/// 195 `<RESOLVE` ( a -- )
pub fn resolve_back(parts: &mut Parts) -> Outcome
    ensures { (parts.new, result) ≡ resolve_back parts.old }
{
    let Some(a) = parts.values.pick(0) else {
        return Outcome::Fault(DATA_UNDERFLOW);
    };
    compile(parts, &cell_bytes(a), 1, &[])
}

/// 196 `>MARK` ( -- a )
pub fn mark_forward(parts: &mut Parts) -> Outcome
    ensures { (parts.new, result) ≡ mark_forward parts.old }
{
    let a = parts.memory.cell(DP);
    compile(parts, &cell_bytes(0), 0, &[a])
}

/// 197 `>RESOLVE` ( a -- )
pub fn resolve_forward(parts: &mut Parts) -> Outcome
    ensures { (parts.new, result) ≡ resolve_forward parts.old }
{
    let Some(a) = parts.values.pick(0) else {
        return Outcome::Fault(DATA_UNDERFLOW);
    };
    compiling_words::resolve_forward(parts.memory, a);
    parts.index.note(a, 2);
    parts.values.lower(1);
    Outcome::Done
}
