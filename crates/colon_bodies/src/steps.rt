//! What each word writes.

ghost use Rattle.std.specs.Prelude.{◌≡◌, ◌≢◌, Bool, ℕ, ◌+◌, ◌<◌, ◌≤◌, ◌^◌, List, length, vec_capacity, IsOk, IfErr};
ghost use Rattle.colon_bodies.specs.Tree.{Body};
ghost use Rattle.colon_bodies.specs.Tokens.{NAME, NUMBER, TEXT, IF, ELSE, THEN, BEGIN, UNTIL, AGAIN, WHILE, REPEAT, DO, LOOP, DOUBLE, TICK, COMPILE, DOES, text_control, loop_control};
ghost use Rattle.colon_bodies.specs.Open.{Outer, past};
ghost use Rattle.colon_bodies.specs.Draft.{Calls, Drafting, Steps};
ghost use Rattle.memory.specs.declared.controls.Control.TheVariants as ctl;
ghost use Rattle.colon_bodies.specs.declared.words.Half.{Half};
ghost use Rattle.colon_bodies.specs.declared.words.Half.TheVariants.{Free};
ghost use Rattle.colon_bodies.specs.declared.draft.Mark.{Mark};
ghost use Rattle.colon_bodies.specs.declared.fault.BodyCause.TheVariants.{Memory};

use crate::draft::Mark;
use crate::fault::BodyCause;
use crate::image::{here, lay_cell, patch, pop_mark};

/// A name writes its compilation address.
pub fn lay_name(image: &mut Vec<u8>, w: u16) -> Result<(), BodyCause>
    ensures steps { (rt : ℕ → ℕ) (at : ℕ) (o : Outer) (t : Body) (h : Half) (marks : List Mark) →
        Steps rt at o t h (NAME w) image.old.items marks result image.new.items marks }
    ensures kept { vec_capacity image.old ≤ vec_capacity image.new }
    ensures room { length image.old.items + 2 ≤ vec_capacity image.old → IsOk result }
{
    lay_cell(image, w)
}

/// A number writes (LIT) and its value.
pub fn lay_number(image: &mut Vec<u8>, control: u16, n: u16) -> Result<(), BodyCause>
    ensures steps { (rt : ℕ → ℕ) (at : ℕ) (o : Outer) (t : Body) (marks : List Mark) → Calls rt ctl.Literal control →
        Steps rt at o t Free (NUMBER n) image.old.items marks result image.new.items marks }
    ensures kept { vec_capacity image.old ≤ vec_capacity image.new }
    ensures room { length image.old.items + 4 ≤ vec_capacity image.old → IsOk result }
{
    lay_cell(image, control)?;
    lay_cell(image, n)
}

/// A double writes (LIT) and its low cell, (LIT) and its high cell.
pub fn lay_double(image: &mut Vec<u8>, control: u16, n: u32) -> Result<(), BodyCause>
    ensures steps { (rt : ℕ → ℕ) (at : ℕ) (o : Outer) (t : Body) (marks : List Mark) → Calls rt ctl.Literal control →
        Steps rt at o t Free (DOUBLE n) image.old.items marks result image.new.items marks }
    ensures kept { vec_capacity image.old ≤ vec_capacity image.new }
    ensures room { length image.old.items + 8 ≤ vec_capacity image.old → IsOk result }
{
    lay_cell(image, control)?;
    lay_cell(image, (n % 65536) as u16)?;
    lay_cell(image, control)?;
    lay_cell(image, (n / 65536) as u16)
}

/// `[']` writes (LIT).
pub fn begin_tick(image: &mut Vec<u8>, control: u16) -> Result<(), BodyCause>
    ensures steps { (rt : ℕ → ℕ) (at : ℕ) (o : Outer) (t : Body) (marks : List Mark) → Calls rt ctl.Literal control →
        Steps rt at o t Free TICK image.old.items marks result image.new.items marks }
    ensures kept { vec_capacity image.old ≤ vec_capacity image.new }
    ensures room { length image.old.items + 2 ≤ vec_capacity image.old → IsOk result }
{
    lay_cell(image, control)
}

/// COMPILE writes its own control.
pub fn begin_pair(image: &mut Vec<u8>, control: u16) -> Result<(), BodyCause>
    ensures steps { (rt : ℕ → ℕ) (at : ℕ) (o : Outer) (t : Body) (marks : List Mark) → Calls rt ctl.Compile control →
        Steps rt at o t Free COMPILE image.old.items marks result image.new.items marks }
    ensures kept { vec_capacity image.old ≤ vec_capacity image.new }
    ensures room { length image.old.items + 2 ≤ vec_capacity image.old → IsOk result }
{
    lay_cell(image, control)
}

/// DOES> writes (DOES>), outside structures, once.
pub fn lay_does(
    image: &mut Vec<u8>,
    marks: &Vec<Mark>,
    is_past: bool,
    control: u16,
) -> Result<(), BodyCause>
    ensures steps { (rt : ℕ → ℕ) (at : ℕ) (o : Outer) (t : Body) → Calls rt ctl.Does control → is_past ≡ past o →
        Steps rt at o t Free DOES image.old.items marks.now.items result image.new.items marks.now.items }
    ensures kept { vec_capacity image.old ≤ vec_capacity image.new }
    ensures room { length image.old.items + 2 ≤ vec_capacity image.old → IfErr result (λ e. e ≢ Memory) }
{
    if is_past || !marks.is_empty() {
        return Err(BodyCause::Unbalanced);
    }
    lay_cell(image, control)
}

/// A text writes its control, its count byte and its bytes.
pub fn lay_text(image: &mut Vec<u8>, control: u16, text: &[u8]) -> Result<(), BodyCause>
    requires { length text.now < 256 }
    ensures steps { (rt : ℕ → ℕ) (at : ℕ) (o : Outer) (t : Body) (k : Bool) (marks : List Mark) →
        rt (text_control k) ≡ control →
        Steps rt at o t Free (TEXT k text.now) image.old.items marks result image.new.items marks }
    ensures kept { vec_capacity image.old ≤ vec_capacity image.new }
    ensures room { length image.old.items + (3 + length text.now) ≤ vec_capacity image.old → IsOk result }
{
    lay_cell(image, control)?;
    image.push(text.len() as u8)?;
    image.extend_from_slice(text)?;
    Ok(())
}

/// IF writes ?BRANCH and a cell that waits.
pub fn open_if(image: &mut Vec<u8>, marks: &mut Vec<Mark>, control: u16) -> Result<(), BodyCause>
    ensures steps { (rt : ℕ → ℕ) (at : ℕ) (o : Outer) (t : Body) → Calls rt ctl.ZeroBranch control →
        Steps rt at o t Free IF image.old.items marks.old.items result image.new.items marks.new.items }
    ensures kept { (vec_capacity image.old ≤ vec_capacity image.new) × (vec_capacity marks.old ≤ vec_capacity marks.new) }
    ensures room { length image.old.items + 4 ≤ vec_capacity image.old → length marks.old.items < vec_capacity marks.old → IsOk result }
{
    lay_cell(image, control)?;
    marks.push(Mark::If(image.len()))?;
    lay_cell(image, 0)?;
    Ok(())
}

/// DO writes (DO) and a cell that waits.
pub fn open_do(image: &mut Vec<u8>, marks: &mut Vec<Mark>, control: u16) -> Result<(), BodyCause>
    ensures steps { (rt : ℕ → ℕ) (at : ℕ) (o : Outer) (t : Body) → Calls rt ctl.Do control →
        Steps rt at o t Free DO image.old.items marks.old.items result image.new.items marks.new.items }
    ensures kept { (vec_capacity image.old ≤ vec_capacity image.new) × (vec_capacity marks.old ≤ vec_capacity marks.new) }
    ensures room { length image.old.items + 4 ≤ vec_capacity image.old → length marks.old.items < vec_capacity marks.old → IsOk result }
{
    lay_cell(image, control)?;
    marks.push(Mark::Do(image.len()))?;
    lay_cell(image, 0)?;
    Ok(())
}

/// BEGIN keeps the address after.
pub fn open_begin(image: &Vec<u8>, marks: &mut Vec<Mark>, at: u16) -> Result<(), BodyCause>
    requires { at + length image.now.items < 2 ^ 16 }
    ensures steps { (rt : ℕ → ℕ) (o : Outer) (t : Body) →
        Steps rt at o t Free BEGIN image.now.items marks.old.items result image.now.items marks.new.items }
    ensures kept { vec_capacity marks.old ≤ vec_capacity marks.new }
    ensures room { length marks.old.items < vec_capacity marks.old → IsOk result }
{
    marks.push(Mark::Begin(here(at, image)))?;
    Ok(())
}

/// ELSE writes BRANCH and a cell that waits, and resolves IF's.
pub fn switch_else(
    image: &mut Vec<u8>,
    marks: &mut Vec<Mark>,
    at: u16,
    control: u16,
) -> Result<(), BodyCause>
    requires drafting { Drafting at image.old.items marks.old.items }
    requires room { at + length image.old.items + 4 < 2 ^ 16 }
    ensures steps { (rt : ℕ → ℕ) (o : Outer) (t : Body) → Calls rt ctl.Branch control →
        Steps rt at o t Free ELSE image.old.items marks.old.items result image.new.items marks.new.items }
    ensures kept { (vec_capacity image.old ≤ vec_capacity image.new) × (vec_capacity marks.old ≤ vec_capacity marks.new) }
    ensures room { length image.old.items + 4 ≤ vec_capacity image.old → IfErr result (λ e. e ≢ Memory) }
{
    match pop_mark(marks) {
        Some(Mark::If(place)) => {
            lay_cell(image, control)?;
            marks.push(Mark::Else(image.len()))?;
            lay_cell(image, 0)?;
            patch(image, place, here(at, image));
            Ok(())
        }
        _ => Err(BodyCause::Unbalanced),
    }
}

/// THEN resolves IF's cell, or ELSE's.
pub fn close_then(image: &mut Vec<u8>, marks: &mut Vec<Mark>, at: u16) -> Result<(), BodyCause>
    requires drafting { Drafting at image.old.items marks.old.items }
    requires room { at + length image.old.items < 2 ^ 16 }
    ensures steps { (rt : ℕ → ℕ) (o : Outer) (t : Body) →
        Steps rt at o t Free THEN image.old.items marks.old.items result image.new.items marks.new.items }
    ensures kept { (vec_capacity image.old ≤ vec_capacity image.new) × (vec_capacity marks.old ≤ vec_capacity marks.new) }
    ensures room { IfErr result (λ e. e ≢ Memory) }
{
    match pop_mark(marks) {
        Some(Mark::If(place)) => {
            patch(image, place, here(at, image));
            Ok(())
        }
        Some(Mark::Else(place)) => {
            patch(image, place, here(at, image));
            Ok(())
        }
        _ => Err(BodyCause::Unbalanced),
    }
}

/// UNTIL and AGAIN write ?BRANCH or BRANCH, and the address of BEGIN.
pub fn close_back(image: &mut Vec<u8>, marks: &mut Vec<Mark>, control: u16) -> Result<(), BodyCause>
    ensures until { (rt : ℕ → ℕ) (at : ℕ) (o : Outer) (t : Body) → Calls rt ctl.ZeroBranch control →
        Steps rt at o t Free UNTIL image.old.items marks.old.items result image.new.items marks.new.items }
    ensures again { (rt : ℕ → ℕ) (at : ℕ) (o : Outer) (t : Body) → Calls rt ctl.Branch control →
        Steps rt at o t Free AGAIN image.old.items marks.old.items result image.new.items marks.new.items }
    ensures kept { (vec_capacity image.old ≤ vec_capacity image.new) × (vec_capacity marks.old ≤ vec_capacity marks.new) }
    ensures room { length image.old.items + 4 ≤ vec_capacity image.old → IfErr result (λ e. e ≢ Memory) }
{
    match pop_mark(marks) {
        Some(Mark::Begin(target)) => {
            lay_cell(image, control)?;
            lay_cell(image, target)
        }
        _ => Err(BodyCause::Unbalanced),
    }
}

/// WHILE writes ?BRANCH and a cell that waits.
pub fn test_while(image: &mut Vec<u8>, marks: &mut Vec<Mark>, control: u16) -> Result<(), BodyCause>
    ensures steps { (rt : ℕ → ℕ) (at : ℕ) (o : Outer) (t : Body) → Calls rt ctl.ZeroBranch control →
        Steps rt at o t Free WHILE image.old.items marks.old.items result image.new.items marks.new.items }
    ensures kept { (vec_capacity image.old ≤ vec_capacity image.new) × (vec_capacity marks.old ≤ vec_capacity marks.new) }
    ensures room { length image.old.items + 4 ≤ vec_capacity image.old → IfErr result (λ e. e ≢ Memory) }
{
    match pop_mark(marks) {
        Some(Mark::Begin(target)) => {
            lay_cell(image, control)?;
            marks.push(Mark::While(target, image.len()))?;
            lay_cell(image, 0)?;
            Ok(())
        }
        _ => Err(BodyCause::Unbalanced),
    }
}

/// REPEAT writes BRANCH and the address of BEGIN, and resolves WHILE's cell.
pub fn close_repeat(
    image: &mut Vec<u8>,
    marks: &mut Vec<Mark>,
    at: u16,
    control: u16,
) -> Result<(), BodyCause>
    requires drafting { Drafting at image.old.items marks.old.items }
    requires room { at + length image.old.items + 4 < 2 ^ 16 }
    ensures steps { (rt : ℕ → ℕ) (o : Outer) (t : Body) → Calls rt ctl.Branch control →
        Steps rt at o t Free REPEAT image.old.items marks.old.items result image.new.items marks.new.items }
    ensures kept { (vec_capacity image.old ≤ vec_capacity image.new) × (vec_capacity marks.old ≤ vec_capacity marks.new) }
    ensures room { length image.old.items + 4 ≤ vec_capacity image.old → IfErr result (λ e. e ≢ Memory) }
{
    match pop_mark(marks) {
        Some(Mark::While(target, place)) => {
            lay_cell(image, control)?;
            lay_cell(image, target)?;
            patch(image, place, here(at, image));
            Ok(())
        }
        _ => Err(BodyCause::Unbalanced),
    }
}

/// The address after the cell at a place.
fn body_of(at: u16, place: usize, image: &Vec<u8>) -> u16
    requires within { place + 1 < length image.now.items }
    requires room { at + length image.now.items + 1 < 2 ^ 16 }
    ensures { result ≡ at + place + 2 }
{
    at + place as u16 + 2
}

/// LOOP and +LOOP write their control and the address of the body, and resolve DO's cell.
pub fn close_loop(
    image: &mut Vec<u8>,
    marks: &mut Vec<Mark>,
    at: u16,
    control: u16,
) -> Result<(), BodyCause>
    requires drafting { Drafting at image.old.items marks.old.items }
    requires room { at + length image.old.items + 4 < 2 ^ 16 }
    ensures steps { (rt : ℕ → ℕ) (o : Outer) (t : Body) (k : Bool) → rt (loop_control k) ≡ control →
        Steps rt at o t Free (LOOP k) image.old.items marks.old.items result image.new.items marks.new.items }
    ensures kept { (vec_capacity image.old ≤ vec_capacity image.new) × (vec_capacity marks.old ≤ vec_capacity marks.new) }
    ensures room { length image.old.items + 4 ≤ vec_capacity image.old → IfErr result (λ e. e ≢ Memory) }
{
    match pop_mark(marks) {
        Some(Mark::Do(place)) => {
            lay_cell(image, control)?;
            lay_cell(image, body_of(at, place, image))?;
            patch(image, place, here(at, image));
            Ok(())
        }
        _ => Err(BodyCause::Unbalanced),
    }
}
