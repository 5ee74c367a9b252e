//! The one pass over the words of a body.

ghost use Rattle.std.specs.Prelude.{◌≡◌, ◌≢◌, ℕ, IfOk, IfErr, map, ◌+◌, ◌<◌, ◌≤◌, ◌⊎◌, ◌^◌, length, slice_index, vec_capacity};
ghost use Rattle.colon_bodies.specs.Tree.{Body};
ghost use Rattle.colon_bodies.specs.Tokens.{SEMI, IsShort, laid_by, laid};
ghost use Rattle.colon_bodies.specs.Faults.{IsFault};
ghost use Rattle.colon_bodies.specs.Open.{Outer, past, open_depth};
ghost use Rattle.colon_bodies.specs.Draft.{token, Calls, Completes, Drafts, Drafting, Ended, Compiled, KeepsRoom, Lays, Steps, Taken, WithRoom, jump_by};
ghost use Rattle.memory.specs.declared.controls.Control.TheVariants as ctl;
ghost use Rattle.colon_bodies.specs.declared.words.Half.{Half};
ghost use Rattle.colon_bodies.specs.declared.words.Half.TheVariants.{Free};
ghost use Rattle.colon_bodies.specs.declared.fault.BodyCause.TheVariants.{Memory};

use crate::controls::{cell_of, loop_control, text_control};
use crate::draft::{Draft, Mark};
use crate::fault::{BodyCause, BodyFault};
use crate::image::lay_cell;
use crate::rules::{
    half_behind, is_all_closed, is_free, is_known, is_over, is_second, is_semicolon, is_short,
    is_suited, is_too_deep, past_behind,
};
use crate::steps::{
    begin_pair, begin_tick, close_back, close_loop, close_repeat, close_then, lay_does, lay_double,
    lay_name, lay_number, lay_text, open_begin, open_do, open_if, switch_else, test_while,
};
use crate::words::{BodyWord, Half};
use memory::controls::Control;

/// Writes what one word writes if nothing is half read.
fn step(
    image: &mut Vec<u8>,
    marks: &mut Vec<Mark>,
    is_past: bool,
    word: BodyWord,
    at: u16,
    runtime: &[u16],
) -> Result<(), BodyCause>
    requires drafting { Drafting at image.old.items marks.old.items }
    requires room { at + length image.old.items + jump_by (token word) < 2 ^ 16 }
    requires controls { 28 ≤ length runtime.now }
    requires short { IsShort (token word) }
    ensures steps { (o : Outer) (t : Body) → is_past ≡ past o →
        Steps (slice_index runtime.now) at o t Free (token word.entry)
        image.old.items marks.old.items result image.new.items marks.new.items }
    ensures kept { (vec_capacity image.old ≤ vec_capacity image.new) × (vec_capacity marks.old ≤ vec_capacity marks.new) }
    ensures room { WithRoom (token word.entry) (length image.old.items) (vec_capacity image.old)
        (length marks.old.items < vec_capacity marks.old) (IfErr result (λ e. e ≢ Memory)) }
{
    match word {
        BodyWord::Name(w) => lay_name(image, w),
        BodyWord::Number(n) => lay_number(image, cell_of(runtime, Control::Literal), n),
        BodyWord::Double(n) => lay_double(image, cell_of(runtime, Control::Literal), n),
        BodyWord::Text(aborts, text) => {
            lay_text(image, cell_of(runtime, text_control(aborts)), text)
        }
        BodyWord::Tick => begin_tick(image, cell_of(runtime, Control::Literal)),
        BodyWord::Force => Ok(()),
        BodyWord::Compile => begin_pair(image, cell_of(runtime, Control::Compile)),
        BodyWord::If => open_if(image, marks, cell_of(runtime, Control::ZeroBranch)),
        BodyWord::Else => switch_else(image, marks, at, cell_of(runtime, Control::Branch)),
        BodyWord::Then => close_then(image, marks, at),
        BodyWord::Begin => open_begin(image, marks, at),
        BodyWord::Until => close_back(image, marks, cell_of(runtime, Control::ZeroBranch)),
        BodyWord::Again => close_back(image, marks, cell_of(runtime, Control::Branch)),
        BodyWord::While => test_while(image, marks, cell_of(runtime, Control::ZeroBranch)),
        BodyWord::Repeat => close_repeat(image, marks, at, cell_of(runtime, Control::Branch)),
        BodyWord::Do => open_do(image, marks, cell_of(runtime, Control::Do)),
        BodyWord::Loop(plus) => {
            close_loop(image, marks, at, cell_of(runtime, loop_control(plus)))
        }
        BodyWord::Does => lay_does(image, marks, is_past, cell_of(runtime, Control::Does)),
        BodyWord::Semicolon => Err(BodyCause::Unbalanced),
    }
}

/// Writes what one word writes after what is half read.
fn complete_half(image: &mut Vec<u8>, word: BodyWord) -> Result<(), BodyCause>
    ensures steps { Completes (token word.entry) image.old.items result image.new.items }
    ensures kept { vec_capacity image.old ≤ vec_capacity image.new }
    ensures room { length image.old.items + laid_by (token word.entry) ≤ vec_capacity image.old → IfErr result (λ e. e ≢ Memory) }
{
    match word {
        BodyWord::Name(w) => lay_name(image, w),
        _ => Ok(()),
    }
}

/// Writes what one word writes.
fn lay(d: &mut Draft, word: BodyWord, at: u16, runtime: &[u16]) -> Result<(), BodyCause>
    requires drafting { Drafting at d.old.image.items d.old.marks.items }
    requires room { at + length d.old.image.items + jump_by (token word) < 2 ^ 16 }
    requires controls { 28 ≤ length runtime.now }
    requires short { IsShort (token word) }
    ensures taken { Lays (slice_index runtime.now) at (token word.entry) d.old result d.new }
    ensures half { (d.new.half ≡ d.old.half) × (d.new.is_past ≡ d.old.is_past) }
    ensures kept { KeepsRoom d.old d.new }
    ensures room { WithRoom (token word.entry) (length d.old.image.items) (vec_capacity d.old.image)
        (length d.old.marks.items < vec_capacity d.old.marks) (IfErr result (λ e. e ≢ Memory)) }
{
    if is_free(d.half) {
        step(&mut d.image, &mut d.marks, d.is_past, word, at, runtime)?;
    } else {
        complete_half(&mut d.image, word)?;
    }
    Ok(())
}

/// Takes one more word; if it is refused, nothing of the draft is of use any more but its room.
pub fn take_word(
    d: &mut Draft,
    word: BodyWord,
    at: u16,
    limit: u16,
    runtime: &[u16],
) -> Result<(), BodyCause>
    requires drafting { Drafting at d.old.image.items d.old.marks.items }
    requires room { at + length d.old.image.items ≤ limit }
    requires jump { at + length d.old.image.items + jump_by (token word) < 2 ^ 16 }
    requires controls { 28 ≤ length runtime.now }
    requires inside { token word ≢ SEMI }
    ensures taken { (o : Outer) (t : Body) (h : Half) → Drafts (slice_index runtime.now) at o t h d.old → open_depth o t ≤ 64 →
        Taken (slice_index runtime.now) at limit o t h (token word.entry) result d.new }
    ensures kept { KeepsRoom d.old d.new }
    ensures room { WithRoom (token word.entry) (length d.old.image.items) (vec_capacity d.old.image)
        (length d.old.marks.items < 64 → length d.old.marks.items < vec_capacity d.old.marks) (IfErr result (λ e. e ≢ Memory)) }
{
    if !is_suited(d.half, word) {
        return Err(BodyCause::Misplaced);
    }
    if is_second(word, d.is_past) {
        return Err(BodyCause::Misplaced);
    }
    if is_too_deep(word, &d.marks) {
        return Err(BodyCause::Misplaced);
    }
    if !is_short(word) {
        if !is_known(word, runtime) {
            return Err(BodyCause::Unknown);
        }
        return Err(BodyCause::BadName);
    }
    lay(d, word, at, runtime)?;
    if !is_known(word, runtime) {
        return Err(BodyCause::Unknown);
    }
    if is_over(&d.image, at, limit) {
        return Err(BodyCause::Full);
    }
    d.half = half_behind(d.half, word);
    d.is_past = past_behind(d.is_past, word);
    Ok(())
}

/// Takes the last word: the draft's bytes are then those of the definition; if it is refused, nothing of the draft is of use any more but its room.
pub fn finish(d: &mut Draft, at: u16, limit: u16, control: u16) -> Result<(), BodyCause>
    ensures ended { (rt : ℕ → ℕ) (o : Outer) (t : Body) (h : Half) → Calls rt ctl.Exit control → Drafts rt at o t h d.old →
        open_depth o t ≤ 64 → Ended rt at limit o t h result d.new.image.items }
    ensures kept { KeepsRoom d.old d.new }
    ensures room { length d.old.image.items + 2 ≤ vec_capacity d.old.image → IfErr result (λ e. e ≢ Memory) }
{
    if !is_suited(d.half, BodyWord::Semicolon) {
        return Err(BodyCause::Misplaced);
    }
    if !is_all_closed(&d.marks) {
        return Err(BodyCause::Unbalanced);
    }
    if control == 0 {
        return Err(BodyCause::Unknown);
    }
    lay_cell(&mut d.image, control)?;
    if is_over(&d.image, at, limit) {
        return Err(BodyCause::Full);
    }
    Ok(())
}

/// Compiles the first definition of a source into the draft, which is emptied first, and answers how many words it has; or the first fault.
/// Memory is never lacking if the draft has room for the bytes of all words, and for 64 open structures or one for each word.
pub fn compile(
    d: &mut Draft,
    words: &[BodyWord],
    runtime: &[u16],
    at: u16,
    limit: u16,
) -> Result<usize, BodyFault>
    requires jumps { (limit ≤ 65530) ⊎ (at + laid (map token words.now) < 2 ^ 16) }
    requires start { at ≤ limit }
    requires controls { 28 ≤ length runtime.now }
    ensures compiled { IfOk result (λ used.
        Compiled (slice_index runtime.now) at limit (map token words.now) d.new.image.items used) }
    ensures refused { IfErr result (λ e.
        IsFault (slice_index runtime.now) at limit (map token words.now) e.place e.cause) }
    ensures kept { KeepsRoom d.old d.new }
    ensures room { laid (map token words.now) ≤ vec_capacity d.old.image → length words.now ≤ vec_capacity d.old.marks →
        IfErr result (λ e. e.cause ≢ Memory) }
    ensures shallow { laid (map token words.now) ≤ vec_capacity d.old.image → 64 ≤ vec_capacity d.old.marks →
        IfErr result (λ e. e.cause ≢ Memory) }
{
    d.clear();
    for (i, word) in words.iter().enumerate() {
        if is_semicolon(*word) {
            return match finish(d, at, limit, cell_of(runtime, Control::Exit)) {
                Ok(()) => Ok(i + 1),
                Err(cause) => Err(BodyFault { place: i, cause }),
            };
        }
        if let Err(cause) = take_word(d, *word, at, limit, runtime) {
            return Err(BodyFault { place: i, cause });
        }
    }
    Err(BodyFault {
        place: words.len(),
        cause: BodyCause::EndsInside,
    })
}
