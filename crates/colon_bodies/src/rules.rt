//! Which words may be where.

ghost use Rattle.std.specs.Prelude.{◌≡◌, ◌≢◌, true, false, ◌↔◌, IsTrue, ◌+◌, ◌<◌, ◌≤◌, length, slice_index};
ghost use Rattle.std.specs.Option.{option_map};
ghost use Rattle.memory.specs.Controls.{number_of};
ghost use Rattle.colon_bodies.specs.Tokens.{DOES, SEMI, IsShort, control_written};
ghost use Rattle.colon_bodies.specs.Rules.{IsKnown, HasCell, suits, half_after};
ghost use Rattle.colon_bodies.specs.Open.{past_after};
ghost use Rattle.colon_bodies.specs.Draft.{token, opener};
ghost use Rattle.colon_bodies.specs.declared.words.Half.{Half};
ghost use Rattle.colon_bodies.specs.declared.words.Half.TheVariants.{Free};

use crate::controls::{cell_of, loop_control, text_control};
use crate::draft::Mark;
use crate::words::{BodyWord, Half};
use memory::controls::Control;

/// Whether nothing is half read.
pub fn is_free(half: Half) -> bool
    ensures yes { IsTrue result → half ≡ Free }
    ensures no { result ≡ false → half ≢ Free }
{
    matches!(half, Half::Free)
}

/// Whether a word may come after what is half read.
pub fn is_suited(half: Half, word: BodyWord) -> bool
    ensures { result ≡ suits half (token word.entry) }
{
    match (half, word) {
        (Half::Free, _) => true,
        (_, BodyWord::Name(_)) => true,
        (Half::Compiling, BodyWord::Force) => true,
        _ => false,
    }
}

/// What a word leaves half read.
pub fn half_behind(half: Half, word: BodyWord) -> Half
    ensures { result ≡ half_after half (token word.entry) }
{
    match (half, word) {
        (Half::Free, BodyWord::Tick) => Half::Ticked,
        (Half::Free, BodyWord::Force) => Half::Forced,
        (Half::Free, BodyWord::Compile) => Half::Compiling,
        (Half::Compiling, BodyWord::Force) => Half::Both,
        _ => Half::Free,
    }
}

/// Whether the word is DOES>.
fn is_does(word: BodyWord) -> bool
    ensures { IsTrue result ↔ (token word.entry ≡ DOES) }
{
    matches!(word, BodyWord::Does)
}

/// Whether the word is a second DOES>.
pub fn is_second(word: BodyWord, is_past: bool) -> bool
    ensures { IsTrue result ↔ ((token word.entry ≡ DOES) × (is_past ≡ true)) }
{
    is_does(word) && is_past
}

/// Whether a DOES> was read, after a word.
pub fn past_behind(is_past: bool, word: BodyWord) -> bool
    ensures { result ≡ past_after is_past (token word.entry) }
{
    match word {
        BodyWord::Does => true,
        _ => is_past,
    }
}

/// Whether the word opens a structure.
fn opens(word: BodyWord) -> bool
    ensures { result ≡ opener (token word.entry) }
{
    matches!(word, BodyWord::If | BodyWord::Begin | BodyWord::Do)
}

/// Whether the text, if it has one, has at most 255 bytes.
pub fn is_short(word: BodyWord) -> bool
    ensures { IsTrue result ↔ IsShort (token word.entry) }
{
    match word {
        BodyWord::Text(_, text) => text.len() < 256,
        _ => true,
    }
}

/// Whether a control has a cell.
fn has_cell(runtime: &[u16], laid: Option<Control>) -> bool
    requires { 28 ≤ length runtime.now }
    ensures { IsTrue result ↔ HasCell (slice_index runtime.now) (option_map number_of laid) }
{
    match laid {
        None => true,
        Some(control) => cell_of(runtime, control) != 0,
    }
}

/// The control that a word writes.
fn control_of(word: BodyWord) -> Option<Control>
    ensures { option_map number_of result ≡ control_written (token word.entry) }
{
    match word {
        BodyWord::Number(_) | BodyWord::Double(_) | BodyWord::Tick => Some(Control::Literal),
        BodyWord::Text(aborts, _) => Some(text_control(aborts)),
        BodyWord::Compile => Some(Control::Compile),
        BodyWord::If | BodyWord::Until | BodyWord::While => Some(Control::ZeroBranch),
        BodyWord::Else | BodyWord::Again | BodyWord::Repeat => Some(Control::Branch),
        BodyWord::Do => Some(Control::Do),
        BodyWord::Loop(plus) => Some(loop_control(plus)),
        BodyWord::Does => Some(Control::Does),
        BodyWord::Semicolon => Some(Control::Exit),
        BodyWord::Name(_) | BodyWord::Force | BodyWord::Then | BodyWord::Begin => None,
    }
}

/// Whether the control that a word writes has a name.
pub fn is_known(word: BodyWord, runtime: &[u16]) -> bool
    requires controls { 28 ≤ length runtime.now }
    ensures { IsTrue result ↔ IsKnown (slice_index runtime.now) (token word.entry) }
{
    has_cell(runtime, control_of(word))
}

/// Whether the word opens a structure too many.
pub fn is_too_deep(word: BodyWord, marks: &Vec<Mark>) -> bool
    ensures { IsTrue result ↔ ((opener (token word.entry) ≡ true) × (64 ≤ length marks.now.items)) }
{
    opens(word) && marks.len() >= 64
}

/// Whether the image passes the limit.
pub fn is_over(image: &Vec<u8>, at: u16, limit: u16) -> bool
    ensures { IsTrue result ↔ (limit < at + length image.now.items) }
{
    at as usize + image.len() > limit as usize
}

/// Whether no structure is open.
pub fn is_all_closed(marks: &Vec<Mark>) -> bool
    ensures { IsTrue result ↔ (length marks.now.items ≡ 0) }
{
    marks.is_empty()
}

/// Whether the word is `;`.
pub fn is_semicolon(word: BodyWord) -> bool
    ensures { IsTrue result ↔ (token word.entry ≡ SEMI) }
{
    matches!(word, BodyWord::Semicolon)
}
