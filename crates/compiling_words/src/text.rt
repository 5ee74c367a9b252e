//! Texts in the thread.

ghost use Rattle.std.specs.Prelude.{◌≡◌, ◌<◌, ◌≤◌, length, true};
ghost use Rattle.memory.specs.Mirrored.{stored};
ghost use Rattle.std.specs.Result.{is_err};
ghost use Rattle.compiling_words.specs.Code.{runtime, text_number, text_code};
ghost use Rattle.compiling_words.specs.Laying.{IsLaid};
ghost use Rattle.dictionary.specs.Laying.{laid_at};

use crate::control::runtime;
use crate::laying::Full;
use dictionary::fits;
use memory::Memory;
use memory::controls::Control;
use memory::system::DP;

/// The two words that write a text.
#[derive(Clone, Copy, Debug, PartialEq, Eq)]
pub enum TextWord {
    /// `."`, which writes `(.")`
    Show,
    /// `ABORT"`, which writes `(ABORT")`
    Abort,
}

/// The control primitive that a word writes before its text.
pub fn runtime_of(memory: &Memory, word: TextWord) -> u16
    ensures { result ≡ runtime (stored memory.now) (text_number word) }
{
    match word {
        TextWord::Show => runtime(memory, Control::ShowText),
        TextWord::Abort => runtime(memory, Control::AbortText),
    }
}

/// Writes a token, the count of a text of at most 255 bytes, and the text at an address, and sets DP after them.
#[tactic(auto, using(crate::proofs::Texts::texts), unfolding(dictionary::specs::Laying::laid_at))]
pub fn lay_text(memory: &mut Memory, here: u16, token: u16, text: &[u8])
    requires { length text.now ≤ 255 }
    ensures { stored memory.new ≡ laid_at here (stored memory.old) (text_code token text.now) }
{
    memory.set_cell(here, token);
    memory.set_byte(here.wrapping_add(2), text.len() as u8);
    memory.set_bytes(here.wrapping_add(3), text);
    memory.set_cell(DP, here.wrapping_add(3 + text.len() as u16));
}

/// Writes a text (Forth-83 `."` and `ABORT"`): the control primitive of `word`, a count byte, the text. `Full`, with nothing
/// written, also if the text has more than the 255 bytes that a count byte counts.
#[tactic(auto, using(crate::proofs::Texts::texts))]
pub fn inline_text(memory: &mut Memory, word: TextWord, text: &[u8], limit: u16) -> Result<(), Full>
    ensures counted { length text.now ≤ 255 →
        IsLaid limit (stored memory.old) (stored memory.new) (text_code (runtime (stored memory.old) (text_number word)) text.now) result }
    ensures long { 255 < length text.now → (is_err result ≡ true) × ((stored memory.new) ≡ (stored memory.old)) }
{
    if text.len() > 255 {
        return Err(Full);
    }
    if !fits(memory, 3 + text.len(), limit) {
        return Err(Full);
    }
    let here = memory.cell(DP);
    let token = runtime_of(memory, word);
    lay_text(memory, here, token, text);
    Ok(())
}
