//! The words of a thread, if they are those of a definition.

ghost use Rattle.std.specs.Prelude.{◌≡◌, ◌≢◌, ◌↔◌, IsTrue, true, ℕ, ◌≤◌, ◌<◌, ◌^◌, ◌+◌, ◌∷◌, [], ◌++◌, IfErr, IfOk, length, map, slice_index, vec_capacity, vec_len};
ghost use Rattle.colon_bodies.specs.Tree.{Definition, all_words};
ghost use Rattle.colon_bodies.specs.Tokens.{SEMI, laid};
ghost use Rattle.colon_bodies.specs.Code.{whole_code};
ghost use Rattle.colon_bodies.specs.Draft.{Compiled, KeepsRoom};
ghost use Rattle.colon_bodies.specs.Faults.{IsFault};
ghost use Rattle.see.specs.Parts.{token_in};
ghost use Rattle.see.specs.Printing.{its_words};
ghost use Rattle.see.specs.Shown.{Makes, Compiles};
ghost use Rattle.colon_bodies.specs.declared.fault.BodyCause.TheVariants.{Memory};

use crate::parts::{Part, word_in};
use crate::places::bytes_of;
use colon_bodies::{BodyCause, BodyFault, Draft, cell_of, finish, is_semicolon, take_word};
use memory::controls::Control;

/// Whether the bytes are the same.
fn is_same(bytes: &[u8], others: &[u8]) -> bool
    ensures { IsTrue result ↔ (bytes.now ≡ others.now) }
{
    bytes == others
}

/// Whether the words of the thread of these bytes write no more than so many.
fn fits(words: &[Part], bytes: &[u8], most: usize) -> bool
    ensures { IsTrue result ↔ (laid (map (token_in bytes.now) words.now) ≤ most) }
{
    let mut left = most;
    for word in words.iter() {
        let k = bytes_of(word_in(bytes, *word));
        if k > left {
            return false;
        }
        left -= k;
    }
    true
}

/// Compiles the words of the thread of these bytes into a draft, as `colon_bodies::compile` does.
fn compile(
    d: &mut Draft,
    words: &[Part],
    bytes: &[u8],
    runtime: &[u16],
    at: u16,
    limit: u16,
) -> Result<usize, BodyFault>
    requires jumps { at + laid (map (token_in bytes.now) words.now) < 2 ^ 16 }
    requires start { at ≤ limit }
    requires controls { 28 ≤ length runtime.now }
    ensures compiled { IfOk result (λ used.
        Compiled (slice_index runtime.now) at limit (map (token_in bytes.now) words.now) d.new.image.items used) }
    ensures refused { IfErr result (λ e.
        IsFault (slice_index runtime.now) at limit (map (token_in bytes.now) words.now) e.place e.cause) }
    ensures kept { KeepsRoom d.old d.new }
    ensures shallow { laid (map (token_in bytes.now) words.now) ≤ vec_capacity d.old.image → 64 ≤ vec_capacity d.old.marks →
        IfErr result (λ e. e.cause ≢ Memory) }
{
    d.clear();
    for (i, word) in words.iter().enumerate() {
        let word = word_in(bytes, *word);
        if is_semicolon(word) {
            return match finish(d, at, limit, cell_of(runtime, Control::Exit)) {
                Ok(()) => Ok(i + 1),
                Err(cause) => Err(BodyFault { place: i, cause }),
            };
        }
        if let Err(cause) = take_word(d, word, at, limit, runtime) {
            return Err(BodyFault { place: i, cause });
        }
    }
    Err(BodyFault {
        place: words.len(),
        cause: BodyCause::EndsInside,
    })
}

/// Whether the words are those of a definition that is written as these bytes.
pub fn makes(draft: &mut Draft, words: &[Part], bytes: &[u8], runtime: &[u16], at: u16) -> bool
    requires reach { at + length bytes.now < 2 ^ 16 }
    requires controls { 28 ≤ length runtime.now }
    requires room { (length bytes.now ≤ vec_capacity draft.old.image) × (64 ≤ vec_capacity draft.old.marks) }
    ensures yes { result ≡ true → Makes (slice_index runtime.now) at bytes.now (map (token_in bytes.now) words.now) }
    ensures no { (d : Definition) → Compiles (slice_index runtime.now) at 65535 d →
        map (token_in bytes.now) words.now ≡ its_words d → whole_code (slice_index runtime.now) d at ≡ bytes.now →
        result ≡ true }
    ensures few { result ≡ true → laid (map (token_in bytes.now) words.now) ≤ length bytes.now }
    ensures kept { KeepsRoom draft.old draft.new }
{
    if !fits(words, bytes, bytes.len()) {
        return false;
    }
    match compile(draft, words, bytes, runtime, at, 65535) {
        Ok(used) => used == words.len() && is_same(&draft.image, bytes),
        Err(_) => false,
    }
}
