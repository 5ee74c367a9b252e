//! A word of a body.

ghost use Rattle.std.specs.Prelude.{◌≡◌, ◌≢◌, ◌+◌, ◌<◌, ◌≤◌, List, length, Result, Ok, Err, slice_index};
ghost use Rattle.colon_bodies.specs.Tokens.{Token, SEMI};
ghost use Rattle.colon_bodies.specs.declared.words.Half.{Half};
ghost use Rattle.colon_bodies.specs.Draft.{token, Drafting};
ghost use Rattle.memory.specs.declared.limit.TheConstants.{GREATEST_LIMIT};
ghost use Rattle.image_builder.specs.Names.{entry};
ghost use Rattle.image_builder.specs.Places.{Place, place, sense};
ghost use Rattle.image_builder.specs.Items.{Items};
ghost use Rattle.image_builder.specs.Stages.{Inside, body_at};
ghost use Rattle.image_builder.specs.Meanings.{look, meaning, name_first, unnamed, is_name_barred, is_inner};
ghost use Rattle.image_builder.specs.Built.{Built, Building};
ghost use Rattle.image_builder.specs.State.{InBody, Taken, Means, Looks, Somewhere, DraftsWord, EndsSo, IsSame};

use crate::cause::Cause;
use crate::entry::{Entry, Sign, find_name};
use crate::header::here;
use crate::make::make_colon;
use crate::spot::{Inner, Spot};
use crate::state::{Begun, Build, Title};
use colon_bodies::{BodyWord, Draft, Half, cell_of, finish, is_semicolon, take_word};
use memory::controls::Control;
use std::mem;

/// Whether only keywords and numbers write this control.
fn is_inner_control(sign: Sign) -> bool
    ensures { result ≡ is_inner sign }
{
    match sign {
        Sign::Control(n) => {
            (Control::Literal as u16 <= n && n <= Control::PlusLoop as u16)
                || (Control::ShowText as u16 <= n && n <= Control::Does as u16)
        }
        _ => false,
    }
}

/// Whether a name can't come after what is half read.
fn is_barred_name(half: Half, e: Entry) -> bool
    ensures { result ≡ is_name_barred half (entry e.entry) }
{
    match half {
        Half::Free => is_inner_control(e.sign) || e.immediate,
        Half::Compiling => e.immediate,
        _ => false,
    }
}

/// The address of a name's code field.
fn address_of(b: &Build, w: Spot) -> Result<Option<u16>, Cause>
    requires { Building b.now }
    ensures { (t : Items) → Built b.now.limit b.now t → Looks b.now.draft.half (look t (place w.entry)) result }
{
    match find_name(b.names.as_slice(), b.current, w.name) {
        None => Ok(None),
        Some(e) => {
            if is_barred_name(b.draft.half, e) {
                Err(Cause::Misplaced)
            } else {
                Ok(Some(e.link + 3 + e.name.len() as u16))
            }
        }
    }
}

/// What a word is in a body if it is no name.
fn unnamed_word<'a>(inner: Inner<'a>) -> Result<BodyWord<'a>, Cause>
    ensures { Means result (unnamed (sense inner.entry)) }
{
    match inner {
        Inner::Keyword(k) => Ok(k),
        Inner::Number(n) => Ok(BodyWord::Number(n)),
        Inner::Double(n) => Ok(BodyWord::Double(n)),
        Inner::Paren => Err(Cause::Misplaced),
        Inner::Other => Err(Cause::Unknown),
    }
}

/// What a word is that is tried as a name first.
fn name_or_other<'a>(b: &Build, w: Spot<'a>) -> Result<BodyWord<'a>, Cause>
    requires { Building b.now }
    ensures { (t : Items) → Built b.now.limit b.now t →
        Means result (name_first b.now.draft.half (look t (place w.entry)) (sense w.entry.inner)) }
{
    match address_of(b, w)? {
        Some(a) => Ok(BodyWord::Name(a)),
        None => unnamed_word(w.inner),
    }
}

/// What a word means in a body.
fn meaning_of<'a>(b: &Build, w: Spot<'a>) -> Result<BodyWord<'a>, Cause>
    requires { Building b.now }
    ensures { (t : Items) → Built b.now.limit b.now t → Means result (meaning b.now.draft.half t (place w.entry)) }
{
    match (b.draft.half, w.inner) {
        (Half::Free, Inner::Keyword(k)) => Ok(k),
        (Half::Compiling, Inner::Keyword(k)) => Ok(k),
        _ => name_or_other(b, w),
    }
}

/// One more word of the draft.
fn draft_word(b: &mut Build, word: BodyWord, at: u16) -> Result<(), Cause>
    requires drafting { Drafting at b.old.draft.image.items b.old.draft.marks.items }
    requires room { at + length b.old.draft.image.items ≤ b.old.limit }
    requires limit { b.old.limit ≤ GREATEST_LIMIT }
    requires controls { length b.old.runtime.items ≡ 256 }
    requires inside { token word ≢ SEMI }
    ensures taken { DraftsWord b.old.limit (slice_index b.old.runtime.items) at (token word.entry) b.old.draft result b.new }
    ensures kept { IsSame b.old b.new }
{
    take_word(&mut b.draft, word, at, b.limit, b.runtime.as_slice())?;
    Ok(())
}

/// The last word of a draft.
fn end_body(b: &mut Build, p: &Title, at: u16) -> Result<(), Cause>
    requires somewhere { Somewhere b.old p.now }
    requires short { length p.now.name.items < 32 }
    ensures { (t : Items) (ws : List Place) (before : List Token) (q : Place) → InBody b.old p.now t ws before q
        (at ≡ body_at t q → EndsSo b.old.limit t q before result b.new) }
{
    let exit = cell_of(b.runtime.as_slice(), Control::Exit);
    let mut draft = mem::replace(&mut b.draft, Draft::new(b.alloc));
    finish(&mut draft, at, b.limit, exit)?;
    make_colon(b, p, draft.image.as_slice())?;
    Ok(())
}

/// A word of a body.
pub fn compile_word(b: &mut Build, p: Title, w: Spot) -> Result<Begun, Cause>
    requires somewhere { Somewhere b.old p }
    requires short { length p.name.items < 32 }
    ensures { (t : Items) (ws after : List Place) (before : List Token) (q : Place) → InBody b.old p t ws before q
        (Taken b.old.limit t ws (Inside q before) (place w.entry) after result b.new) }
{
    let at = here(b) + 7 + p.name.len() as u16;
    let word = meaning_of(b, w)?;
    if is_semicolon(word) {
        end_body(b, &p, at)?;
        return Ok(Begun::Whole);
    }
    draft_word(b, word, at)?;
    Ok(Begun::Inside(p))
}
