//! A word where an item begins, and a word after a number or a vocabulary.

ghost use Rattle.std.specs.Prelude.{◌≡◌, ◌≢◌, ◌↔◌, ◌+◌, ◌<◌, List, length, IsTrue, codes, Some, None, true, false};
ghost use Rattle.image_builder.specs.Places.{Place, place};
ghost use Rattle.image_builder.specs.Items.{Items};
ghost use Rattle.std.specs.Str.{bytes_eq};
ghost use Rattle.image_builder.specs.Stages.{Whole, Counted, Due, Chosen};
ghost use Rattle.image_builder.specs.Grammar.{may_name};
ghost use Rattle.image_builder.specs.Meanings.{look, record_named};
ghost use Rattle.image_builder.specs.declared.entry.Lead.{Lead};
ghost use Rattle.image_builder.specs.Built.{Built, Building};
ghost use Rattle.image_builder.specs.State.{IsState, Taken};
ghost use Rattle.image_builder.specs.declared.spot.Sort.TheVariants as s;

use crate::cause::Cause;
use crate::entry::{Kind, Lead, Sign, find_name};
use crate::header::here;
use crate::make::{allot, char_comma, comma, set_definitions, set_immediate};
use crate::spot::{Sort, Spot};
use crate::state::{Begun, Build, Site};

/// Whether more bytes pass the limit.
pub fn is_over(b: &Build, more: usize) -> bool
    requires building { Building b.now }
    requires few { more < 65536 }
    ensures { IsTrue result ↔ (b.now.limit < length b.now.image.items + 256 + more) }
{
    here(b) as usize + more > usize::from(b.limit)
}

/// A word after a number.
pub fn lay_counted(b: &mut Build, n: u16, w: Spot) -> Result<Begun, Cause>
    requires building { Building b.old }
    ensures { (t : Items) (ws after : List Place) → IsState b.old.limit b.old t ws (Counted n) →
        (w.entry.sort ≡ s.Prim → may_name t n ≡ true) → (w.entry.sort ≡ s.Allot → n < 32768) →
        Taken b.old.limit t ws (Counted n) (place w.entry) after result b.new }
{
    match w.sort {
        Sort::Prim => Ok(Begun::Due(Lead::Makes(Kind::Primitive(n)))),
        Sort::Constant => Ok(Begun::Due(Lead::Makes(Kind::Constant(n)))),
        Sort::Comma => {
            if is_over(b, 2) {
                return Err(Cause::Full);
            }
            comma(b, n)?;
            Ok(Begun::Whole)
        }
        Sort::CharComma => {
            if is_over(b, 1) {
                return Err(Cause::Full);
            }
            char_comma(b, n)?;
            Ok(Begun::Whole)
        }
        Sort::Allot => {
            if is_over(b, n as usize) {
                return Err(Cause::Full);
            }
            allot(b, n)?;
            Ok(Begun::Whole)
        }
        Sort::Double => Err(Cause::BadNumber),
        _ => Err(Cause::Misplaced),
    }
}

/// Whether a name is FORTH.
fn is_forth(name: &[u8]) -> bool
    ensures { result ≡ bytes_eq name.now (codes "FORTH") }
{
    name == b"FORTH".as_slice()
}

/// The record of the vocabulary that a name stands for.
fn record_of_name(b: &Build, w: Spot) -> Option<u16>
    requires { Building b.now }
    ensures { (t : Items) → Built b.now.limit b.now t → result ≡ record_named t (place w.entry) }
{
    if is_forth(w.name) {
        return Some(42);
    }
    match find_name(b.names.as_slice(), b.current, w.name) {
        Some(e) => match e.sign {
            Sign::Record => Some(e.link + 5 + e.name.len() as u16),
            _ => None,
        },
        None => None,
    }
}

/// Whether a word is a name.
fn is_named(b: &Build, w: Spot) -> bool
    ensures yes { (t : Items) → Built b.now.limit b.now t → IsTrue result → look t (place w.entry) ≢ None }
    ensures no { (t : Items) → Built b.now.limit b.now t → result ≡ false → look t (place w.entry) ≡ None }
{
    find_name(b.names.as_slice(), b.current, w.name).is_some()
}

/// A vocabulary's name where an item begins.
fn choose_vocabulary(b: &Build, w: Spot) -> Result<Begun, Cause>
    requires building { Building b.now }
    requires other { w.sort ≡ s.Other }
    ensures { (t : Items) (ws after : List Place) → IsState b.now.limit b.now t ws Whole →
        Taken b.now.limit t ws Whole (place w.entry) after result b.now }
{
    match record_of_name(b, w) {
        Some(v) => Ok(Begun::Chosen(v)),
        None => {
            if is_named(b, w) {
                Err(Cause::Misplaced)
            } else {
                Err(Cause::Unknown)
            }
        }
    }
}

/// Whether a header was made.
fn has_names(b: &Build) -> bool
    ensures { IsTrue result ↔ (0 < length b.now.names.items) }
{
    !b.names.is_empty()
}

/// Where a word is.
fn site_of(w: Spot) -> Site
    ensures { (result.screen ≡ w.entry.screen) × (result.offset ≡ w.entry.offset) }
{
    Site {
        screen: w.screen,
        offset: w.offset,
    }
}

/// A word where an item begins.
pub fn begin_item(b: &mut Build, w: Spot) -> Result<Begun, Cause>
    requires building { Building b.old }
    ensures { (t : Items) (ws after : List Place) → IsState b.old.limit b.old t ws Whole →
        Taken b.old.limit t ws Whole (place w.entry) after result b.new }
{
    match w.sort {
        Sort::Number(n) => Ok(Begun::Counted(n, site_of(w))),
        Sort::Double => Err(Cause::BadNumber),
        Sort::Variable => Ok(Begun::Due(Lead::Makes(Kind::Variable))),
        Sort::Create => Ok(Begun::Due(Lead::Makes(Kind::Create))),
        Sort::Vocabulary => Ok(Begun::Due(Lead::Makes(Kind::Vocabulary))),
        Sort::Colon => Ok(Begun::Due(Lead::Defines)),
        Sort::Immediate => {
            if !has_names(b) {
                return Err(Cause::Misplaced);
            }
            set_immediate(b);
            Ok(Begun::Whole)
        }
        Sort::Boot => match b.boot {
            Some(_) => Err(Cause::Misplaced),
            None => Ok(Begun::Due(Lead::Starts)),
        },
        Sort::Other => choose_vocabulary(b, w),
        _ => Err(Cause::Misplaced),
    }
}

/// A word after a vocabulary's name.
pub fn expect_definitions(b: &mut Build, v: u16, w: Spot) -> Result<Begun, Cause>
    ensures { (t : Items) (ws after : List Place) → IsState b.old.limit b.old t ws (Chosen v) →
        Taken b.old.limit t ws (Chosen v) (place w.entry) after result b.new }
{
    match w.sort {
        Sort::Definitions => {
            set_definitions(b, v);
            Ok(Begun::Whole)
        }
        Sort::Double => Err(Cause::BadNumber),
        _ => Err(Cause::Misplaced),
    }
}
