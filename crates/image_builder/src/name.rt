//! A word that is due as a name.

ghost use Rattle.std.specs.Prelude.{◌≡◌, ◌↔◌, ◌+◌, ◌<◌, ◌≤◌, List, length, IsTrue, OnOk, IfErr, MatchOption, Some, None};
ghost use Rattle.image_builder.specs.Places.{Place, place};
ghost use Rattle.image_builder.specs.Names.{Name, address};
ghost use Rattle.image_builder.specs.Meanings.{look};
ghost use Rattle.image_builder.specs.Items.{Items, Then, Header, kind_size};
ghost use Rattle.image_builder.specs.Stages.{Due};
ghost use Rattle.image_builder.specs.Grammar.{AreSound};
ghost use Rattle.image_builder.specs.Built.{Built, Building};
ghost use Rattle.image_builder.specs.State.{IsState, Taken, IsByte};
ghost use Rattle.image_builder.specs.declared.cause.Cause.TheVariants.{OutOfMemory};
ghost use Rattle.image_builder.specs.declared.entry.Kind.{Kind};
ghost use Rattle.image_builder.specs.declared.entry.Lead.TheVariants.{Makes, Defines, Starts};

use crate::cause::Cause;
use crate::entry::{Kind, Lead, find_name};
use crate::header::owned;
use crate::items::is_over;
use crate::make::{
    make_constant, make_create, make_primitive, make_variable, make_vocabulary, set_boot,
};
use crate::spot::{Inner, Spot};
use crate::state::{Begun, Build, Title};

/// Makes the header of an item.
fn make(b: &mut Build, kind: Kind, p: Spot) -> Result<(), Cause>
    requires building { Building b.old }
    requires short { length p.name.now < 32 }
    requires number { IsByte kind }
    ensures built { (t : Items) (ws : List Place) → Built b.old.limit b.old t → AreSound b.old.limit t →
        OnOk result (Built b.old.limit b.new (Then t ws (Header (place p.entry) kind))) }
    ensures kept { OnOk result (b.new.draft ≡ b.old.draft) }
    ensures memory { IfErr result (λ e. e ≡ OutOfMemory) }
{
    match kind {
        Kind::Create => make_create(b, p),
        Kind::Variable => make_variable(b, p),
        Kind::Vocabulary => make_vocabulary(b, p),
        Kind::Constant(n) => make_constant(b, p, n),
        Kind::Primitive(n) => make_primitive(b, p, n),
    }
}

/// How many bytes come after a header of this kind.
fn bytes_of_kind(kind: Kind) -> usize
    ensures is { result ≡ kind_size kind }
    ensures few { result ≤ 10 }
{
    match kind {
        Kind::Primitive(_) | Kind::Create => 0,
        Kind::Constant(_) | Kind::Variable => 2,
        Kind::Vocabulary => 10,
    }
}

/// Whether a name has more than 31 bytes.
fn is_long(name: &[u8]) -> bool
    ensures { IsTrue result ↔ (31 < length name.now) }
{
    name.len() > 31
}

/// The name of a header that has no body.
pub fn name_header(b: &mut Build, kind: Kind, w: Spot) -> Result<Begun, Cause>
    requires building { Building b.old }
    requires number { IsByte kind }
    ensures { (t : Items) (ws after : List Place) → IsState b.old.limit b.old t ws (Due (Makes kind)) →
        Taken b.old.limit t ws (Due (Makes kind)) (place w.entry) after result b.new }
{
    if is_long(w.name) {
        return Err(Cause::BadName);
    }
    if is_over(b, 7 + w.name.len() + bytes_of_kind(kind)) {
        return Err(Cause::Full);
    }
    make(b, kind, w)?;
    Ok(Begun::Whole)
}

/// The name of a definition.
pub fn name_definition(b: &mut Build, w: Spot) -> Result<Begun, Cause>
    requires building { Building b.old }
    ensures { (t : Items) (ws after : List Place) → IsState b.old.limit b.old t ws (Due Defines) →
        Taken b.old.limit t ws (Due Defines) (place w.entry) after result b.new }
{
    if is_long(w.name) {
        return Err(Cause::BadName);
    }
    if is_over(b, 7 + w.name.len()) {
        return Err(Cause::Full);
    }
    let name = owned(b.alloc, w.name)?;
    Ok(Begun::Inside(Title {
        screen: w.screen,
        name,
    }))
}

/// The compilation address of a name.
fn address_of_name(b: &Build, w: Spot) -> Option<u16>
    requires building { Building b.now }
    ensures { (t : Items) → Built b.now.limit b.now t →
        MatchOption result (look t (place w.entry) ≡ None)
        (λ a. (n : Name) × (Some n ≡ look t (place w.entry)) × (a ≡ address n)) }
{
    match find_name(b.names.as_slice(), b.current, w.name) {
        Some(e) => Some(e.link + 3 + e.name.len() as u16),
        None => None,
    }
}

/// The name to begin with.
pub fn name_boot(b: &mut Build, w: Spot) -> Result<Begun, Cause>
    requires building { Building b.old }
    ensures { (t : Items) (ws after : List Place) → IsState b.old.limit b.old t ws (Due Starts) →
        Taken b.old.limit t ws (Due Starts) (place w.entry) after result b.new }
{
    match address_of_name(b, w) {
        Some(a) => {
            set_boot(b, a);
            Ok(Begun::Whole)
        }
        None => match w.inner {
            Inner::Other => Err(Cause::Unknown),
            _ => Err(Cause::Misplaced),
        },
    }
}

/// A word that is due as a name.
pub fn name_item(b: &mut Build, lead: Lead, w: Spot) -> Result<Begun, Cause>
    requires building { Building b.old }
    requires number { (k : Kind) → lead ≡ Makes k → IsByte k }
    ensures { (t : Items) (ws after : List Place) → IsState b.old.limit b.old t ws (Due lead) →
        Taken b.old.limit t ws (Due lead) (place w.entry) after result b.new }
{
    match lead {
        Lead::Makes(kind) => name_header(b, kind, w),
        Lead::Defines => name_definition(b, w),
        Lead::Starts => name_boot(b, w),
    }
}
