//! The words of a source, one by one.

ghost use Rattle.std.specs.Prelude.{◌≡◌, ◌==◌, ◌<◌, List, length, Some, None, slice_index};
ghost use Rattle.image_builder.specs.Places.{Place, place};
ghost use Rattle.image_builder.specs.Items.{Items, controls};
ghost use Rattle.image_builder.specs.Stages.{Stage, Whole, Counted, Due, Chosen, Inside};
ghost use Rattle.image_builder.specs.Grammar.{may_name, is_gap};
ghost use Rattle.image_builder.specs.Built.{Built, Building};
ghost use Rattle.image_builder.specs.State.{IsState, IsBegun, Shows, TakenAt, OfNumber, IsAtSite, located};

use crate::body::compile_word;
use crate::cause::{BuildFault, Cause};
use crate::items::{begin_item, expect_definitions, lay_counted};
use crate::name::name_item;
use crate::spot::{Sort, Spot};
use crate::state::{Begun, Build, Site};
use memory::controls::Control;

/// One more than the number of the last primitive.
pub const PRIMITIVES_END: u16 = 205;

/// The primitives with numbers below this one, the controls, have runtime cells.
pub const CONTROLS_END: u16 = 28;

/// Whether no primitive has this number.
fn is_in_gap(n: u16) -> bool
    ensures { result ≡ is_gap n }
{
    (27 < n && n < 32)
        || (45 < n && n < 48)
        || (90 < n && n < 96)
        || (107 < n && n < 112)
        || (121 < n && n < 128)
        || (134 < n && n < 144)
        || (157 < n && n < 168)
        || (197 < n && n < 200)
}

/// Whether a control has no name yet.
fn is_free_control(b: &Build, n: u16) -> bool
    requires building { Building b.now }
    requires byte { n < 256 }
    ensures { (t : Items) → Built b.now.limit b.now t → result ≡ (controls t n == 0) }
{
    is_zero(cell_at(b.runtime.as_slice(), n))
}

/// Whether a cell is 0.
fn is_zero(x: u16) -> bool
    ensures { result ≡ (x == 0) }
{
    x == 0
}

/// A control's compilation address.
fn cell_at(runtime: &[u16], n: u16) -> u16
    requires { n < length runtime.now }
    ensures { result ≡ slice_index runtime.now n }
{
    runtime[n as usize]
}

/// Whether a primitive of this number may be named.
fn is_primitive(b: &Build, n: u16) -> bool
    requires building { Building b.now }
    ensures { (t : Items) → Built b.now.limit b.now t → result ≡ may_name t n }
{
    Control::Exit as u16 <= n
        && n < PRIMITIVES_END
        && !is_in_gap(n)
        && (CONTROLS_END <= n || is_free_control(b, n))
}

/// The fault of a number, once the next word is known.
fn fault_of_number(b: &Build, n: u16, sort: Sort) -> Option<Cause>
    requires building { Building b.now }
    ensures { (t : Items) → Built b.now.limit b.now t → OfNumber t n sort result }
{
    match sort {
        Sort::Prim => {
            if is_primitive(b, n) {
                None
            } else {
                Some(Cause::BadPrimitive)
            }
        }
        Sort::Allot => {
            if n < 32768 {
                None
            } else {
                Some(Cause::BadNumber)
            }
        }
        _ => None,
    }
}

/// A fault at a word.
fn at(w: Spot, taken: Result<Begun, Cause>) -> Result<Begun, BuildFault>
    ensures { result ≡ located w.entry.screen w.entry.offset taken }
{
    match taken {
        Ok(begun) => Ok(begun),
        Err(cause) => Err(BuildFault {
            screen: w.screen,
            offset: w.offset,
            cause,
        }),
    }
}

/// A word after a number.
fn read_after_number(b: &mut Build, n: u16, a: Site, w: Spot) -> Result<Begun, BuildFault>
    requires building { Building b.old }
    ensures { (t : Items) (ws after : List Place) → IsState b.old.limit b.old t ws (Counted n) → IsAtSite a ws →
        TakenAt b.old.limit t ws (Counted n) (place w.entry) after result b.new }
{
    match fault_of_number(b, n, w.sort) {
        Some(cause) => Err(BuildFault {
            screen: a.screen,
            offset: a.offset,
            cause,
        }),
        None => at(w, lay_counted(b, n, w)),
    }
}

/// Reads one more word.
pub fn read_word(b: &mut Build, begun: Begun, w: Spot) -> Result<Begun, BuildFault>
    requires { IsBegun b.old begun }
    ensures { (t : Items) (ws after : List Place) (stage : Stage) → Shows begun ws stage →
        IsState b.old.limit b.old t ws stage → TakenAt b.old.limit t ws stage (place w.entry) after result b.new }
{
    match begun {
        Begun::Whole => at(w, begin_item(b, w)),
        Begun::Counted(n, a) => read_after_number(b, n, a, w),
        Begun::Due(lead) => at(w, name_item(b, lead, w)),
        Begun::Chosen(v) => at(w, expect_definitions(b, v, w)),
        Begun::Inside(p) => at(w, compile_word(b, p, w)),
    }
}
