//! The named formats.

ghost use Rattle.std.specs.Prelude.{◌≡◌, ◌≢◌, ◌≤◌, IfNone, IfOk, IfSome, MatchResult, None, length, if◌then◌else◌};
ghost use Rattle.containers.specs.Containers.{IsWhy};
ghost use Rattle.containers.specs.Formats.{changed, from_zero, layout_of, name_of, order_by};
ghost use Rattle.containers.specs.Layouts.{misfit};
ghost use Rattle.containers.specs.declared.formats.Format.{Format};

use crate::cause::Cause;
use crate::layout::Layout;
use std::alloc::{AllocError, Global};

/// A format that containers have.
#[derive(Clone, Copy, Debug, PartialEq, Eq, Drop)]
pub enum Format {
    /// Blocks of 1,024 bytes.
    Blocks,
    /// A file of F83: as many shadows after its screens.
    F83,
    /// Blocks of 128 bytes, eight a screen, as fig-FORTH has them.
    Fig,
    /// A volume of polyFORTH: blocks of 1,024 bytes.
    Poly,
    /// An 8-inch disk in single density, in CP/M's order: 26 sectors of 128 bytes a track, each sixth of them read next.
    Cpm8,
    /// The same after the two tracks of its system.
    Cpm8Data,
    /// A disk of an Apple II in DOS 3.3's order, with the blocks of Pascal and ProDOS.
    AppleDos,
    /// Lines of 64 bytes, each with a line feed, sixteen a screen.
    LinesLf,
    /// The same with carriage returns.
    LinesCr,
    /// The same with a carriage return and a line feed.
    LinesCrlf,
}

/// All of them.
pub const FORMATS: [Format; 10] = [
    Format::Blocks,
    Format::F83,
    Format::Fig,
    Format::Poly,
    Format::Cpm8,
    Format::Cpm8Data,
    Format::AppleDos,
    Format::LinesLf,
    Format::LinesCr,
    Format::LinesCrlf,
];

/// The order of CP/M's sectors on an 8-inch disk.
const EVERY_SIXTH: [usize; 26] = [
    0, 6, 12, 18, 24, 4, 10, 16, 22, 2, 8, 14, 20, 1, 7, 13, 19, 25, 5, 11, 17, 23, 3, 9, 15, 21,
];

/// The order of an Apple II's sectors in blocks.
const PASCAL_ORDER: [usize; 16] = [0, 14, 13, 12, 11, 10, 9, 8, 7, 6, 5, 4, 3, 2, 1, 15];

/// The order of sectors that lie one after the other.
const IN_TURN: [usize; 1] = [0];

/// The format of this name.
pub fn named(name: &str) -> Option<Format>
    ensures found { IfSome result (λ f. name_of f ≡ name.now) }
    ensures unknown { IfNone result ((f : Format) → name_of f ≢ name.now) }
{
    match name {
        "blocks" => Some(Format::Blocks),
        "f83" => Some(Format::F83),
        "fig" => Some(Format::Fig),
        "poly" => Some(Format::Poly),
        "cpm8" => Some(Format::Cpm8),
        "cpm8-data" => Some(Format::Cpm8Data),
        "apple-dos" => Some(Format::AppleDos),
        "lines-lf" => Some(Format::LinesLf),
        "lines-cr" => Some(Format::LinesCr),
        "lines-crlf" => Some(Format::LinesCrlf),
        _ => None,
    }
}

impl Format {
    /// How many bytes are before the first sector.
    #[tactic(auto, unfolding(crate::specs::Formats::layout_of))]
    fn offset(self) -> u32
        ensures { result ≡ (layout_of self).offset }
    {
        match self {
            Format::Cpm8Data => 6656,
            _ => 0,
        }
    }

    /// How many bytes of screens a sector has.
    #[tactic(auto, unfolding(crate::specs::Formats::layout_of))]
    fn sector(self) -> usize
        ensures { result ≡ (layout_of self).sector }
    {
        match self {
            Format::Blocks | Format::F83 | Format::Poly => 1024,
            Format::AppleDos => 256,
            Format::Fig | Format::Cpm8 | Format::Cpm8Data => 128,
            Format::LinesLf | Format::LinesCr | Format::LinesCrlf => 64,
        }
    }

    /// The order of its sectors.
    #[tactic(auto, unfolding(crate::specs::Formats::layout_of))]
    fn order(self) -> &'static [usize]
        ensures { result.now ≡ (layout_of self).order }
    {
        match self {
            Format::Cpm8 | Format::Cpm8Data => &EVERY_SIXTH,
            Format::AppleDos => &PASCAL_ORDER,
            _ => &IN_TURN,
        }
    }

    /// What comes after each sector.
    #[tactic(auto, unfolding(crate::specs::Formats::layout_of))]
    fn ending(self) -> &'static [u8]
        ensures value { result.now ≡ (layout_of self).ending }
        ensures bound { length result.now ≤ 2 }
    {
        match self {
            Format::LinesLf => b"\n",
            Format::LinesCr => b"\r",
            Format::LinesCrlf => b"\r\n",
            _ => b"",
        }
    }

    /// Whether shadows come after the screens.
    #[tactic(auto, unfolding(crate::specs::Formats::layout_of))]
    fn has_shadows(self) -> bool
        ensures { (layout_of self).parts ≡ (if result then 2 else 1) }
    {
        self == Format::F83
    }

    /// The layout of the format, with one's own numbers in place of its own if they are given; an order, counted from 0 or from
    /// 1 on, if it isn't empty. An error: the sectors or their order are none, or memory ran out.
    #[tactic(auto, unfolding(crate::specs::Formats::changed))]
    pub fn layout(
        self,
        alloc: Global,
        offset: Option<u32>,
        sector: Option<usize>,
        skew: &[usize],
    ) -> Result<Layout, Cause>
        ensures layout { IfOk result (λ l. l ≡ changed (layout_of self) offset sector skew.now) }
        ensures cause { let l = changed (layout_of self) offset sector skew.now in
            MatchResult result (λ _. misfit l.sector l.order ≡ None) (IsWhy (misfit l.sector l.order)) }
    {
        let offset = offset.unwrap_or(self.offset());
        let sector = sector.unwrap_or(self.sector());
        let (Ok(order), Ok(ending)) = (
            order_by(alloc, skew, self.order()),
            Vec::from_slice(alloc, self.ending()),
        ) else {
            return Err(Cause::OutOfMemory);
        };
        Layout::new(offset, sector, order, ending, self.has_shadows())
    }
}

/// An order that is counted from 1 on, or from 0, from 0 on.
#[tactic(auto, unfolding(crate::specs::Formats::from_zero))]
fn from_zero(alloc: Global, numbers: &[usize]) -> Result<Vec<usize>, AllocError>
    ensures { IfOk result (λ v. v.items ≡ from_zero numbers.now) }
{
    if numbers.contains(&0) {
        return Vec::from_slice(alloc, numbers);
    }
    numbers
        .iter()
        .map(|number| number.saturating_sub(1))
        .collect(alloc)
}

/// One's own order, if there is one.
#[tactic(auto, unfolding(crate::specs::Formats::order_by))]
fn order_by(alloc: Global, skew: &[usize], own: &[usize]) -> Result<Vec<usize>, AllocError>
    ensures { IfOk result (λ v. v.items ≡ order_by skew.now own.now) }
{
    if skew.is_empty() {
        return Vec::from_slice(alloc, own);
    }
    from_zero(alloc, skew)
}
