//! How screens lie in a container.

ghost use Rattle.std.specs.Prelude.{◌≡◌, ◌<◌, ◌≤◌, length, None, Some, IfOk, MatchResult, true, if◌then◌else◌};
ghost use Rattle.containers.specs.Layouts.{IsLayout, divides_screen, is_order, misfit, pitch, place, track};

use crate::cause::Cause;
use crate::order::{is_order, physical};
use std::marker::Model;

/// How many bytes a screen has.
pub const SCREEN: usize = 1024;

/// How screens lie in a container: after so many bytes are tracks of equally many sectors, whose order, as they are read,
/// may be another than that in which they lie. After the bytes of each sector may be an ending.
#[derive(Drop)]
pub struct Layout {
    offset: u32,
    sector: usize,
    order: Vec<usize>,
    ending: Vec<u8>,
    parts: usize,
}

impl Model for Layout {
    ghost use Rattle.containers.specs.Layouts.{IsLayout, Layout};

    ghost Value = { Layout };

    ghost view = { λ l. record { offset = l.offset; sector = l.sector; order = l.order.items; ending = l.ending.items; parts = l.parts } };

    ghost invariant = { λ l. IsLayout (record { offset = l.offset; sector = l.sector; order = l.order.items; ending = l.ending.items; parts = l.parts }) };
}

/// Whether a screen has whole sectors of this size.
#[tactic(auto, unfolding(crate::specs::Layouts::divides_screen))]
fn divides_screen(sector: usize) -> bool
    ensures { result ≡ divides_screen sector }
{
    sector > 0 && SCREEN % sector == 0
}

impl Layout {
    /// A layout: how many bytes are before the first sector, how many each has, for each sector of a track in the order
    /// in which they are read the place where it is, what comes after each, and whether shadows follow, as many as
    /// screens.
    #[tactic(auto, unfolding(crate::specs::Layouts::misfit))]
    pub fn new(
        offset: u32,
        sector: usize,
        order: Vec<usize>,
        ending: Vec<u8>,
        has_shadows: bool,
    ) -> Result<Layout, Cause>
        requires { length ending.items ≤ 2 }
        ensures layout { IfOk result (λ l. l ≡ record { offset = offset; sector = sector; order = order.items; ending = ending.items; parts = if has_shadows then 2 else 1 }) }
        ensures cause { MatchResult result (λ _. misfit sector order.items ≡ None) (λ why. misfit sector order.items ≡ Some why) }
    {
        if !divides_screen(sector) {
            return Err(Cause::BadSector);
        }
        if !is_order(order.as_slice()) {
            return Err(Cause::BadSkew);
        }
        let parts = if has_shadows { 2 } else { 1 };
        Ok(Layout {
            offset,
            sector,
            order,
            ending,
            parts,
        })
    }

    /// How many bytes are before the first sector.
    pub fn offset(&self) -> usize
        ensures value { result ≡ self.now.offset }
        ensures bound { result < 4294967296 }
        ensures sound { IsLayout self.now }
    {
        self.offset as usize
    }

    /// How many bytes of screens a sector has.
    #[tactic(auto, using(crate::proofs::Places::sector_bound))]
    pub fn sector(&self) -> usize
        ensures value { result ≡ self.now.sector }
        ensures some { 0 < result }
        ensures bound { result ≤ 1024 }
        ensures sound { IsLayout self.now }
    {
        self.sector
    }

    /// For each sector of a track, in the order in which they are read, the place where it is.
    fn order(&self) -> &[usize]
        ensures value { result.now ≡ self.now.order }
        ensures order { is_order result.now ≡ true }
    {
        self.order.as_slice()
    }

    /// How many sectors a track has.
    #[tactic(auto, using(crate::proofs::Orders::order_some))]
    pub fn count(&self) -> usize
        ensures value { result ≡ length self.now.order }
        ensures some { 0 < result }
        ensures bound { result ≤ 1024 }
    {
        self.order.len()
    }

    /// What comes after the bytes of each sector.
    pub fn ending(&self) -> &[u8]
        ensures value { result.now ≡ self.now.ending }
        ensures bound { length result.now ≤ 2 }
    {
        self.ending.as_slice()
    }

    /// How many bytes a sector takes up.
    #[tactic(auto, unfolding(crate::specs::Layouts::pitch))]
    pub fn pitch(&self) -> usize
        ensures value { result ≡ pitch self.now }
        ensures some { 0 < result }
        ensures bound { result ≤ 1026 }
    {
        self.sector() + self.ending().len()
    }

    /// How many bytes a track takes up.
    #[tactic(auto, unfolding(crate::specs::Layouts::track))]
    pub fn track(&self) -> usize
        ensures value { result ≡ track self.now }
        ensures some { 0 < result }
    {
        self.pitch() * self.count()
    }

    /// Into how many equal parts the screens come.
    pub fn parts(&self) -> usize
        ensures value { result ≡ self.now.parts }
        ensures some { 0 < result }
    {
        self.parts
    }

    /// Where this byte of the screens is in the container.
    #[tactic(auto, unfolding(crate::specs::Layouts::place))]
    pub fn place(&self, byte: usize) -> usize
        requires { byte < 67108864 }
        ensures value { result ≡ place self.now byte }
        ensures sound { IsLayout self.now }
    {
        let sector = self.sector();
        let track_place = physical(self.order(), byte / sector);
        self.offset() + (track_place * self.pitch() + byte % sector)
    }
}
