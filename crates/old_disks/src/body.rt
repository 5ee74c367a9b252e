//! The bytes of a container's screens, in their order.

use crate::bytes::{SCREEN, before, from, is_padding, whole};
use crate::options::Options;
use crate::pieces::Pieces;
use crate::ragged::{lined, unlined};
use crate::refusal::{Refusal, refusal_of};
use containers::{Layout, read_screens, write_screens};
use std::alloc::{AllocError, Global};

/// How a container is taken apart.
#[derive(Drop)]
pub enum Way {
    /// Its sectors move by some places a track.
    Turned(Pieces),
    /// All of it after so many bytes.
    After(usize),
    /// Lines of one length, with an end each.
    Lines(Layout),
    /// Screens, and as many shadows; padding may come after them.
    Shadowed(Layout),
    /// Sectors in an order.
    Ordered(Layout),
}

/// The layout that is asked for.
fn layout_of(alloc: Global, options: &Options) -> Result<Layout, Refusal> {
    let format = options.format;
    let offset = options.offset.or(format.offset());
    let sector = options.sector.or(format.sector());
    format
        .plain()
        .layout(alloc, offset, sector, options.skew.as_slice())
        .map_err(refusal_of)
}

/// How a container of so many bytes is taken apart.
pub fn way_of(alloc: Global, options: &Options, bytes: usize) -> Result<Way, Refusal> {
    let format = options.format;
    if format.is_turning() {
        if options.offset.is_some() || options.sector.is_some() || !options.skew.is_empty() {
            return Err(Refusal::OwnOrder);
        }
        let pieces = Pieces::of_disk(alloc, bytes, format.sector().unwrap_or(SCREEN))?;
        return Ok(Way::Turned(pieces));
    }
    let layout = layout_of(alloc, options)?;
    if options.skew.is_empty() && format.is_in_turn() {
        return Ok(Way::After(layout.offset()));
    }
    if format.has_lines() {
        return Ok(Way::Lines(layout));
    }
    if layout.parts() == 2 {
        return Ok(Way::Shadowed(layout));
    }
    Ok(Way::Ordered(layout))
}

/// The container without padding that comes after its last pair of screens.
fn without_tail<'a>(layout: &Layout, container: &'a [u8]) -> &'a [u8] {
    let size = container.len().saturating_sub(layout.offset());
    let end = layout.offset().saturating_add(whole(size, 2 * SCREEN));
    if is_padding(from(container, end)) {
        before(container, end)
    } else {
        container
    }
}

/// Why a container has no whole screens.
fn cut_short(layout: &Layout, container: &[u8]) -> Refusal {
    let (offset, track) = (layout.offset(), layout.track());
    if container.len() < offset {
        return Refusal::ShortOffset { offset };
    }
    let bytes = container.len().saturating_sub(offset);
    if bytes % track != 0 {
        return Refusal::CutTrack { bytes, track };
    }
    if layout.parts() == 2 && bytes >= SCREEN {
        return Refusal::OddScreens;
    }
    Refusal::NoScreen
}

/// The screens of a layout.
fn read(alloc: Global, layout: &Layout, container: &[u8]) -> Result<Vec<u8>, Refusal> {
    match read_screens(alloc, layout, container) {
        Ok(screens) => Ok(screens),
        Err(containers::Cause::CutShort) => Err(cut_short(layout, container)),
        Err(cause) => Err(refusal_of(cause)),
    }
}

/// The container of a layout with these screens.
fn write(
    alloc: Global,
    layout: &Layout,
    screens: &[u8],
    container: &[u8],
) -> Result<Vec<u8>, Refusal> {
    let old = Vec::from_slice(alloc, container)?;
    write_screens(layout, screens, old).map_err(refusal_of)
}

/// What comes after the first bytes of another container.
fn with_tail(made: Vec<u8>, container: &[u8]) -> Result<Vec<u8>, AllocError> {
    let mut made = made;
    let tail = from(container, made.len());
    made.extend_from_slice(tail)?;
    Ok(made)
}

impl Way {
    /// The bytes of the screens; what is left after the last whole one is at their end.
    pub fn body(&self, alloc: Global, container: &[u8]) -> Result<Vec<u8>, Refusal> {
        match self {
            Way::Turned(pieces) => Ok(pieces.gathered(alloc, container)?),
            Way::After(offset) => Ok(Vec::from_slice(alloc, from(container, *offset))?),
            Way::Lines(layout) => {
                let lines = lined(alloc, layout, container)?;
                read(alloc, layout, lines.as_slice())
            }
            Way::Shadowed(layout) => read(alloc, layout, without_tail(layout, container)),
            Way::Ordered(layout) => read(alloc, layout, container),
        }
    }

    /// The container with these bytes in its screens' places.
    pub fn container(
        &self,
        alloc: Global,
        body: &[u8],
        container: &[u8],
    ) -> Result<Vec<u8>, Refusal> {
        match self {
            Way::Turned(pieces) => {
                let mut made = Vec::from_slice(alloc, container)?;
                pieces.scatter(body, made.as_mut_slice());
                Ok(made)
            }
            Way::After(offset) => {
                let mut made = Vec::from_slice(alloc, before(container, *offset))?;
                made.extend_from_slice(body)?;
                Ok(with_tail(made, container)?)
            }
            Way::Lines(layout) => {
                let lines = lined(alloc, layout, container)?;
                let made = write(alloc, layout, body, lines.as_slice())?;
                unlined(alloc, layout, container, made.as_slice())
            }
            Way::Shadowed(layout) => {
                let made = write(alloc, layout, body, without_tail(layout, container))?;
                Ok(with_tail(made, container)?)
            }
            Way::Ordered(layout) => write(alloc, layout, body, container),
        }
    }
}

/// A container whose two sides come in turn, with all of the first side first.
pub fn sides_apart(alloc: Global, container: &[u8], track: usize) -> Result<Vec<u8>, Refusal> {
    let tracks = Pieces::of_sides(alloc, container.len(), track)?;
    Ok(tracks.gathered(alloc, container)?)
}

/// The container that `sides_apart` makes apart.
pub fn sides_in_turn(alloc: Global, apart: &[u8], track: usize) -> Result<Vec<u8>, Refusal> {
    let tracks = Pieces::of_sides(alloc, apart.len(), track)?;
    let mut made = Vec::from_slice(alloc, apart)?;
    tracks.scatter(apart, made.as_mut_slice());
    Ok(made)
}
