//! Blocks put back into a container.

ghost use Rattle.std.specs.Prelude.{◌≡◌, IfOk, length};

use crate::body::{sides_apart, sides_in_turn, way_of};
use crate::bytes::{SCREEN, before, from, is_blank, trimmed, whole};
use crate::ebcdic::to_ebcdic;
use crate::formats::Format;
use crate::half::{HALF, narrowed};
use crate::options::Options;
use crate::refusal::Refusal;
use crate::remark::Remark;
use std::alloc::{AllocError, Global};
use survey_tables::SUMS;

/// A container with blocks in it, as long as it was, and what is to be said of them.
#[derive(Drop)]
pub struct Packed {
    pub container: Vec<u8>,
    pub remark: Option<Remark>,
}

/// A sum of bytes by which the screens of dialects are known: FNV-1a with 64 bits.
fn sum_of(bytes: &[u8]) -> u64 {
    bytes.iter().fold(0xcbf2_9ce4_8422_2325, |sum: u64, byte| {
        (sum ^ u64::from(*byte)).wrapping_mul(0x0000_0100_0000_01b3)
    })
}

/// Whether a screen need not go back: it is blank, or a dialect's.
fn is_spare(screen: &[u8]) -> bool {
    screen.iter().all(|byte| matches!(*byte, 0 | b' '))
        || SUMS.binary_search(&sum_of(screen)).is_ok()
}

/// As many of the screens as fit into the room, in bytes, if the others need not go back.
fn fitted(screens: &[u8], room: usize, first: usize) -> Result<(&[u8], Option<Remark>), Refusal> {
    let held = room.div_ceil(SCREEN);
    let end = held.saturating_mul(SCREEN);
    if !is_blank(from(before(screens, end), room)) {
        let screen = first.saturating_add(held.saturating_sub(1));
        return Err(Refusal::LongText { screen });
    }
    let others = from(screens, end);
    if !others.chunks(SCREEN).all(is_spare) {
        let screens = screens.len() / SCREEN;
        return Err(Refusal::NoRoom { held, screens });
    }
    let screen = first.saturating_add(held);
    let remark = if others.is_empty() {
        None
    } else {
        Some(Remark::Spare { screen })
    };
    Ok((before(screens, room), remark))
}

/// The bytes of the last screen, which is not whole, in place of the old ones: their padding stays if nothing is written over it.
fn push_last(made: &mut Vec<u8>, old: &[u8], new: &[u8]) -> Result<(), AllocError> {
    let held = trimmed(old).len();
    if is_blank(from(new, held)) {
        made.extend_from_slice(before(new, held))?;
        made.extend_from_slice(from(old, held))
    } else {
        made.extend_from_slice(new)
    }
}

/// The bytes of a container's screens with others in their place, from the first one on.
fn replaced(alloc: Global, body: &[u8], screens: &[u8]) -> Result<Vec<u8>, AllocError> {
    let even = whole(screens.len(), SCREEN);
    let mut made = Vec::from_slice(alloc, before(screens, even))?;
    let old = from(before(body, screens.len()), even);
    push_last(&mut made, old, from(screens, even))?;
    let behind = from(body, made.len());
    made.extend_from_slice(behind)?;
    Ok(made)
}

/// The screens as the container has them: half ones, and in its letters.
fn encoded(
    alloc: Global,
    screens: &[u8],
    body: usize,
    options: &Options,
) -> Result<(Vec<u8>, Option<Remark>), Refusal> {
    let room = if options.is_half {
        (body / HALF).saturating_mul(SCREEN)
    } else {
        body
    };
    let (kept, remark) = fitted(screens, room, options.first)?;
    let mut made = if options.is_half {
        narrowed(alloc, kept, options.first)?
    } else {
        Vec::from_slice(alloc, kept)?
    };
    if options.is_ebcdic {
        to_ebcdic(made.as_mut_slice());
    }
    Ok((made, remark))
}

/// A container, its sides one after the other, with these screens in it.
fn pack_screens(
    alloc: Global,
    screens: &[u8],
    container: &[u8],
    options: &Options,
) -> Result<Packed, Refusal> {
    let way = way_of(alloc, options, container.len())?;
    let body = way.body(alloc, container)?;
    let (screens, remark) = encoded(alloc, screens, body.len(), options)?;
    let body = replaced(alloc, body.as_slice(), screens.as_slice())?;
    Ok(Packed {
        container: way.container(alloc, body.as_slice(), container)?,
        remark,
    })
}

/// A container, its two sides in turn if they are, with these screens in it.
fn pack_sides(
    alloc: Global,
    screens: &[u8],
    container: &[u8],
    options: &Options,
) -> Result<Packed, Refusal> {
    let Some(track) = options.side else {
        return pack_screens(alloc, screens, container, options);
    };
    let apart = sides_apart(alloc, container, track)?;
    let packed = pack_screens(alloc, screens, apart.as_slice(), options)?;
    Ok(Packed {
        container: sides_in_turn(alloc, packed.container.as_slice(), track)?,
        remark: packed.remark,
    })
}

/// A container with blocks in it, from the first screen of the options on, as long as it was. A text is not written.
pub fn pack(
    alloc: Global,
    blocks: &[u8],
    container: &[u8],
    options: &Options,
) -> Result<Packed, Refusal>
    ensures { IfOk result (λ p. length p.container.items ≡ length container.now) }
{
    if options.format == Format::Text || options.records.is_some() {
        return Err(Refusal::IsText);
    }
    if blocks.len() % SCREEN != 0 {
        return Err(Refusal::CutBlock);
    }
    let screens = from(blocks, options.first.saturating_mul(SCREEN));
    let packed = pack_sides(alloc, screens, container, options)?;
    if packed.container.len() != container.len() {
        return Err(Refusal::LineBehind);
    }
    Ok(packed)
}
