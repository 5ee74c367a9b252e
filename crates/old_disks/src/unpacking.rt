//! The blocks of a container.

ghost use Rattle.std.specs.Prelude.{◌≡◌, ◌<◌, ◌%◌, IfOk, length};

use crate::body::{sides_apart, way_of};
use crate::bytes::{MOST_SCREENS, SCREEN, from, is_padding, push_padded, trimmed, whole};
use crate::ebcdic::from_ebcdic;
use crate::formats::Format;
use crate::half::{HALF, widened};
use crate::listing::screens_of_text;
use crate::options::Options;
use crate::records::carded;
use crate::refusal::Refusal;
use crate::remark::Remark;
use std::alloc::{AllocError, Global};

/// The blocks of a container: the number of the first one, their bytes, and what is to be said of them.
#[derive(Drop)]
pub struct Unpacked {
    pub first: usize,
    pub blocks: Vec<u8>,
    pub remark: Option<Remark>,
}

/// Whether the ends of lines of a text have high bits.
fn has_high_ends(text: &[u8]) -> bool {
    text.iter().any(|byte| matches!(*byte, 0x8d | 0x8a))
}

/// The blocks of a text.
fn unpack_text(alloc: Global, container: &[u8], options: &Options) -> Result<Unpacked, Refusal> {
    let mut text = Vec::from_slice(alloc, container)?;
    if options.is_ebcdic {
        from_ebcdic(text.as_mut_slice());
    }
    if options.cleans && has_high_ends(text.as_slice()) {
        for byte in text.iter_mut() {
            *byte &= 127;
        }
    }
    let (named, blocks) = screens_of_text(alloc, text.as_slice())?;
    let first = if options.first > 0 {
        options.first
    } else {
        named
    };
    Ok(Unpacked {
        first,
        blocks,
        remark: None,
    })
}

/// Half screens as blocks.
fn of_halves(alloc: Global, body: &[u8], first: usize) -> Result<Unpacked, AllocError> {
    let rest = from(body, whole(body.len(), HALF));
    let remark = if is_padding(rest) {
        None
    } else {
        Some(Remark::HalfLeft { bytes: rest.len() })
    };
    Ok(Unpacked {
        first,
        blocks: widened(alloc, body)?,
        remark,
    })
}

/// Screens as blocks: padding after the last whole one is left out, and anything else is one more, filled with blanks.
fn of_screens(alloc: Global, body: Vec<u8>, first: usize) -> Result<Unpacked, AllocError> {
    let mut blocks = body;
    let even = whole(blocks.len(), SCREEN);
    let rest = Vec::from_slice(alloc, from(blocks.as_slice(), even))?;
    let bytes = rest.len();
    blocks.truncate(even);
    let remark = if bytes == 0 {
        None
    } else if is_padding(rest.as_slice()) {
        Some(Remark::Padding { bytes })
    } else {
        push_padded(&mut blocks, trimmed(rest.as_slice()), SCREEN)?;
        let screen = first.saturating_add(even / SCREEN);
        Some(Remark::Filled { bytes, screen })
    };
    Ok(Unpacked {
        first,
        blocks,
        remark,
    })
}

/// The blocks of a container that has the bytes of screens.
fn unpack_screens(alloc: Global, container: &[u8], options: &Options) -> Result<Unpacked, Refusal> {
    let way = way_of(alloc, options, container.len())?;
    let mut body = way.body(alloc, container)?;
    if options.is_ebcdic {
        from_ebcdic(body.as_mut_slice());
    }
    let first = options.first;
    if let Some(records) = options.records {
        return Ok(Unpacked {
            first,
            blocks: carded(alloc, body.as_slice(), records, first)?,
            remark: None,
        });
    }
    if options.is_half {
        return Ok(of_halves(alloc, body.as_slice(), first)?);
    }
    Ok(of_screens(alloc, body, first)?)
}

/// The blocks of a container, of whatever its format says that it is.
fn unpack_any(alloc: Global, container: &[u8], options: &Options) -> Result<Unpacked, Refusal> {
    if options.format == Format::Text {
        unpack_text(alloc, container, options)
    } else {
        unpack_screens(alloc, container, options)
    }
}

/// Its two sides, if they come in turn, one after the other; and then its blocks.
fn unpack_sides(alloc: Global, container: &[u8], options: &Options) -> Result<Unpacked, Refusal> {
    match options.side {
        Some(track) => {
            let apart = sides_apart(alloc, container, track)?;
            unpack_any(alloc, apart.as_slice(), options)
        }
        None => unpack_any(alloc, container, options),
    }
}

/// The blocks of a container that is read by these options: one or more, and none with a number above 65,535.
pub fn unpack(alloc: Global, container: &[u8], options: &Options) -> Result<Unpacked, Refusal>
    ensures whole { IfOk result (λ u. length u.blocks.items % 1024 ≡ 0) }
    ensures some { IfOk result (λ u. 0 < length u.blocks.items) }
{
    let mut unpacked = unpack_sides(alloc, container, options)?;
    if options.cleans {
        containers::clean(unpacked.blocks.as_mut_slice());
    }
    let bytes = unpacked.blocks.len();
    if bytes == 0 || bytes % SCREEN != 0 {
        return Err(Refusal::NoScreen);
    }
    if unpacked.first.saturating_add(bytes / SCREEN) > MOST_SCREENS {
        return Err(Refusal::TooLarge);
    }
    Ok(unpacked)
}
