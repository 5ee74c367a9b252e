//! In which order a disk's sectors are screens of source: each order is scored by what sources look like.

use crate::body::sides_apart;
use crate::bytes::{LINE, LINES, SCREEN, before, from, push_padded};
use crate::formats::Format;
use crate::pieces::Pieces;
use crate::refusal::Refusal;
use crate::scoring::{ONE, likeness, score, shown};
use std::alloc::{AllocError, Global};

/// How many bytes are scored.
const SAMPLE: usize = 32 * SCREEN;

/// How many bytes two orders must share to count as one.
const SAME: usize = 8 * SCREEN;

/// How many bytes may come before the first sector, if any do.
const OFFSETS: [usize; 4] = [2560, 4096, 6656, 8192];

/// How many bytes a track of two sides may have.
const SIDES: [usize; 6] = [2304, 2560, 3328, 4096, 4608, 5120];

/// How many bytes a sector may have, and how many of them are a track.
const TRACKS: [(usize, usize); 9] = [
    (128, 26),
    (128, 18),
    (256, 10),
    (256, 13),
    (256, 16),
    (256, 18),
    (512, 8),
    (512, 9),
    (512, 10),
];

/// How many bytes a record of a card or a wide screen has.
const WIDTH: usize = 80;

/// How many orders are shown.
const SHOWN: usize = 3;

/// An order of sectors that is tried.
#[derive(Clone, Copy, PartialEq, Eq)]
enum Order {
    /// That of a PDP-11's disk, with sectors of so many bytes.
    Turned(usize),
    /// Two sides in turn, with tracks of so many bytes.
    Sides(usize),
    /// Records, of which so many are a screen.
    Records(usize),
    /// As they are, after so many bytes.
    Plain(usize),
    /// Each some places after the one before, or the next that is free.
    Skewed {
        offset: usize,
        sector: usize,
        sectors: usize,
        interleave: usize,
    },
}

/// The first place from this one on, around a track, that no sector has.
fn free_place(order: &[usize], at: usize, sectors: usize) -> usize {
    for step in 0..sectors {
        let place = at.saturating_add(step).checked_rem(sectors).unwrap_or(0);
        if !order.iter().any(|taken| *taken == place) {
            return place;
        }
    }
    at
}

/// The sectors of a track in the order in which they are read, counted from 0.
fn skewed(alloc: Global, sectors: usize, interleave: usize) -> Result<Vec<usize>, AllocError> {
    let mut order = Vec::new(alloc);
    let mut at = 0usize;
    for _ in 0..sectors {
        let place = free_place(order.as_slice(), at, sectors);
        order.push(place)?;
        at = place
            .saturating_add(interleave)
            .checked_rem(sectors)
            .unwrap_or(0);
    }
    Ok(order)
}

/// The sectors of whole tracks in an order.
fn ordered(
    alloc: Global,
    bytes: &[u8],
    sector: usize,
    order: &[usize],
) -> Result<Vec<u8>, AllocError> {
    let pitch = sector.saturating_mul(order.len()).max(1);
    let mut made = Vec::new(alloc);
    for track in bytes.chunks(pitch).filter(|track| track.len() == pitch) {
        for number in order {
            let begin = number.saturating_mul(sector);
            made.extend_from_slice(before(from(track, begin), sector))?;
        }
    }
    Ok(made)
}

/// Records as screens of 16 lines of 64, of which so many are a screen; what is longer is left out.
fn of_records(alloc: Global, bytes: &[u8], lines: usize) -> Result<Vec<u8>, AllocError> {
    let mut made = Vec::new(alloc);
    for screen in bytes.chunks(lines.saturating_mul(WIDTH).max(1)) {
        let end = made.len().saturating_add(SCREEN);
        for record in screen.chunks(WIDTH).take(LINES) {
            push_padded(&mut made, before(record, LINE), LINE)?;
        }
        made.resize(end, b' ')?;
    }
    Ok(made)
}

/// The beginning of bytes that may not be so; none if they are not.
fn front(alloc: Global, bytes: Result<Vec<u8>, Refusal>) -> Result<Vec<u8>, AllocError> {
    match bytes {
        Ok(bytes) => Vec::from_slice(alloc, before(bytes.as_slice(), SAMPLE)),
        Err(_) => Ok(Vec::new(alloc)),
    }
}

/// The bytes of a PDP-11's disk in their order.
fn turned(alloc: Global, disk: &[u8], sector: usize) -> Result<Vec<u8>, Refusal> {
    let pieces = Pieces::of_disk(alloc, disk.len(), sector)?;
    Ok(pieces.gathered(alloc, disk)?)
}

impl Order {
    /// The first screens of a disk in this order.
    fn screens(self, alloc: Global, disk: &[u8]) -> Result<Vec<u8>, AllocError> {
        match self {
            Order::Turned(sector) => front(alloc, turned(alloc, disk, sector)),
            Order::Sides(track) => front(alloc, sides_apart(alloc, disk, track)),
            Order::Records(lines) => of_records(alloc, before(disk, SAMPLE), lines),
            Order::Plain(offset) => Vec::from_slice(alloc, before(from(disk, offset), SAMPLE)),
            Order::Skewed {
                offset,
                sector,
                sectors,
                interleave,
            } => {
                let order = skewed(alloc, sectors, interleave)?;
                let body = before(from(disk, offset), SAMPLE);
                ordered(alloc, body, sector, order.as_slice())
            }
        }
    }

    /// The options of `import` for this order.
    fn options(self, alloc: Global) -> Result<String, AllocError> {
        match self {
            Order::Turned(128) => String::from_str(alloc, "--format rx01"),
            Order::Turned(_) => String::from_str(alloc, "--format rx02"),
            Order::Sides(track) => format!(in alloc; "--format blocks --sides {track}"),
            Order::Records(lines) => format!(in alloc; "--width {WIDTH} --lines {lines}"),
            Order::Plain(0) => String::from_str(alloc, "--format blocks"),
            Order::Plain(offset) => format!(in alloc; "--format blocks --offset {offset}"),
            Order::Skewed {
                offset,
                sector,
                sectors,
                interleave,
            } => {
                let mut text = format!(in alloc;
                    "--format blocks --offset {offset} --sector {sector} --skew"
                )?;
                for (at, place) in skewed(alloc, sectors, interleave)?.iter().enumerate() {
                    let number = place.saturating_add(1);
                    text.push_str(if at == 0 { " " } else { "," })?;
                    text.push_str(format!(in alloc; "{number}")?.as_str())?;
                }
                Ok(text)
            }
        }
    }
}

/// Adds each order of the sectors after so many bytes.
fn push_skewed(orders: &mut Vec<Order>, offset: usize) -> Result<(), AllocError> {
    for (sector, sectors) in TRACKS {
        for interleave in 2..sectors {
            orders.push(Order::Skewed {
                offset,
                sector,
                sectors,
                interleave,
            })?;
        }
    }
    Ok(())
}

/// Each order that is tried. Of two that look equally like sources the first is shown, so the plainest comes first.
fn orders(alloc: Global) -> Result<Vec<Order>, AllocError> {
    let mut orders = Vec::new(alloc);
    orders.push(Order::Plain(0))?;
    orders.push(Order::Turned(128))?;
    orders.push(Order::Turned(256))?;
    for track in SIDES {
        orders.push(Order::Sides(track))?;
    }
    orders.push(Order::Records(24))?;
    orders.push(Order::Records(16))?;
    push_skewed(&mut orders, 0)?;
    for offset in OFFSETS {
        orders.push(Order::Plain(offset))?;
        push_skewed(&mut orders, offset)?;
    }
    Ok(orders)
}

/// An order with its score, and its first screens.
#[derive(Drop)]
struct Scored {
    order: Order,
    score: i32,
    screens: Vec<u8>,
}

/// Puts an order into those that are best. The best one comes first, and of several with one score the first. Of those with the same first
/// screens only the best one is kept.
fn put_in(best: &mut Vec<Scored>, new: Scored) -> Result<(), AllocError> {
    let front = before(new.screens.as_slice(), SAME);
    if front.is_empty()
        || best.iter().any(|known| {
            known.score >= new.score && before(known.screens.as_slice(), SAME) == front
        })
    {
        return Ok(());
    }
    best.retain(|known| before(known.screens.as_slice(), SAME) != front);
    let at = best.iter().filter(|known| known.score >= new.score).count();
    if at < SHOWN && at <= best.len() {
        best.insert(at, new)?;
    }
    best.truncate(SHOWN);
    Ok(())
}

/// The orders that look best, with their screens.
fn best(alloc: Global, disk: &[u8]) -> Result<Vec<Scored>, AllocError> {
    let mut best = Vec::new(alloc);
    for order in orders(alloc)? {
        let screens = order.screens(alloc, disk)?;
        let score = score(screens.as_slice());
        put_in(
            &mut best,
            Scored {
                order,
                score,
                screens,
            },
        )?;
    }
    Ok(best)
}

/// A score as a text with two digits after its point.
fn score_text(alloc: Global, score: i32) -> Result<String, AllocError> {
    let sign = if score < 0 { "-" } else { "" };
    let hundredths = score.unsigned_abs().saturating_add(50) / (ONE.unsigned_abs() / 100);
    let (whole, rest) = (hundredths / 100, hundredths % 100);
    let zero = if rest < 10 { "0" } else { "" };
    format!(in alloc; "{sign}{whole}.{zero}{rest}")
}

/// Adds the lines of a screen, with something before each, and points for what is not seen.
fn push_lines(text: &mut String, screen: &[u8]) -> Result<(), AllocError> {
    for line in screen.chunks(LINE) {
        let last = line
            .iter()
            .rposition(|byte| *byte != b' ')
            .map_or(0, |at| at.saturating_add(1));
        text.push_str("    ")?;
        for byte in before(line, last) {
            let is_seen = matches!(*byte, b' '..=b'~');
            text.push(if is_seen { char::from(*byte) } else { '.' })?;
        }
        text.push('\n')?;
    }
    Ok(())
}

/// The three orders of a disk's sectors that look most like screens of source, as options, each with its score and a screen.
pub fn show_orders(alloc: Global, disk: &[u8]) -> Result<String, AllocError> {
    let mut text = String::new(alloc);
    for found in &best(alloc, disk)? {
        let (options, score) = (found.order.options(alloc)?, score_text(alloc, found.score)?);
        text.push_str(format!(in alloc; "{options}    ({score} of 2)\n")?.as_str())?;
        push_lines(&mut text, shown(found.screens.as_slice()))?;
    }
    Ok(text)
}

/// A line that says in which order these sectors look clearly more like source than as they are, if they do, and if they are enough to judge
/// that.
pub fn better_order(alloc: Global, disk: &[u8]) -> Result<String, AllocError> {
    let had = score(before(disk, SAMPLE));
    if had >= ONE / 2 * 3 || disk.len() < SAME {
        return Ok(String::new(alloc));
    }
    let found = best(alloc, disk)?;
    match found.first() {
        Some(found) if found.score > had.saturating_add(ONE / 5 * 2) => {
            let (had, score) = (score_text(alloc, had)?, score_text(alloc, found.score)?);
            let options = found.order.options(alloc)?;
            format!(in alloc;
                "another order would read better ({score} of 2; this one has {had}): import it again with {options}\n"
            )
        }
        _ => Ok(String::new(alloc)),
    }
}

/// How much a file looks like source as it is, as a line.
pub fn show_likeness(alloc: Global, file: &[u8]) -> Result<String, AllocError> {
    let score = score_text(alloc, likeness(alloc, file)?)?;
    format!(in alloc; "{score}\n")
}
