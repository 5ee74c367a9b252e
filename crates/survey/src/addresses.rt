//! Addresses of another machine, and bytes of cells.

ghost use Rattle.std.specs.Prelude.{◌≡◌, None, true};

use crate::numbers::{Number, value};
use crate::source::{Place, Source};
use std::alloc::{AllocError, Global};
use survey_tables::has;

/// Words that fetch or store.
const ACCESS: &[u8] = b"@ ! C@ C! +! 2@ 2!";

/// The words with which a program computes an address from another one.
const COMPUTING: &[u8] = b"+ - * 2* OR SWAP DUP";

/// A name that stands for an address.
#[derive(Clone, Copy)]
struct Named<'a> {
    name: &'a [u8],
    number: Number,
}

/// The address that a word stands for: a number, a constant, or a word that computes it.
fn address(place: &Place<'_>, named: &[Named<'_>]) -> Option<Number> {
    match named.iter().rev().find(|one| one.name == place.word) {
        Some(one) => Some(one.number),
        None => value(place.word, place.base),
    }
}

/// What comes before the end of a definition, or before CONSTANT.
#[derive(Clone, Copy)]
struct Body<'a> {
    name: &'a [u8],
    /// How many words.
    count: usize,
    /// Whether each of them is an address or computes.
    is_computing: bool,
    /// The last of them.
    last: Option<Number>,
    /// The largest address.
    most: u32,
}

impl<'a> Body<'a> {
    fn new(name: &'a [u8]) -> Body<'a>
        ensures nothing { (result.count ≡ 0) × (result.most ≡ 0) × (result.last ≡ None) }
        ensures computing { result.is_computing ≡ true }
    {
        Body {
            name,
            count: 0,
            is_computing: true,
            last: None,
            most: 0,
        }
    }

    /// With one word more.
    fn with(self, number: Option<Number>) -> Body<'a> {
        let most = match number {
            Some(number) => self.most.max(number.above_0()),
            None => self.most,
        };
        Body {
            count: self.count.saturating_add(1),
            is_computing: self.is_computing && number.is_some(),
            last: number,
            most,
            ..self
        }
    }
}

/// The number that a word with no more than these does: 0 for one that computes.
fn number_of(place: &Place<'_>, named: &[Named<'_>]) -> Option<Number> {
    if has(COMPUTING, place.word) {
        return Some(Number {
            is_negative: false,
            size: 0,
        });
    }
    address(place, named)
}

/// The constants, and the words that do no more than compute an address from a number: what they begin with.
fn named_addresses<'a>(alloc: Global, source: &Source<'a>) -> Result<Vec<Named<'a>>, AllocError> {
    let mut named = Vec::new(alloc);
    let mut body = Body::new(b"");
    for place in source.places.iter() {
        let is_address = body.count < 8 && body.is_computing && body.most > 255;
        match (place.word, body.last) {
            (b":", _) => body = Body::new(place.name),
            (b"CONSTANT", Some(number)) if number.size != 0 => named.push(Named {
                name: place.name,
                number,
            })?,
            (b";", _) if is_address => {
                let number = Number {
                    is_negative: false,
                    size: body.most,
                };
                named.push(Named {
                    name: body.name,
                    number,
                })?;
            }
            (b"(", _) => {}
            _ => body = body.with(number_of(place, named.as_slice())),
        }
    }
    Ok(named)
}

/// Whether a word stands for an address beyond the first 256.
fn is_address(place: &Place<'_>, named: &[Named<'_>]) -> bool {
    named.iter().any(|one| one.name == place.word)
        || matches!(value(place.word, place.base), Some(number) if number.above_0() > 255)
}

/// The word that has the address, if the one before an access may compute it from the two before.
fn addressing<'a>(source: &Source<'a>, index: usize, named: &[Named<'_>]) -> Option<Place<'a>> {
    let place = source.at(index);
    if !has(b"+ - OR", place.word) {
        return Some(place);
    }
    let before = source
        .places
        .get(index.saturating_sub(2)..index)
        .unwrap_or(&[]);
    before
        .iter()
        .rev()
        .find(|place| is_address(place, named))
        .copied()
}

/// An address, and where it is used.
#[derive(Clone, Copy)]
pub struct AddressUse<'a> {
    pub place: Place<'a>,
    pub at: u32,
}

/// Where a program fetches or stores at an address of its machine, and which that is.
pub fn addresses<'a>(
    alloc: Global,
    source: &Source<'a>,
) -> Result<Vec<AddressUse<'a>>, AllocError> {
    let named = named_addresses(alloc, source)?;
    let mut found = Vec::new(alloc);
    for (index, access) in source.places.iter().skip(1).enumerate() {
        let is_ticked = index > 0 && has(b"' [']", source.at(index.saturating_sub(1)).word);
        if !has(ACCESS, access.word) || is_ticked {
            continue;
        }
        if let Some(place) = addressing(source, index, named.as_slice()) {
            if let Some(number) = address(&place, named.as_slice()) {
                found.push(AddressUse {
                    place,
                    at: number.low(),
                })?;
            }
        }
    }
    Ok(found)
}

/// Whether the source makes this variable, and uses it as a cell.
fn is_cell(source: &Source<'_>, word: &[u8]) -> bool {
    let places = source.places.as_slice();
    let is_made = places.iter().any(|place| matches!(place.word, b"VARIABLE")
        && place.name == word);
    is_made
        && places
            .iter()
            .zip(places.iter().skip(1))
            .any(|(a, b)| a.word == word && has(b"@ ! +!", b.word))
}

/// Whether the words after a variable fetch or store one byte of it.
fn is_half(next: &[u8], third: &[u8]) -> bool {
    has(b"C@ C!", next) || matches!(next, b"1+") && has(b"C@ C!", third)
}

/// Where a program fetches one byte of a variable that it also uses as a cell: which one that is depends on the processor.
pub fn halves<'a>(alloc: Global, source: &Source<'a>) -> Result<Vec<Place<'a>>, AllocError> {
    let mut found = Vec::new(alloc);
    for (index, place) in source.places.iter().enumerate() {
        let (next, third) = (
            source.at(index.saturating_add(1)),
            source.at(index.saturating_add(2)),
        );
        if is_half(next.word, third.word) && is_cell(source, place.word) {
            found.push(*place)?;
        }
    }
    Ok(found)
}
