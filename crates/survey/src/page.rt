//! A text that is made of pieces.

ghost use Rattle.std.specs.Prelude.{◌≡◌, ◌++◌, [], OnOk};
ghost use Rattle.survey.specs.Between as list;

use crate::source::Place;
use std::alloc::{AllocError, Global};

/// A piece of a text.
#[derive(Clone, Copy)]
pub enum Piece<'a> {
    /// Bytes.
    Text(&'a [u8]),
    /// Bytes, and blanks up to a width.
    Left(&'a [u8], usize),
    /// The first bytes of a text up to a width, and two dots in place of the words after them.
    Cut(&'a [u8], usize),
    Number(usize),
    /// A number, with blanks before it up to a width.
    Right(usize, usize),
    /// The four digits of an address.
    Address(u32),
}

/// A text.
#[derive(Drop)]
pub struct Page {
    pub text: Vec<u8>,
    alloc: Global,
}

impl Page {
    /// An empty one.
    pub fn new(alloc: Global) -> Page
        ensures { result.text.items ≡ [] }
    {
        Page {
            text: Vec::new(alloc),
            alloc,
        }
    }

    /// Where its memory comes from.
    pub fn alloc(&self) -> Global {
        self.alloc
    }

    /// Adds bytes.
    pub fn put(&mut self, bytes: &[u8]) -> Result<(), AllocError>
        ensures { OnOk result (self.new.text.items ≡ self.old.text.items ++ bytes.now) }
    {
        self.text.extend_from_slice(bytes)
    }

    /// Adds pieces, one after another.
    pub fn put_all(&mut self, pieces: &[Piece<'_>]) -> Result<(), AllocError> {
        for piece in pieces {
            self.put_piece(*piece)?;
        }
        Ok(())
    }

    /// Adds a piece.
    fn put_piece(&mut self, piece: Piece<'_>) -> Result<(), AllocError> {
        match piece {
            Piece::Text(bytes) => self.put(bytes),
            Piece::Left(bytes, width) => self.put_left(bytes, width),
            Piece::Cut(text, width) => self.put_cut(text, width),
            Piece::Number(number) => self.put_number(number),
            Piece::Right(number, width) => self.put_right(number, width),
            Piece::Address(at) => self.put_address(at),
        }
    }

    /// Adds bytes, and blanks up to a width.
    fn put_left(&mut self, bytes: &[u8], width: usize) -> Result<(), AllocError> {
        self.put(bytes)?;
        for _ in bytes.len()..width {
            self.put(b" ")?;
        }
        Ok(())
    }

    /// Adds a number.
    pub fn put_number(&mut self, number: usize) -> Result<(), AllocError> {
        let digits = format!(in self.alloc; "{number}")?;
        self.put(digits.as_bytes())
    }

    /// Adds a number, with blanks before it up to a width.
    fn put_right(&mut self, number: usize, width: usize) -> Result<(), AllocError> {
        let digits = format!(in self.alloc; "{number}")?;
        for _ in digits.len()..width {
            self.put(b" ")?;
        }
        self.put(digits.as_bytes())
    }

    /// Adds the four digits of an address.
    fn put_address(&mut self, at: u32) -> Result<(), AllocError> {
        let digits = format!(in self.alloc; "{at:04X}")?;
        self.put(digits.as_bytes())
    }

    /// Adds what comes between items, from the second one on.
    pub fn put_between(&mut self, index: usize, between: &[u8]) -> Result<(), AllocError>
        ensures { OnOk result (self.new.text.items ≡ self.old.text.items ++ list.between index between.now) }
    {
        if index > 0 { self.put(between) } else { Ok(()) }
    }

    /// Adds the first bytes of a text up to a width, and two dots in place of the words after them.
    fn put_cut(&mut self, text: &[u8], width: usize) -> Result<(), AllocError> {
        let Some(front) = text.get(..width) else {
            return self.put(text);
        };
        if front.len() == text.len() {
            return self.put(text);
        }
        let end = front
            .iter()
            .rposition(|byte| *byte == b' ')
            .unwrap_or(front.len());
        self.put(front.get(..end).unwrap_or(front))?;
        self.put(b" ..")
    }

    /// Adds where places are, each line once: `3:1 3:4 7:0`, screen and line.
    pub fn put_spots(&mut self, places: &[Place<'_>], most: usize) -> Result<(), AllocError> {
        let mut shown: Vec<(usize, usize)> = Vec::new(self.alloc);
        for place in places {
            let spot = (place.screen, place.line);
            if shown.contains(&spot) {
                continue;
            }
            if shown.len() < most {
                self.put_between(shown.len(), b" ")?;
                self.put_all(&[
                    Piece::Number(spot.0),
                    Piece::Text(b":"),
                    Piece::Number(spot.1),
                ])?;
            }
            shown.push(spot)?;
        }
        if shown.len() > most {
            let more = shown.len() - most;
            self.put_all(&[
                Piece::Text(b" and "),
                Piece::Number(more),
                Piece::Text(b" more"),
            ])?;
        }
        Ok(())
    }
}
