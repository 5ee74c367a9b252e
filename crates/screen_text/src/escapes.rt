//! Lines with bytes that are no text.

ghost use Rattle.std.specs.Prelude.{◌≡◌, ◌≤◌, ◌<◌, IfOk, MatchOption, OnOk, ◌++◌, true, false};
ghost use Rattle.screen_text.specs.Escapes.{Unescaped, digit, escaped, escaped_byte, has_sign, is_plain, is_whole, unescaped, value, with_character};

use crate::bytes::is_text;
use std::alloc::{AllocError, Global};
use std::marker::Model;

/// A digit of base 16.
#[tactic(auto, unfolding(crate::specs::Escapes::digit))]
fn digit(number: u8) -> u8
    requires { number < 16 }
    ensures { result ≡ digit number }
{
    if number < 10 {
        48 + number
    } else {
        55 + number
    }
}

/// Whether a byte stands for itself.
#[tactic(auto, unfolding(crate::specs::Escapes::is_plain))]
fn is_plain(byte: u8) -> bool
    ensures { result ≡ is_plain byte }
{
    is_text(byte) && byte != b'~'
}

/// Adds a byte of a line, as it is or as `~` and two digits.
#[tactic(auto, unfolding(crate::specs::Escapes::escaped_byte))]
fn push_byte(text: &mut Vec<u8>, byte: u8) -> Result<(), AllocError>
    ensures { OnOk result (text.new.items ≡ text.old.items ++ escaped_byte byte) }
{
    if is_plain(byte) {
        text.push(byte)?;
        return Ok(());
    }
    text.push(b'~')?;
    text.push(digit(byte / 16))?;
    text.push(digit(byte % 16))?;
    Ok(())
}

/// Adds a line by escapes.
#[tactic(auto, unfolding(crate::specs::Escapes::escaped))]
pub fn push_escaped(text: &mut Vec<u8>, line: &[u8]) -> Result<(), AllocError>
    ensures { OnOk result (text.new.items ≡ text.old.items ++ escaped line.now) }
{
    text.push(b'%')?;
    text.push(b'~')?;
    for byte in line {
        push_byte(text, *byte)?;
    }
    Ok(())
}

/// Whether a line begins with `~`.
#[tactic(auto, unfolding(crate::specs::Escapes::has_sign))]
pub fn has_sign(line: &[u8]) -> bool
    ensures { result ≡ has_sign line.now }
{
    match line.first() {
        Some(byte) => *byte == b'~',
        None => false,
    }
}

/// What a digit of base 16 comes to, 16 for what is none.
#[tactic(auto, unfolding(crate::specs::Escapes::value))]
fn value(character: u8) -> u8
    ensures value { result ≡ value character }
    ensures bound { result ≤ 16 }
{
    match character {
        b'0'..=b'9' => character - 48,
        b'A'..=b'F' => character - 55,
        _ => 16,
    }
}

/// What is read of a line so far.
#[derive(Drop)]
struct Reading {
    bytes: Vec<u8>,
    /// 0, 1 after a `~`, or 2 and more after its first digit.
    begun: u8,
    is_good: bool,
}

impl Model for Reading {
    ghost use Rattle.std.specs.Prelude.{◌≤◌};
    ghost use Rattle.screen_text.specs.Escapes.{Unescaped};

    ghost Value = { Unescaped };

    ghost view = { λ r. record { bytes = r.bytes.items; begun = r.begun; good = r.is_good } };

    ghost invariant = { λ r. r.begun ≤ 17 };
}

impl Reading {
    /// Takes a character.
    #[tactic(auto, unfolding(crate::specs::Escapes::with_character))]
    fn take(&mut self, character: u8) -> Result<(), AllocError>
        ensures { OnOk result (self.new ≡ with_character self.old character) }
    {
        if self.begun == 0 {
            if character == b'~' {
                self.begun = 1;
                return Ok(());
            }
            self.bytes.push(character)?;
            return Ok(());
        }
        let number = value(character);
        if number >= 16 {
            self.is_good = false;
            return Ok(());
        }
        if self.begun == 1 {
            self.begun = 2 + number;
            return Ok(());
        }
        self.bytes.push(16 * (self.begun - 2) + number)?;
        self.begun = 0;
        Ok(())
    }
}

/// The bytes of a line with escapes. `None`: a `~` doesn't have its two digits.
#[tactic(auto, unfolding(crate::specs::Escapes::unescaped, crate::specs::Escapes::is_whole))]
pub fn unescaped(alloc: Global, text: &[u8]) -> Result<Option<Vec<u8>>, AllocError>
    ensures { IfOk result (λ r. MatchOption r (is_whole (unescaped text.now) ≡ false)
        (λ v. (is_whole (unescaped text.now) ≡ true) × (v.items ≡ (unescaped text.now).bytes))) }
{
    let mut reading = Reading {
        bytes: Vec::new(alloc),
        begun: 0,
        is_good: true,
    };
    for character in text {
        reading.take(*character)?;
    }
    if reading.is_good && reading.begun == 0 {
        Ok(Some(reading.bytes))
    } else {
        Ok(None)
    }
}
