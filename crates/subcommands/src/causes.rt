//! How refusals are spelled where they are printed. What a derived `Display` writes is known to no clause, so the program spells
//! them itself, and clauses know what it prints. No memory is wanted for it.

ghost use Rattle.std.specs.Prelude.{ℕ, List, OnOk};
ghost use Rattle.std.specs.Io.KnownBytes.{Appends};
ghost use Rattle.inner_interpreter.specs.Ends.{Marks};
ghost use Rattle.subcommands.specs.Causes.{image_cause, build_cause, view_cause, see_cause, upgrade_cause};

use crate::sends::send_numbered;
use image_builder::Cause;
use image_loader::{ImageFault, UpgradeFault};
use inner_interpreter::{EndFault, Output, send_all};
use see::{SeeRefused, ViewRefused};

/// Why something is refused.
pub trait Reason {
    /// How the cause is spelled.
    ghost spelling: { Self → List ℕ };

    /// Sends the cause as text.
    fn send<W: Output>(&self, writer: &mut W) -> Result<(), EndFault>
        ensures sent { OnOk result (Appends (W.sent writer.old) (W.sent writer.new) (spelling self.now)) }
        ensures mark { Marks (W.failed writer.old) (W.failed writer.new) result };
}

impl Reason for ImageFault {
    ghost spelling = { λ f. image_cause f };

    fn send<W: Output>(&self, writer: &mut W) -> Result<(), EndFault> {
        match *self {
            ImageFault::Truncated => send_all(writer, b"Truncated"),
            ImageFault::BadMagic => send_all(writer, b"BadMagic"),
            ImageFault::BadVersion => send_all(writer, b"BadVersion"),
            ImageFault::BadBuffers => send_all(writer, b"BadBuffers"),
            ImageFault::BadSize => send_all(writer, b"BadSize"),
            ImageFault::TrailingBytes => send_all(writer, b"TrailingBytes"),
            ImageFault::OutOfMemory => send_all(writer, b"OutOfMemory"),
        }
    }
}

impl Reason for UpgradeFault {
    ghost spelling = { λ f. upgrade_cause f };

    fn send<W: Output>(&self, writer: &mut W) -> Result<(), EndFault> {
        match *self {
            UpgradeFault::TooLarge => send_all(writer, b"TooLarge"),
            UpgradeFault::OutOfMemory => send_all(writer, b"OutOfMemory"),
        }
    }
}

impl Reason for Cause {
    ghost spelling = { λ c. build_cause c };

    fn send<W: Output>(&self, writer: &mut W) -> Result<(), EndFault> {
        match *self {
            Cause::OutOfMemory => send_all(writer, b"out of memory"),
            Cause::EndsInside => send_all(writer, b"EndsInside"),
            Cause::BadNumber => send_all(writer, b"BadNumber"),
            Cause::BadPrimitive => send_all(writer, b"BadPrimitive"),
            Cause::Misplaced => send_all(writer, b"Misplaced"),
            Cause::Unbalanced => send_all(writer, b"Unbalanced"),
            Cause::Unknown => send_all(writer, b"Unknown"),
            Cause::BadName => send_all(writer, b"BadName"),
            Cause::Full => send_all(writer, b"Full"),
            Cause::NoBoot => send_all(writer, b"NoBoot"),
            Cause::Device => send_all(writer, b"Device"),
        }
    }
}

impl Reason for ViewRefused {
    ghost spelling = { λ r. view_cause r };

    fn send<W: Output>(&self, writer: &mut W) -> Result<(), EndFault> {
        match *self {
            ViewRefused::NotFound => send_all(writer, b"NotFound"),
            ViewRefused::ChainTooLong => send_all(writer, b"ChainTooLong"),
        }
    }
}

impl Reason for SeeRefused {
    ghost spelling = { λ r. see_cause r };

    fn send<W: Output>(&self, writer: &mut W) -> Result<(), EndFault> {
        match *self {
            SeeRefused::NotFound => send_all(writer, b"NotFound"),
            SeeRefused::ChainTooLong => send_all(writer, b"ChainTooLong"),
            SeeRefused::NotColon => send_all(writer, b"NotColon"),
            SeeRefused::NotStructured => send_all(writer, b"NotStructured"),
            SeeRefused::Nameless(cell) => send_numbered(writer, b"Nameless ", cell),
            SeeRefused::Shadowed => send_all(writer, b"Shadowed"),
            SeeRefused::BadText => send_all(writer, b"BadText"),
            SeeRefused::OutOfMemory => send_all(writer, b"OutOfMemory"),
        }
    }
}
