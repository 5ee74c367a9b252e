//! Screens of a device as text.

ghost use Rattle.std.specs.Prelude.{◌≡◌, ◌+◌, ◌-◌, IfErr, IfOk, Ok, Some};
ghost use Rattle.block_buffers.specs.Calls.{KeepsBlocks};
ghost use Rattle.block_buffers.specs.Disks.{Disk, called};
ghost use Rattle.block_buffers.specs.Likeness.{DidAs, IsLike};
ghost use Rattle.device_text.specs.declared.pages.PageCause.{PageCause};
ghost use Rattle.device_text.specs.Pages.{Asks, IsTextOfRead, IsWhy, page, pages};

use block_buffers::{BLOCK_SIZE, Device};
use screen_text::screen_text;
use std::alloc::Global;
use thiserror::Error;

/// What is wrong with a screen that is to be printed.
#[derive(Clone, Copy, Debug, PartialEq, Eq, Drop, Error)]
pub enum PageCause {
    /// The screen doesn't exist, or can't be read.
    #[error("Device")]
    Device,
    /// There is no memory left.
    #[error("out of memory")]
    OutOfMemory,
}

/// Why screens aren't printed as text.
#[derive(Clone, Copy, Debug, PartialEq, Eq, Drop, Error)]
#[error("screen {screen}, line {line}: {cause}")]
pub struct Unprinted {
    pub screen: u16,
    /// The line of the screen, counted from 0; 0 if it is the whole screen.
    pub line: usize,
    pub cause: PageCause,
}

/// There is no memory left at a screen.
fn wanting(screen: u16) -> Unprinted
    ensures { result.cause ≡ PageCause.OutOfMemory }
{
    Unprinted {
        screen,
        line: 0,
        cause: PageCause::OutOfMemory,
    }
}

/// The text of a screen of a device.
fn page_text<D: Device>(alloc: Global, device: &mut D, screen: u16) -> Result<Vec<u8>, Unprinted>
    ensures text { IfOk result (λ v. (d e : Disk) →
        DidAs d e (D.block_count device.old) (D.calls device.old) (D.calls device.new) → page d screen ≡ Ok v.items) }
    ensures refused { IfErr result (λ why. (d e : Disk) →
        DidAs d e (D.block_count device.old) (D.calls device.old) (D.calls device.new) → IsWhy (page d screen) why) }
    ensures left { (d e : Disk) → DidAs d e (D.block_count device.old) (D.calls device.old) (D.calls device.new) →
        e ≡ called d }
    ensures like { (d : Disk) → D.disk device.old ≡ Some d →
        IsLike d (D.disk device.new) (D.block_count device.old) (D.calls device.old) (D.calls device.new) }
    ensures asked { Asks screen (D.block_count device.old) result (D.calls device.old) (D.calls device.new) }
    ensures counted { D.block_count device.new ≡ D.block_count device.old }
    ensures kept { KeepsBlocks (D.disk device.old) (D.disk device.new) }
{
    let _ = device.count();
    let mut bytes = [b' '; BLOCK_SIZE];
    match device.read(screen, &mut bytes) {
        Ok(()) => match screen_text(alloc, screen, &bytes) {
            Ok(text) => Ok(text),
            Err(_) => Err(wanting(screen)),
        },
        Err(_) => Err(Unprinted {
            screen,
            line: 0,
            cause: PageCause::Device,
        }),
    }
}

/// How many screens there are from `from` to `to`.
fn count_of(from: u16, to: u16) -> u32
    ensures { result ≡ to + 1 - from }
{
    (u32::from(to) + 1).saturating_sub(u32::from(from))
}

/// The text of the screens of a device, from `from` to `to`.
pub fn pages_text<D: Device>(
    alloc: Global,
    device: &mut D,
    from: u16,
    to: u16,
) -> Result<Vec<u8>, Unprinted>
    // Whatever the device is: the text is that of the pages that were read, each screen once, in order.
    ensures read { IfOk result (λ v. IsTextOfRead from (to + 1 - from) (D.block_count device.old) v.items
        (D.calls device.old) (D.calls device.new)) }
    // For each disk as which the device did, the text, or the refusal, is that of this disk's screens.
    ensures text { IfOk result (λ v. (d e : Disk) →
        DidAs d e (D.block_count device.old) (D.calls device.old) (D.calls device.new) →
        pages d from (to + 1 - from) ≡ Ok v.items) }
    ensures refused { IfErr result (λ why. (d e : Disk) →
        DidAs d e (D.block_count device.old) (D.calls device.old) (D.calls device.new) →
        IsWhy (pages d from (to + 1 - from)) why) }
    // A device that reports its disk did as that disk, and its blocks stay as they were.
    ensures like { (d : Disk) → D.disk device.old ≡ Some d →
        IsLike d (D.disk device.new) (D.block_count device.old) (D.calls device.old) (D.calls device.new) }
    ensures kept { KeepsBlocks (D.disk device.old) (D.disk device.new) }
{
    let _ = device.count();
    let mut text = Vec::new(alloc);
    for index in 0..count_of(from, to) {
        let screen = from + index as u16;
        let page = match page_text(alloc, device, screen) {
            Ok(page) => page,
            Err(why) => return Err(why),
        };
        match text.extend_from_slice(page.as_slice()) {
            Ok(()) => {}
            Err(_) => return Err(wanting(screen)),
        }
    }
    Ok(text)
}
