//! A source built to an image.

ghost use Rattle.std.specs.Prelude.{◌≡◌, ℕ, ◌≤◌, ◌⊎◌, [], List, Some, IfOk, IfErr, vec_len};
ghost use Rattle.block_buffers.specs.Disks.{Disk};
ghost use Rattle.block_buffers.specs.Likeness.{IsLike};
ghost use Rattle.memory.specs.Bytes.{IsCount, limit_of};
ghost use Rattle.image_builder.specs.Places.{Place};
ghost use Rattle.image_builder.specs.Faults.{IsFault};
ghost use Rattle.image_builder.specs.Grammar.{IsLimit};
ghost use Rattle.image_builder.specs.Built.{Building};
ghost use Rattle.image_builder.specs.State.{IsRead, IsBuilt, tells_whole};
ghost use Rattle.image_builder.specs.Sources.{ForDevice, IsBuiltOf, IsBuiltOfRead, IsRefused};
ghost use Rattle.image_builder.specs.ReadScreens.{Holds};
ghost use Rattle.image_builder.specs.declared.cause.Cause.TheVariants as c;

use crate::cause::{BuildFault, Cause};
use crate::image::{start, whole_image};
use crate::reading::{Compilation, Stop, read_screens};
use crate::state::{Begun, Build};
use block_buffers::{BLOCK_SIZE, Device};
use image_loader::Image;
use memory::limit_of;
use std::alloc::Global;

/// A fault after the last word.
fn behind(last: u16, cause: Cause) -> BuildFault
    ensures { (result.screen ≡ last) × (result.offset ≡ 1024) × (result.cause ≡ cause) }
{
    BuildFault {
        screen: last,
        offset: BLOCK_SIZE as u16,
        cause,
    }
}

/// Whether nothing is started of an item.
fn is_whole(begun: &Begun) -> bool
    ensures { result ≡ tells_whole begun.now }
{
    matches!(begun, Begun::Whole)
}

/// What comes of a source that was read to its end: the image's bytes and the entry.
fn end(alloc: Global, b: &Build, begun: &Begun, last: u16) -> Result<(Vec<u8>, u16), BuildFault>
    requires { Building b.now }
    ensures built { (limit : ℕ) (source : List Place) → IsRead limit b.now begun.now source →
        IfOk result (λ r. IsBuilt limit source r.0.items r.1) }
    ensures refused { (limit : ℕ) (source : List Place) → IsRead limit b.now begun.now source →
        IfErr result (λ f. IsFault limit source last f.screen f.offset f.cause) }
    ensures kind { IfErr result (λ f. (f.cause ≡ c.EndsInside) ⊎ (f.cause ≡ c.NoBoot) ⊎ (f.cause ≡ c.OutOfMemory)) }
    ensures size { IfOk result (λ r. (256 ≤ vec_len r.0) × (vec_len r.0 ≤ b.now.limit)) }
{
    if !is_whole(begun) {
        return Err(behind(last, Cause::EndsInside));
    }
    match b.boot {
        None => Err(behind(last, Cause::NoBoot)),
        Some(entry) => match whole_image(alloc, b) {
            Ok(bytes) => Ok((bytes, entry)),
            Err(cause) => Err(behind(last, cause)),
        },
    }
}

/// A source of which no word was taken yet, whose image ends at the limit at the latest.
fn begin(alloc: Global, limit: u16) -> Result<Compilation, Cause>
    requires { IsLimit limit }
    ensures none { IfOk result (λ k. Holds k.build.limit k []) }
    ensures limit { IfOk result (λ k. k.build.limit ≡ limit) }
    ensures memory { IfErr result (λ e. e ≡ c.OutOfMemory) }
{
    let build = start(alloc, limit)?;
    Ok(Compilation {
        build,
        begun: Begun::Whole,
    })
}

/// Builds the source in the screens from `from` to `to` of a device to an image, whose entry is the word that BOOT names.
/// It is an image for `count` block buffers, 2 to 16, and ends where these begin at the latest.
///
/// One screen at a time is read and kept. Each is read once at most, in order, and none after the one that decides. Where
/// the source isn't good the answer is its first fault: the first word that has a cause, with the first of its causes in the
/// order of `Cause`. `EndsInside` and `NoBoot` are reported for the last screen, after its last byte, also if `from` is above
/// `to`. `Device` is reported for byte 0 of a screen that isn't the device's, or that couldn't be read, and comes only if no
/// word of the screens before is at fault. `OutOfMemory` is reported for byte 0 of the first screen.
pub fn build<D: Device>(
    alloc: Global,
    device: &mut D,
    from: u16,
    to: u16,
    count: u16,
) -> Result<Image, BuildFault>
    requires { IsCount count }
    // Whatever the device is: its image is that of the pages that were read, each screen once, in order.
    ensures read { IfOk result (λ i.
        IsBuiltOfRead count (D.block_count device.old) from to i (D.calls device.old) (D.calls device.new)) }

    // For each disk as which the device did, the image, or the refusal, is that of this disk's screens.
    ensures built { ForDevice D.Device device.old device.new (λ d done.
        IfOk result (λ i. IsBuiltOf count d from to i done)) }
    ensures refused { ForDevice D.Device device.old device.new (λ d done.
        IfErr result (λ f. IsRefused (limit_of count) d from to f done)) }

    // A device that reports its disk did as that disk.
    ensures like { (d : Disk) → D.disk device.old ≡ Some d →
        IsLike d (D.disk device.new) (D.block_count device.old) (D.calls device.old) (D.calls device.new) }
{
    let _ = device.count();
    let mut compilation = match begin(alloc, limit_of(count)) {
        Ok(compilation) => compilation,
        Err(_) => {
            return Err(BuildFault {
                screen: from,
                offset: 0,
                cause: Cause::OutOfMemory,
            });
        }
    };
    if let Err(stop) = read_screens(&mut compilation, device, from, to) {
        return Err(stop.refusal(from));
    }
    match end(alloc, &compilation.build, &compilation.begun, to) {
        Ok((bytes, entry)) => Ok(Image::new(count, entry, bytes)),
        Err(fault) => Err(Stop::Word(fault).refusal(from)),
    }
}
