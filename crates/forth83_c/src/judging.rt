//! The judging of what a pupil wrote for the lessons of a course.

ghost use Rattle.std.specs.Prelude.{◌≡◌, ◌≢◌, ◌<◌, ◌≤◌, ◌+◌, ◌⊎◌, length, drop};
ghost use Rattle.image_loader.specs.Files.{Contents, IsFile, IsCutShort, IsFollowed, HasBadMagic, HasBadVersion, HasBadBuffers, HasBadSize};
ghost use Rattle.forth83_c.specs.Judged.{fault_code};

use crate::showing::put;
use image_loader::{Image, ImageFault};
use lessons::{JudgedFiles, Progress, judge_next};
use std::alloc::Global;

/// Numbers of the header.
const DONE: u32 = 0;

const OUT_OF_MEMORY: u32 = 2;

const SHORT_ROOM: u32 = 3;

/// The number of the header that says why bytes are no image's file.
fn code_of_fault(fault: ImageFault) -> u32
    ensures { result ≡ fault_code fault }
{
    match fault {
        ImageFault::OutOfMemory => OUT_OF_MEMORY,
        ImageFault::Truncated => 4,
        ImageFault::TrailingBytes => 5,
        ImageFault::BadMagic => 6,
        ImageFault::BadVersion => 7,
        ImageFault::BadBuffers => 8,
        ImageFault::BadSize => 9,
    }
}

/// Judges the next lesson with an image. The answer is a number of the header.
fn judge_with(
    alloc: Global,
    image: &Image,
    blocks: JudgedFiles<'_>,
    ticks: u64,
    progress: &mut Progress,
    text: &mut [u8],
    size: &mut usize,
) -> u32
    // 0: the line is at the front of the room; 2: out of memory; 3: the line needs more room.
    ensures known { (result ≡ 0) ⊎ ((result ≡ 2) ⊎ (result ≡ 3)) }
    ensures fits { result ≡ 0 → size.new ≤ length text.new }
    ensures beyond { result ≡ 0 → drop size.new text.new ≡ drop size.new text.old }
    ensures onward { result ≡ 0 → 0 < size.new → progress.new.next ≡ progress.old.next + 1 }
    ensures ended { result ≡ 0 → size.new ≡ 0 → progress.new ≡ progress.old }
    ensures needs { result ≡ 3 → length text.new < size.new }
    ensures stays { result ≢ 0 → text.new ≡ text.old }
    ensures waits { result ≢ 0 → progress.new ≡ progress.old }
{
    let mut next = *progress;
    let Ok(line) = judge_next(alloc, image, blocks, ticks, &mut next) else {
        return OUT_OF_MEMORY;
    };
    if text.len() < line.len() {
        *size = line.len();
        return SHORT_ROOM;
    }
    *progress = next;
    *size = put(text, 0, line.as_slice());
    DONE
}

/// Judges the next lesson of a pupil: puts its line into `text`, and how many bytes it has into `size`, which is 0 if no lesson is left. With too
/// little room, `size` says how much is needed. The answer is a number of the header.
pub fn judge(
    alloc: Global,
    image: &[u8],
    blocks: JudgedFiles<'_>,
    ticks: u64,
    progress: &mut Progress,
    text: &mut [u8],
    size: &mut usize,
) -> u32
    // Bytes that are no image's file are refused by the first field that fits no file.
    ensures truncated { IsCutShort image.now → result ≡ 4 }
    ensures trailing { IsFollowed image.now → result ≡ 5 }
    ensures bad_magic { HasBadMagic image.now → result ≡ 6 }
    ensures bad_version { HasBadVersion image.now → result ≡ 7 }
    ensures bad_buffers { HasBadBuffers image.now → result ≡ 8 }
    ensures bad_size { HasBadSize image.now → result ≡ 9 }

    // With an image, 0: the line is at the front of the room; 2: out of memory; 3: the line needs more room.
    ensures known { (contents : Contents) → IsFile image.now contents → (result ≡ 0) ⊎ ((result ≡ 2) ⊎ (result ≡ 3)) }
    ensures found { result ≡ 0 → (contents : Contents) × IsFile image.now contents }
    ensures fits { result ≡ 0 → size.new ≤ length text.new }
    ensures beyond { result ≡ 0 → drop size.new text.new ≡ drop size.new text.old }
    ensures needs { result ≡ 3 → length text.new < size.new }

    // After a line comes the next lesson; at the end, and if nothing was judged, nothing changes.
    ensures onward { result ≡ 0 → 0 < size.new → progress.new.next ≡ progress.old.next + 1 }
    ensures ended { result ≡ 0 → size.new ≡ 0 → progress.new ≡ progress.old }
    ensures stays { result ≢ 0 → text.new ≡ text.old }
    ensures waits { result ≢ 0 → progress.new ≡ progress.old }
{
    match image_loader::read(alloc, image) {
        Ok(image) => judge_with(alloc, &image, blocks, ticks, progress, text, size),
        Err(fault) => code_of_fault(fault),
    }
}
