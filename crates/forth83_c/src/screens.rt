//! Screens as text, both ways.

ghost use Rattle.std.specs.Prelude.{◌≡◌, ◌≢◌, ◌≤◌, ◌*◌, ℕ, IfErr, IfOk, length, take, drop};
ghost use Rattle.screen_text.specs.Reading.{IsRead, read};
ghost use Rattle.screen_text.specs.Screens.{screen_text};
ghost use Rattle.forth83_c.specs.declared.status.Status.TheVariants as status;
ghost use Rattle.forth83_c.specs.Paged.{WhyNoScreens, WhyNoText, cause_number};

use crate::looking::put_cells;
use crate::showing::put;
use crate::status::Status;
use screen_text::{Cause, Screens, TextFault, read_text, screen_text};
use std::alloc::Global;

/// Puts the text of a screen into `text`, and how many bytes it has into `size`.
pub fn write(alloc: Global, number: u16, page: &[u8], text: &mut [u8], size: &mut usize) -> Status
    ensures written { result ≡ status.Done → take size.new text.new ≡ screen_text number page.now }
    ensures fits { result ≡ status.Done → size.new ≤ length text.new }
    ensures beyond { result ≡ status.Done → drop size.new text.new ≡ drop size.new text.old }
    ensures why { WhyNoText number page.now (length text.old) result }
    ensures stays { result ≢ status.Done → text.new ≡ text.old }
    ensures untold { result ≢ status.Done → size.new ≡ size.old }
{
    if page.len() != 1024 {
        return Status::BadPage;
    }
    let mut bytes = [0u8; 1024];
    bytes.copy_from_slice(page);
    let Ok(made) = screen_text(alloc, number, &bytes) else {
        return Status::OutOfMemory;
    };
    if text.len() < made.len() {
        return Status::ShortRoom;
    }
    *size = put(text, 0, made.as_slice());
    Status::Done
}

/// The number of a cause in the header: a byte that is no text is 256 and the byte.
pub fn number_of(cause: Cause) -> u16
    ensures { result ≡ cause_number cause }
{
    match cause {
        Cause::OutOfMemory => 0,
        Cause::BadEscape => 1,
        Cause::LongLine => 2,
        Cause::FullScreen => 3,
        Cause::BadHeading => 4,
        Cause::LateHeading => 5,
        Cause::NamedTwice => 6,
        Cause::NoScreen => 7,
        Cause::BadByte(byte) => 256 + u16::from(byte),
    }
}

/// Why the screens of a text are not put anywhere.
#[derive(Clone, Copy, Debug, PartialEq, Eq)]
pub enum NoScreens {
    /// There was no memory for them.
    OutOfMemory,
    /// There is too little room for their numbers, or for their pages.
    ShortRoom,
    /// The text is refused: its line, from 1, and what is wrong with it.
    Refused(TextFault),
}

/// The screens of a text.
fn read(alloc: Global, text: &[u8]) -> Result<Screens, NoScreens>
    ensures read { IfOk result (λ s. IsRead (read text.now) s.numbers.items s.bytes.items) }
    ensures size { IfOk result (λ s. length s.bytes.items ≡ 1024 * length s.numbers.items) }
    ensures why { IfErr result (λ no. (numbers pages : ℕ) → WhyNoScreens (read text.now) numbers pages no) }
{
    match read_text(alloc, text) {
        Ok(screens) => Ok(screens),
        Err(
            TextFault {
                cause: Cause::OutOfMemory,
                ..
            },
        ) => Err(NoScreens::OutOfMemory),
        Err(fault) => Err(NoScreens::Refused(fault)),
    }
}

/// Puts the numbers of a text's screens into `numbers`, and their pages into `pages`, 1,024 bytes each; how many they are.
pub fn screens(
    alloc: Global,
    text: &[u8],
    numbers: &mut [u16],
    pages: &mut [u8],
) -> Result<usize, NoScreens>
    ensures read { IfOk result (λ n. IsRead (read text.now) (take n numbers.new) (take (1024 * n) pages.new)) }
    ensures fits { IfOk result (λ n. (n ≤ length numbers.new) × (1024 * n ≤ length pages.new)) }
    ensures beyond { IfOk result (λ n. (drop n numbers.new ≡ drop n numbers.old) × (drop (1024 * n) pages.new ≡ drop (1024 * n) pages.old)) }
    ensures why { IfErr result (WhyNoScreens (read text.now) (length numbers.old) (length pages.old)) }
    ensures stays { IfErr result (λ _. (numbers.new ≡ numbers.old) × (pages.new ≡ pages.old)) }
{
    let screens = read(alloc, text)?;
    if numbers.len() < screens.numbers.len() || pages.len() < screens.bytes.len() {
        return Err(NoScreens::ShortRoom);
    }
    put(pages, 0, screens.bytes.as_slice());
    Ok(put_cells(numbers, screens.numbers.as_slice()))
}
