//! The screens of a source, read one at a time, and their words one by one.

ghost use Rattle.std.specs.Prelude.{◌≡◌, ℕ, ◌+◌, ◌-◌, ◌<◌, [], List, Some, length, OnOk};
ghost use Rattle.block_buffers.specs.Disks.{Disk};
ghost use Rattle.block_buffers.specs.Likeness.{IsLike};
ghost use Rattle.source_words.specs.Words.{SourceWord, screen_words};
ghost use Rattle.source_words.specs.Scanned.{source_word};
ghost use Rattle.block_buffers.specs.ReadPages.{AreReadFrom};
ghost use Rattle.image_builder.specs.Sources.{ForDevice};
ghost use Rattle.image_builder.specs.ReadScreens.{Asks, Holds, IsHeld, Takes, TakesAll, TakesNextScreen, TakesScreens, refusal, settled};
ghost use Rattle.image_builder.specs.declared.reading.Stop.TheVariants as stop;

use crate::cause::{BuildFault, Cause};
use crate::source::read_word;
use crate::spelled::spot_of;
use crate::state::{Begun, Build};
use block_buffers::{BLOCK_SIZE, Device};
use source_words::{Mode, Scanner, Word};
use std::mem;

/// A source that is read in part: what was built of it, and what is started of an item.
#[derive(Drop)]
pub struct Compilation {
    /// What was built so far.
    pub build: Build,
    /// What is started of an item.
    pub begun: Begun,
}

/// Why the reading of a source stopped.
#[derive(Clone, Copy, Debug, PartialEq, Eq)]
pub enum Stop {
    /// This screen doesn't exist, or could not be read.
    Device(u16),
    /// A word is at fault, or memory was not found.
    Word(BuildFault),
}

impl From<BuildFault> for Stop {
    ghost from_gives = { λ f e. e ≡ stop.Word f };

    fn from(fault: BuildFault) -> Stop {
        Stop::Word(fault)
    }
}

/// A fault as the caller gets it: lack of memory is reported for the first screen.
fn settle(fault: BuildFault, from: u16) -> BuildFault
    ensures { result ≡ settled fault.screen fault.offset fault.cause from }
{
    match fault.cause {
        Cause::OutOfMemory => BuildFault {
            screen: from,
            offset: 0,
            cause: Cause::OutOfMemory,
        },
        _ => fault,
    }
}

impl Stop {
    /// The refusal of a source whose first screen this is.
    pub fn refusal(self, from: u16) -> BuildFault
        ensures { result ≡ refusal self from }
    {
        match self {
            Stop::Device(screen) => BuildFault {
                screen,
                offset: 0,
                cause: Cause::Device,
            },
            Stop::Word(fault) => settle(fault, from),
        }
    }
}

impl Compilation {
    /// Reads one more word.
    fn read(&mut self, word: Word<'_>) -> Result<(), BuildFault>
        requires { IsHeld self.old.build.limit self.old }
        ensures { (limit : ℕ) (front : List SourceWord) → Holds limit self.old front →
            Takes limit front (source_word word.entry) result self.new }
    {
        let begun = mem::replace(&mut self.begun, Begun::Whole);
        self.begun = read_word(&mut self.build, begun, spot_of(word))?;
        Ok(())
    }
}

/// Reads the words of a screen.
fn read_words(
    compilation: &mut Compilation,
    text: &[u8],
    screen: u16,
    mode: Mode,
) -> Result<Mode, Stop>
    requires short { length text.now < 65536 }
    requires held { IsHeld compilation.old.build.limit compilation.old }
    ensures { (limit : ℕ) (front : List SourceWord) → Holds limit compilation.old front →
        TakesAll limit mode front (screen_words mode screen text.now) result compilation.new }
{
    let mut scanner = Scanner::new(text, screen, mode);
    while let Some(word) = scanner.next() {
        compilation.read(word)?;
    }
    Ok(scanner.mode())
}

/// Reads a screen into `page`, and then its words.
fn read_screen<D: Device>(
    compilation: &mut Compilation,
    device: &mut D,
    page: &mut [u8; BLOCK_SIZE],
    screen: u16,
    mode: Mode,
) -> Result<Mode, Stop>
    requires { IsHeld compilation.old.build.limit compilation.old }
    ensures taken { ForDevice D.Device device.old device.new (λ d done.
        TakesNextScreen d screen mode result compilation.old compilation.new done) }
    ensures like { (d : Disk) → D.disk device.old ≡ Some d →
        IsLike d (D.disk device.new) (D.block_count device.old) (D.calls device.old) (D.calls device.new) }
    ensures asked { Asks screen (D.block_count device.old) result (D.calls device.old) (D.calls device.new) }
    ensures counted { D.block_count device.new ≡ D.block_count device.old }
    ensures held { OnOk result (IsHeld compilation.old.build.limit compilation.new) }
{
    let count = device.count();
    if u32::from(screen) >= count {
        return Err(Stop::Device(screen));
    }
    if device.read(screen, page).is_err() {
        return Err(Stop::Device(screen));
    }
    read_words(compilation, page, screen, mode)
}

/// Reads the words of the screens from `from` to `to`, of which one at a time is kept.
pub fn read_screens<D: Device>(
    compilation: &mut Compilation,
    device: &mut D,
    from: u16,
    to: u16,
) -> Result<(), Stop>
    requires { Holds compilation.old.build.limit compilation.old [] }
    ensures taken { ForDevice D.Device device.old device.new (λ d done.
        TakesScreens compilation.old.build.limit d from to result compilation.new done) }
    ensures like { (d : Disk) → D.disk device.old ≡ Some d →
        IsLike d (D.disk device.new) (D.block_count device.old) (D.calls device.old) (D.calls device.new) }
    ensures read { OnOk result (AreReadFrom from (to + 1 - from) (D.block_count device.old) (D.calls device.old)
        (D.calls device.new)) }
    ensures held { OnOk result (IsHeld compilation.old.build.limit compilation.new) }
{
    let _ = device.count();
    let mut page = [b' '; BLOCK_SIZE];
    let mut mode = Mode::Outside;
    for screen in from..=to {
        mode = read_screen(compilation, device, &mut page, screen, mode)?;
    }
    Ok(())
}
