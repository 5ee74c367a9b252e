//! A block as a screen: sixteen lines of 64 bytes (Forth-83 Standard, Definitions of Terms, "screen").
ghost use Rattle.std.specs.Prelude.{◌≡◌, ◌≤◌, ◌+◌, length};
ghost use Rattle.block_buffers.specs.Screens.{line_start, line_at, with_line, line_inserted, line_deleted, blank_screen};

use crate::devices::BLOCK_SIZE;
use crate::lines;

/// How many lines a screen has.
pub const LINES: usize = 16;

/// How many bytes a line has.
pub const LINE_SIZE: usize = 64;

/// Where line `n` begins.
fn line_start(n: u16) -> usize
    ensures value { result ≡ line_start n }
    ensures fits { result + 64 ≤ 1024 }
{
    LINE_SIZE * (n as usize % LINES)
}

/// Line `n`, which has 64 bytes. Here and below, line numbers count on past 15 from line 0 again.
#[tactic(auto, unfolding(crate::specs::Screens::line_at))]
pub fn screen_line(screen: &[u8; BLOCK_SIZE], n: u16) -> &[u8]
    ensures value { result.now ≡ line_at screen.now n }
    ensures size { length result.now ≡ 64 }
{
    lines::part(screen, line_start(n), LINE_SIZE)
}

/// Line `n` becomes the text.
#[tactic(auto, unfolding(crate::specs::Screens::with_line))]
pub fn put_line(screen: &mut [u8; BLOCK_SIZE], n: u16, text: &[u8; LINE_SIZE])
    ensures { screen.new ≡ with_line screen.old n text.now }
{
    lines::put_at(screen, line_start(n), text);
}

/// The lines from `n` on move one down, the last line is lost, and line `n` becomes the text.
#[tactic(auto, unfolding(crate::specs::Screens::line_inserted))]
pub fn insert_line(screen: &mut [u8; BLOCK_SIZE], n: u16, text: &[u8; LINE_SIZE])
    ensures { screen.new ≡ line_inserted screen.old n text.now }
{
    lines::insert_at(screen, line_start(n), text);
}

/// The lines after line `n` move one up, over it, and the last line becomes blanks.
#[tactic(auto, unfolding(crate::specs::Screens::line_deleted, crate::specs::Screens::blank_line))]
pub fn delete_line(screen: &mut [u8; BLOCK_SIZE], n: u16)
    ensures { screen.new ≡ line_deleted screen.old n }
{
    lines::delete_at(screen, line_start(n), LINE_SIZE);
}

/// Every byte becomes a blank.
#[tactic(auto, using(crate::proofs::ScreenLines::blank_whole))]
pub fn wipe(screen: &mut [u8; BLOCK_SIZE])
    ensures { screen.new ≡ blank_screen }
{
    lines::blank(screen);
}
