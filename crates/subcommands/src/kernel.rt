//! The block file that the kernel's sources are written to.

ghost use Rattle.std.specs.Prelude.{◌≡◌, ◌++◌, map, flat_map, OnOk, IfOk};
ghost use Rattle.std.specs.Str.Lines.{lines};
ghost use Rattle.subcommands.specs.Kernel.{blanks, line_bytes, blocks_of, filled};

use crate::kernel_text::TEXT;
use std::alloc::{AllocError, Global};

/// Adds blanks.
#[tactic(auto, unfolding(crate::specs::Kernel::blanks))]
fn push_blanks(file: &mut Vec<u8>, count: usize) -> Result<(), AllocError>
    ensures { OnOk result (file.new.items ≡ file.old.items ++ blanks count) }
{
    file.resize(file.len().saturating_add(count), b' ')
}

/// Adds a line of a screen.
#[tactic(auto, unfolding(crate::specs::Kernel::line_bytes))]
fn push_line(file: &mut Vec<u8>, line: &[u8]) -> Result<(), AllocError>
    ensures { OnOk result (file.new.items ≡ file.old.items ++ line_bytes line.now) }
{
    file.extend_from_slice(line)?;
    push_blanks(file, 64usize.saturating_sub(line.len()))
}

/// The lines of a text.
fn lines_of(alloc: Global, text: &str) -> Result<Vec<&str>, AllocError>
    ensures { IfOk result (λ v. map (λ x. x.now) v.items ≡ lines text.now) }
{
    text.lines().collect(alloc)
}

/// Adds lines of screens.
fn push_lines(file: &mut Vec<u8>, lines: &[&str]) -> Result<(), AllocError>
    ensures { OnOk result (file.new.items ≡ file.old.items ++ flat_map line_bytes (map (λ x. x.now) lines.now)) }
{
    for line in lines {
        push_line(file, line.as_bytes())?;
    }
    Ok(())
}

/// Cuts a file, or fills it with blanks.
#[tactic(auto, unfolding(crate::specs::Kernel::filled, crate::specs::Kernel::blanks))]
fn fill(file: &mut Vec<u8>, length: usize) -> Result<(), AllocError>
    ensures { OnOk result (file.new.items ≡ filled length file.old.items) }
{
    file.resize(length, b' ')
}

/// A file of 64 blocks with the lines of a text from block 1 on, and blanks else.
#[tactic(auto, unfolding(crate::specs::Kernel::blocks_of))]
fn file_of(alloc: Global, text: &str) -> Result<Vec<u8>, AllocError>
    ensures { IfOk result (λ file. file.items ≡ filled 65536 (blocks_of text.now)) }
{
    let lines = lines_of(alloc, text)?;
    let mut file = Vec::new(alloc);
    push_blanks(&mut file, 1024)?;
    push_lines(&mut file, lines.as_slice())?;
    fill(&mut file, 65536)?;
    Ok(file)
}

/// The bytes of a new file of 64 blocks with the kernel's screens in blocks 1 to 20, and blanks else.
pub fn kernel_file(alloc: Global) -> Result<Vec<u8>, AllocError>
    ensures { IfOk result (λ file. file.items ≡ filled 65536 (blocks_of TEXT.now)) }
{
    file_of(alloc, TEXT)
}
