//! What is printed if a file can't be used as it is named.

ghost use Rattle.std.specs.Prelude.{◌≡◌, ◌<◌, ◌⊎◌};

use file_access::Unopened;
use std::io;
use std::io::ErrorKind;

/// Prints a line of the program's own, and answers the status: 5 if it can't be written.
pub fn say<R: Print>(rt: &R, text: &str, name: &str, status: u8) -> u8
    ensures { (result ≡ status) ⊎ (result ≡ 5) }
{
    match println!(rt; "{text}{name}") {
        Ok(()) => status,
        Err(_) => 5,
    }
}

/// Prints that a file can't be opened, and answers the status.
pub fn cannot_open<R: Print>(rt: &R, name: &str) -> u8
    ensures { 0 < result }
{
    say(rt, "cannot open ", name, 1)
}

/// Prints that memory ran out, and answers the status.
pub fn out_of_memory<R: Print>(rt: &R) -> u8
    ensures { 0 < result }
{
    say(rt, "out of memory", "", 1)
}

/// Prints why a file isn't used as it is named, and answers the status.
pub fn refuse_use(rt: &HostRuntime, name: &str, why: &str) -> u8
    ensures { 0 < result }
{
    match println!(rt; "error: {name} {why}") {
        Ok(()) => 2,
        Err(_) => 5,
    }
}

/// Prints why a file of blocks isn't opened, and answers the status.
pub fn refuse_blocks(rt: &HostRuntime, blocks: &str, why: Unopened) -> u8
    ensures { 0 < result }
{
    match why {
        Unopened::CannotOpen => cannot_open(rt, blocks),
        Unopened::OutOfMemory => out_of_memory(rt),
        Unopened::InUse => refuse_use(
            rt,
            blocks,
            "is in use by another run; end that first, or take a copy",
        ),
    }
}

/// Prints why a file isn't read or written, and answers the status. `AlreadyExists` comes from one that is written alone: each name for
/// a new file beside it is taken.
pub fn refuse_file(rt: &HostRuntime, error: &io::Error, name: &str) -> u8
    ensures { 0 < result }
{
    match error.kind() {
        ErrorKind::OutOfMemory => out_of_memory(rt),
        ErrorKind::AlreadyExists => refuse_use(
            rt,
            name,
            "has ten files beside it named .forth83-new to .forth83-new9; remove those that are not needed",
        ),
        _ => cannot_open(rt, name),
    }
}
