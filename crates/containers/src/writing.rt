//! Screens written into a container.

ghost use Rattle.std.specs.Prelude.{◌≡◌, ◌≤◌, None, IfOk, MatchResult, OnOk, Some};
ghost use Rattle.std.specs.Prelude.{◌++◌, replicate};
ghost use Rattle.containers.specs.Containers.{IsWritten, new_container, tracks_for, unwritten};

use crate::cause::Cause;
use crate::layout::{Layout, SCREEN};
use crate::reading::{capacity, unread};
use std::alloc::{AllocError, Global};

/// Why these screens aren't written into a container.
#[tactic(auto, unfolding(crate::specs::Containers::unwritten))]
fn unwritten(layout: &Layout, screens: &[u8], container: &[u8]) -> Option<Cause>
    ensures { result ≡ unwritten layout.now screens.now container.now }
{
    if let Some(cause) = unread(layout, container) {
        return Some(cause);
    }
    if screens.len() % SCREEN != 0 {
        return Some(Cause::CutBlock);
    }
    if screens.len() > capacity(layout, container) {
        return Some(Cause::NoRoom);
    }
    None
}

/// Each byte of the screens comes to its place.
fn put(layout: &Layout, screens: &[u8], container: &mut [u8])
    requires { unwritten layout.now screens.now container.old ≡ None }
    ensures { IsWritten layout.now screens.now container.old container.new }
{
    for (index, byte) in screens.iter().enumerate() {
        let place = layout.place(index);
        container[place] = *byte;
    }
}

/// A container with the bytes of a block file in it; all that isn't theirs stays. An error: why they aren't written.
pub fn write_screens(layout: &Layout, screens: &[u8], container: Vec<u8>) -> Result<Vec<u8>, Cause>
    ensures written { IfOk result (λ v. IsWritten layout.now screens.now container.items v.items) }
    ensures cause { MatchResult result (λ _. unwritten layout.now screens.now container.items ≡ None) (λ why.
        unwritten layout.now screens.now container.items ≡ Some why) }
{
    if let Some(cause) = unwritten(layout, screens, container.as_slice()) {
        return Err(cause);
    }
    let mut written = container;
    put(layout, screens, written.as_mut_slice());
    Ok(written)
}

/// Adds a sector of blanks with its ending.
fn push_blank_sector(container: &mut Vec<u8>, layout: &Layout) -> Result<(), AllocError>
    ensures { OnOk result (container.new.items ≡ container.old.items ++ (replicate layout.now.sector 32 ++ layout.now.ending)) }
{
    let blanks = container.len().saturating_add(layout.sector());
    container.resize(blanks, b' ')?;
    container.extend_from_slice(layout.ending())
}

/// How many tracks so many bytes of screens fill.
#[tactic(auto, unfolding(crate::specs::Containers::tracks_for))]
fn tracks_for(layout: &Layout, bytes: usize) -> usize
    requires { bytes ≤ 67108864 }
    ensures value { result ≡ tracks_for layout.now bytes }
    ensures bound { result ≤ 134217728 }
{
    let held = layout.sector() * layout.count();
    (bytes + (held - 1)) / held
}

/// A new container for so many bytes of screens: blanks, in as many tracks as they fill.
#[tactic(auto, unfolding(crate::specs::Containers::new_container))]
pub fn new_container(alloc: Global, layout: &Layout, bytes: usize) -> Result<Vec<u8>, AllocError>
    requires { bytes ≤ 67108864 }
    ensures { IfOk result (λ v. v.items ≡ new_container layout.now bytes) }
{
    let mut container = vec![in alloc; b' '; layout.offset()]?;
    for at in 0..tracks_for(layout, bytes) * layout.count() {
        push_blank_sector(&mut container, layout)?;
    }
    Ok(container)
}
