//! Screens read of a container.

ghost use Rattle.std.specs.Prelude.{◌≡◌, ◌<◌, ◌≤◌, None, IfOk, MatchResult, true, unwrap_or};
ghost use Rattle.containers.specs.Containers.{IsRead, capacity, first_open, is_ended, is_whole, screens, sectors, unread};

use crate::cause::Cause;
use crate::layout::{Layout, SCREEN};
use std::alloc::{AllocError, Global};

/// How many screens a block file has at most.
const MOST_SCREENS: usize = 65536;

/// How many sectors a container has.
#[tactic(auto, unfolding(crate::specs::Containers::sectors), using(crate::proofs::Places::sectors_fit))]
fn sectors(layout: &Layout, container: &[u8]) -> usize
    ensures { result ≡ sectors layout.now container.now }
{
    container.len().saturating_sub(layout.offset()) / layout.track() * layout.count()
}

/// How many whole screens it has.
#[tactic(auto, unfolding(crate::specs::Containers::screens), using(crate::proofs::Places::bytes_fit))]
fn screens(layout: &Layout, container: &[u8]) -> usize
    ensures { result ≡ screens layout.now container.now }
{
    sectors(layout, container) * layout.sector() / SCREEN
}

/// How many bytes those have.
#[tactic(auto, unfolding(crate::specs::Containers::capacity))]
pub fn capacity(layout: &Layout, container: &[u8]) -> usize
    requires { screens layout.now container.now ≤ 65536 }
    ensures { result ≡ capacity layout.now container.now }
{
    SCREEN * screens(layout, container)
}

/// Whether whole tracks come after the offset, with at least one screen, in equal parts.
#[tactic(auto, unfolding(crate::specs::Containers::is_whole))]
fn is_whole(layout: &Layout, container: &[u8]) -> bool
    ensures { result ≡ is_whole layout.now container.now }
{
    let (length, offset) = (container.len(), layout.offset());
    if length < offset || (length - offset) % layout.track() != 0 {
        return false;
    }
    let count = screens(layout, container);
    count > 0 && count % layout.parts() == 0
}

/// Whether the sector that is at this place has its ending.
#[tactic(auto, unfolding(crate::specs::Containers::is_ended))]
fn is_ended(layout: &Layout, container: &[u8], at: usize) -> bool
    requires whole { is_whole layout.now container.now ≡ true }
    requires inside { at < sectors layout.now container.now }
    ensures { result ≡ is_ended layout.now container.now at }
{
    let start = layout.offset() + (at * layout.pitch() + layout.sector());
    let ending = layout.ending();
    &container[start..start + ending.len()] == ending
}

/// The first sector that doesn't have its ending.
fn first_open(layout: &Layout, container: &[u8]) -> Option<usize>
    requires { is_whole layout.now container.now ≡ true }
    ensures { result ≡ first_open layout.now container.now 0 (sectors layout.now container.now) }
{
    for at in 0..sectors(layout, container) {
        if !is_ended(layout, container, at) {
            return Some(at);
        }
    }
    None
}

/// Why a container isn't read.
#[tactic(auto, unfolding(crate::specs::Containers::unread))]
pub fn unread(layout: &Layout, container: &[u8]) -> Option<Cause>
    ensures { result ≡ unread layout.now container.now }
{
    if !is_whole(layout, container) {
        return Some(Cause::CutShort);
    }
    if screens(layout, container) > MOST_SCREENS {
        return Some(Cause::TooLarge);
    }
    match first_open(layout, container) {
        Some(at) => Some(Cause::NoEnding(at)),
        None => None,
    }
}

/// The bytes of the screens, each from its place.
fn gathered(alloc: Global, layout: &Layout, container: &[u8]) -> Result<Vec<u8>, AllocError>
    requires { unread layout.now container.now ≡ None }
    ensures { IfOk result (λ v. IsRead layout.now container.now v.items) }
{
    let mut screens = Vec::new(alloc);
    for byte in 0..capacity(layout, container) {
        let place = layout.place(byte);
        screens.push(container[place])?;
    }
    Ok(screens)
}

/// The screens that lie in a container, as the bytes of a block file. An error: why it isn't read, or memory ran out.
pub fn read_screens(alloc: Global, layout: &Layout, container: &[u8]) -> Result<Vec<u8>, Cause>
    ensures screens { IfOk result (λ v. IsRead layout.now container.now v.items) }
    ensures cause { MatchResult result (λ _. unread layout.now container.now ≡ None) (λ why.
        why ≡ unwrap_or (unread layout.now container.now) Cause.OutOfMemory) }
{
    if let Some(cause) = unread(layout, container) {
        return Err(cause);
    }
    match gathered(alloc, layout, container) {
        Ok(screens) => Ok(screens),
        Err(_) => Err(Cause::OutOfMemory),
    }
}
