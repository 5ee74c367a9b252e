//! Headers.

ghost use Rattle.std.specs.Prelude.{◌≡◌, ◌≢◌, ℕ, false, ◌+◌, ◌*◌, ◌-◌, ◌<◌, ◌≤◌, ◌⊎◌, ◌++◌, length, OnOk, IfOk, IfErr};
ghost use Rattle.colon_bodies.specs.Draft.{Patches};
ghost use Rattle.memory.specs.declared.limit.TheConstants.{GREATEST_LIMIT};
ghost use Rattle.image_builder.specs.Places.{Place, IsTitle};
ghost use Rattle.image_builder.specs.Items.{Items, head};
ghost use Rattle.image_builder.specs.Grammar.{AreSound};
ghost use Rattle.image_builder.specs.Built.{Built, Building, Headed};
ghost use Rattle.image_builder.specs.declared.cause.Cause.TheVariants.{OutOfMemory};

use crate::cause::Cause;
use crate::entry::{Named, Sign, class_of_name, head_of};
use crate::state::Build;
use colon_bodies::{lay_cell, patch};
use dictionary::CountByte;
use std::alloc::Global;

/// A header up to its code field.
fn lay_head(
    image: &mut Vec<u8>,
    screen: u16,
    name: &[u8],
    link: u16,
    code: u16,
) -> Result<(), Cause>
    requires { length name.now < 32 }
    ensures bytes { (p : Place) → IsTitle screen name.now p →
        OnOk result (image.new.items ≡ image.old.items ++ head link p false code) }
    ensures memory { IfErr result (λ e. e ≡ OutOfMemory) }
{
    lay_cell(image, screen)?;
    lay_cell(image, link)?;
    image.push(CountByte::of_length(name.len() as u8).0)?;
    image.extend_from_slice(name)?;
    lay_cell(image, code)?;
    Ok(())
}

/// The head of a chain, where it is in a record among the items.
pub fn set_head(image: &mut Vec<u8>, vocabulary: u16, class: u16, x: u16)
    requires class { class < 4 }
    requires within { (vocabulary ≡ 42) ⊎ ((256 ≤ vocabulary) × (vocabulary + 10 ≤ length image.old.items + 256)) }
    ensures forth { vocabulary ≡ 42 → image.new.items ≡ image.old.items }
    ensures set { vocabulary ≢ 42 → Patches image.old.items image.new.items (vocabulary + 2 * class - 256) x }
{
    if vocabulary != 42 {
        patch(image, vocabulary as usize + 2 * class as usize - 256, x);
    }
}

/// A name of one's own.
pub fn owned(alloc: Global, name: &[u8]) -> Result<Vec<u8>, Cause>
    ensures bytes { IfOk result (λ v. v.items ≡ name.now) }
    ensures memory { IfErr result (λ e. e ≡ OutOfMemory) }
{
    let mut bytes = Vec::new(alloc);
    bytes.extend_from_slice(name)?;
    Ok(bytes)
}

/// A header up to its code field, and its name.
pub fn make_header(
    b: &mut Build,
    screen: u16,
    name: &[u8],
    sign: Sign,
    code: u16,
) -> Result<(), Cause>
    requires building { Building b.old }
    requires short { length name.now < 32 }
    ensures headed { (limit : ℕ) (t : Items) (p : Place) → IsTitle screen name.now p → Built limit b.old t →
        AreSound limit t → OnOk result (Headed limit b.new t p sign code) }
    ensures kept { OnOk result (b.new.draft ≡ b.old.draft) }
    ensures memory { IfErr result (λ e. e ≡ OutOfMemory) }
{
    let class = class_of_name(name);
    let own = owned(b.alloc, name)?;
    let link = here(b) + 2;
    let older = head_of(b.names.as_slice(), b.current, class);
    set_head(&mut b.image, b.current, class, link);
    lay_head(&mut b.image, screen, name, older, code)?;
    b.names.push(Named {
        name: own,
        vocabulary: b.current,
        link,
        immediate: false,
        sign,
    })?;
    Ok(())
}

/// The address after the image.
pub fn here(b: &Build) -> u16
    requires { Building b.now }
    ensures address { result ≡ length b.now.image.items + 256 }
    ensures below { result ≤ GREATEST_LIMIT }
{
    b.image.len() as u16 + 256
}
