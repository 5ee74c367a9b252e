//! The bytes of the image.

ghost use Rattle.std.specs.Prelude.{◌≡◌, ℕ, ◌+◌, ◌*◌, ◌/◌, ◌<◌, ◌++◌, OnOk, IfOk, IfErr};
ghost use Rattle.colon_bodies.specs.Draft.{IsBlank};
ghost use Rattle.image_builder.specs.Names.{newest_first};
ghost use Rattle.image_builder.specs.Items.{Items, Nothing, controls, zero_bytes, image, low, system, last_link};
ghost use Rattle.image_builder.specs.Grammar.{IsLimit};
ghost use Rattle.image_builder.specs.Built.{Built, Building};
ghost use Rattle.image_builder.specs.State.{all_cells};
ghost use Rattle.image_builder.specs.declared.cause.Cause.TheVariants.{OutOfMemory};

use crate::cause::Cause;
use crate::entry::{Named, head_of};
use crate::header::here;
use crate::make::{lay_zeros, newest};
use crate::state::Build;
use colon_bodies::{Draft, lay_cell};
use std::alloc::Global;

/// Writes cells.
fn lay_cells(bytes: &mut Vec<u8>, cells: &[u16]) -> Result<(), Cause>
    ensures bytes { OnOk result (bytes.new.items ≡ bytes.old.items ++ all_cells cells.now) }
    ensures memory { IfErr result (λ e. e ≡ OutOfMemory) }
{
    for x in cells {
        lay_cell(bytes, *x)?;
    }
    Ok(())
}

/// The newest link field, 0 if there is none.
fn newest_link_of(names: &[Named]) -> u16
    ensures { result ≡ last_link (newest_first names.now) }
{
    if names.is_empty() {
        return 0;
    }
    newest(names).link
}

/// Writes the cells of the system.
fn lay_system(bytes: &mut Vec<u8>, b: &Build) -> Result<(), Cause>
    requires { Building b.now }
    ensures bytes { (limit : ℕ) (t : Items) → Built limit b.now t →
        OnOk result (bytes.new.items ≡ bytes.old.items ++ low (system t) 0 32) }
    ensures memory { IfErr result (λ e. e ≡ OutOfMemory) }
{
    let names = b.names.as_slice();
    let end = here(b);
    let last = newest_link_of(names);
    let voc = b.current;
    let record = b.newest_record;
    let zero = head_of(names, 42, 0);
    let one = head_of(names, 42, 1);
    let two = head_of(names, 42, 2);
    let three = head_of(names, 42, 3);
    let cells = [
        0, 0, 0, 0, 0, 0, 0, 0, 0, 10, 0, 0, 0, 0, end, last, voc, voc, 0, 0, 0, zero, one, two,
        three, 0, record, end, 0, 0, 0, 0,
    ];
    lay_cells(bytes, &cells)?;
    Ok(())
}

/// Writes the compilation addresses of the controls.
fn lay_controls(bytes: &mut Vec<u8>, b: &Build) -> Result<(), Cause>
    requires { Building b.now }
    ensures bytes { (limit : ℕ) (t : Items) → Built limit b.now t →
        OnOk result (bytes.new.items ≡ bytes.old.items ++ low (λ a. controls t (a / 2)) 0 32) }
    ensures memory { IfErr result (λ e. e ≡ OutOfMemory) }
{
    lay_cells(bytes, &b.runtime[..32])?;
    Ok(())
}

/// The bytes of the image.
pub fn whole_image(alloc: Global, b: &Build) -> Result<Vec<u8>, Cause>
    requires { Building b.now }
    ensures bytes { (limit : ℕ) (t : Items) → Built limit b.now t → IfOk result (λ v. v.items ≡ image t) }
    ensures memory { IfErr result (λ e. e ≡ OutOfMemory) }
{
    let mut bytes = Vec::new(alloc);
    lay_system(&mut bytes, b)?;
    lay_controls(&mut bytes, b)?;
    lay_zeros(&mut bytes, 128)?;
    bytes.extend_from_slice(b.image.as_slice())?;
    Ok(bytes)
}

/// No control has a name yet.
fn no_controls(alloc: Global) -> Result<Vec<u16>, Cause>
    ensures zero { IfOk result (λ v. v.items ≡ zero_bytes 256) }
    ensures memory { IfErr result (λ e. e ≡ OutOfMemory) }
{
    let mut cells = Vec::new(alloc);
    for _ in 0..256u16 {
        cells.push(0)?;
    }
    Ok(cells)
}

/// Nothing was built yet, up to a limit.
pub fn start(alloc: Global, limit: u16) -> Result<Build, Cause>
    requires { IsLimit limit }
    ensures built { IfOk result (λ b. Built b.limit b Nothing × IsBlank b.draft) }
    ensures limit { IfOk result (λ b. b.limit ≡ limit) }
    ensures memory { IfErr result (λ e. e ≡ OutOfMemory) }
{
    let runtime = no_controls(alloc)?;
    Ok(Build {
        alloc,
        limit,
        image: Vec::new(alloc),
        names: Vec::new(alloc),
        runtime,
        current: 42,
        newest_record: 42,
        boot: None,
        draft: Draft::new(alloc),
    })
}
