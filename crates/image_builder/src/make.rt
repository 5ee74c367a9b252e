//! What each item writes.

ghost use Rattle.std.specs.Prelude.{◌≡◌, ℕ, ◌+◌, ◌-◌, ◌<◌, ◌++◌, List, ◌∷◌, take, length, OnOk, IfErr};
ghost use Rattle.colon_bodies.specs.Tree.{Definition};
ghost use Rattle.memory.specs.Bytes.{cell_bytes};
ghost use Rattle.colon_bodies.specs.Code.{whole_code};
ghost use Rattle.image_builder.specs.Places.{Place, place, IsTitle};
ghost use Rattle.image_builder.specs.Names.{entry, newest_first};
ghost use Rattle.image_builder.specs.Items.{Items, Then, Header, Cell, Byte, Allot, Immediate, Definitions, Boot, Colon, mark, zero_bytes, controls, end_of, head_size};
ghost use Rattle.image_builder.specs.Grammar.{AreSound};
ghost use Rattle.image_builder.specs.Built.{Built, Building};
ghost use Rattle.image_builder.specs.declared.cause.Cause.TheVariants.{OutOfMemory};
ghost use Rattle.image_builder.specs.declared.entry.Kind.TheVariants as k;

use crate::cause::Cause;
use crate::entry::{Entry, Named, Sign, lent};
use crate::header::{here, make_header};
use crate::spot::Spot;
use crate::state::{Build, Title};
use colon_bodies::lay_cell;
use dictionary::CountByte;
use dictionary::code_fields::{COLON, CONSTANT, VARIABLE, VOCABULARY};

/// CREATE writes a header.
pub fn make_create(b: &mut Build, p: Spot) -> Result<(), Cause>
    requires building { Building b.old }
    requires short { length p.name.now < 32 }
    ensures built { (limit : ℕ) (t : Items) (ws : List Place) → Built limit b.old t → AreSound limit t →
        OnOk result (Built limit b.new (Then t ws (Header (place p.entry) k.Create))) }
    ensures kept { OnOk result (b.new.draft ≡ b.old.draft) }
    ensures memory { IfErr result (λ e. e ≡ OutOfMemory) }
{
    make_header(b, p.screen, p.name, Sign::Plain, VARIABLE)?;
    Ok(())
}

/// VARIABLE writes a header, and the cell 0.
pub fn make_variable(b: &mut Build, p: Spot) -> Result<(), Cause>
    requires building { Building b.old }
    requires short { length p.name.now < 32 }
    ensures built { (limit : ℕ) (t : Items) (ws : List Place) → Built limit b.old t → AreSound limit t →
        OnOk result (Built limit b.new (Then t ws (Header (place p.entry) k.Variable))) }
    ensures kept { OnOk result (b.new.draft ≡ b.old.draft) }
    ensures memory { IfErr result (λ e. e ≡ OutOfMemory) }
{
    make_header(b, p.screen, p.name, Sign::Plain, VARIABLE)?;
    lay_cell(&mut b.image, 0)?;
    Ok(())
}

/// CONSTANT writes a header, and its value.
pub fn make_constant(b: &mut Build, p: Spot, n: u16) -> Result<(), Cause>
    requires building { Building b.old }
    requires short { length p.name.now < 32 }
    ensures built { (limit : ℕ) (t : Items) (ws : List Place) → Built limit b.old t → AreSound limit t →
        OnOk result (Built limit b.new (Then t ws (Header (place p.entry) (k.Constant n)))) }
    ensures kept { OnOk result (b.new.draft ≡ b.old.draft) }
    ensures memory { IfErr result (λ e. e ≡ OutOfMemory) }
{
    make_header(b, p.screen, p.name, Sign::Plain, CONSTANT)?;
    lay_cell(&mut b.image, n)?;
    Ok(())
}

/// PRIM writes a header with the primitive's number as its code field.
pub fn make_primitive(b: &mut Build, p: Spot, n: u16) -> Result<(), Cause>
    requires building { Building b.old }
    requires short { length p.name.now < 32 }
    requires number { n < 256 }
    ensures built { (limit : ℕ) (t : Items) (ws : List Place) → Built limit b.old t → AreSound limit t →
        OnOk result (Built limit b.new (Then t ws (Header (place p.entry) (k.Primitive n)))) }
    ensures kept { OnOk result (b.new.draft ≡ b.old.draft) }
    ensures memory { IfErr result (λ e. e ≡ OutOfMemory) }
{
    let at = here(b);
    make_header(b, p.screen, p.name, Sign::Control(n), n)?;
    b.runtime[n as usize] = at + 5 + p.name.len() as u16;
    Ok(())
}

/// Writes the record of a vocabulary: four chain heads, and the link to the next older record.
pub fn lay_record(image: &mut Vec<u8>, older: u16) -> Result<(), Cause>
    ensures bytes { OnOk result (image.new.items ≡ image.old.items ++ (zero_bytes 8 ++ cell_bytes older)) }
    ensures memory { IfErr result (λ e. e ≡ OutOfMemory) }
{
    lay_zeros(image, 8)?;
    lay_cell(image, older)?;
    Ok(())
}

/// VOCABULARY writes a header, and a record.
pub fn make_vocabulary(b: &mut Build, p: Spot) -> Result<(), Cause>
    requires building { Building b.old }
    requires short { length p.name.now < 32 }
    ensures built { (limit : ℕ) (t : Items) (ws : List Place) → Built limit b.old t → AreSound limit t →
        OnOk result (Built limit b.new (Then t ws (Header (place p.entry) k.Vocabulary))) }
    ensures kept { OnOk result (b.new.draft ≡ b.old.draft) }
    ensures memory { IfErr result (λ e. e ≡ OutOfMemory) }
{
    let at = here(b);
    make_header(b, p.screen, p.name, Sign::Record, VOCABULARY)?;
    lay_record(&mut b.image, b.newest_record)?;
    b.newest_record = at + 7 + p.name.len() as u16;
    Ok(())
}

/// `,` writes a cell.
pub fn comma(b: &mut Build, n: u16) -> Result<(), Cause>
    ensures built { (limit : ℕ) (t : Items) (ws : List Place) → Built limit b.old t →
        OnOk result (Built limit b.new (Then t ws (Cell n))) }
    ensures kept { OnOk result (b.new.draft ≡ b.old.draft) }
    ensures memory { IfErr result (λ e. e ≡ OutOfMemory) }
{
    lay_cell(&mut b.image, n)?;
    Ok(())
}

/// `C,` writes the low byte.
pub fn char_comma(b: &mut Build, n: u16) -> Result<(), Cause>
    ensures built { (limit : ℕ) (t : Items) (ws : List Place) → Built limit b.old t →
        OnOk result (Built limit b.new (Then t ws (Byte n))) }
    ensures kept { OnOk result (b.new.draft ≡ b.old.draft) }
    ensures memory { IfErr result (λ e. e ≡ OutOfMemory) }
{
    b.image.push((n % 256) as u8)?;
    Ok(())
}

/// Writes zero bytes.
pub fn lay_zeros(image: &mut Vec<u8>, n: u16) -> Result<(), Cause>
    ensures bytes { OnOk result (image.new.items ≡ image.old.items ++ zero_bytes n) }
    ensures memory { IfErr result (λ e. e ≡ OutOfMemory) }
{
    for _ in 0..n {
        image.push(0)?;
    }
    Ok(())
}

/// ALLOT writes zero bytes.
pub fn allot(b: &mut Build, n: u16) -> Result<(), Cause>
    ensures built { (limit : ℕ) (t : Items) (ws : List Place) → Built limit b.old t →
        OnOk result (Built limit b.new (Then t ws (Allot n))) }
    ensures kept { OnOk result (b.new.draft ≡ b.old.draft) }
    ensures memory { IfErr result (λ e. e ≡ OutOfMemory) }
{
    lay_zeros(&mut b.image, n)?;
    Ok(())
}

/// DEFINITIONS sends later headers to a vocabulary.
pub fn set_definitions(b: &mut Build, vocabulary: u16)
    ensures built { (limit : ℕ) (t : Items) (ws : List Place) → Built limit b.old t →
        Built limit b.new (Then t ws (Definitions vocabulary)) }
    ensures kept { b.new.draft ≡ b.old.draft }
{
    b.current = vocabulary;
}

/// BOOT sets the entry.
pub fn set_boot(b: &mut Build, w: u16)
    ensures built { (limit : ℕ) (t : Items) (ws : List Place) → Built limit b.old t →
        Built limit b.new (Then t ws (Boot w)) }
    ensures kept { b.new.draft ≡ b.old.draft }
{
    b.boot = Some(w);
}

/// The newest name.
pub fn newest(names: &[Named]) -> Entry<'_>
    requires { 0 < length names.now }
    ensures { newest_first names.now ≡ entry result ∷ newest_first (take (length names.now - 1) names.now) }
{
    lent(&names[names.len() - 1])
}

/// Makes the newest name immediate.
fn mark_newest(names: &mut Vec<Named>)
    requires { 0 < length names.old.items }
    ensures { newest_first names.new.items ≡ mark (newest_first names.old.items) }
{
    let i = names.len() - 1;
    names[i].immediate = true;
}

/// Marks the newest header.
pub fn set_immediate(b: &mut Build)
    requires building { Building b.old }
    requires named { 0 < length b.old.names.items }
    ensures built { (limit : ℕ) (t : Items) (ws : List Place) → Built limit b.old t →
        Built limit b.new (Then t ws Immediate) }
    ensures kept { b.new.draft ≡ b.old.draft }
{
    let e = newest(b.names.as_slice());
    b.image[e.link as usize - 254] = CountByte::immediate_of_length(e.name.len() as u8).0;
    mark_newest(&mut b.names);
}

/// Writes a definition, whose thread is at hand.
pub fn make_colon(b: &mut Build, p: &Title, bytes: &[u8]) -> Result<(), Cause>
    requires building { Building b.old }
    requires short { length p.now.name.items < 32 }
    ensures built { (limit : ℕ) (t : Items) (ws : List Place) (body : Definition) (q : Place) →
        IsTitle p.now.screen p.now.name.items q → Built limit b.old t → AreSound limit t →
        bytes.now ≡ whole_code (controls t) body (end_of t + head_size q) →
        OnOk result (Built limit b.new (Then t ws (Colon q body))) }
    ensures kept { OnOk result (b.new.draft ≡ b.old.draft) }
    ensures memory { IfErr result (λ e. e ≡ OutOfMemory) }
{
    make_header(b, p.screen, p.name.as_slice(), Sign::Plain, COLON)?;
    b.image.extend_from_slice(bytes)?;
    Ok(())
}
