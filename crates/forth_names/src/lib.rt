//! The names that a Forth knows.
#![tactic(auto)]

ghost use Rattle.std.specs.Prelude.{◌≡◌, ◌++◌, IfOk, OnOk};
ghost use Rattle.std.specs.List.{flat_map};
ghost use Rattle.memory.specs.Mirrored.{stored};
ghost use Rattle.dictionary.specs.Chain.{chain};
ghost use Rattle.dictionary.specs.Order.{members};
ghost use Rattle.forth_names.specs.Names.{listed_name, listed_names};

use dictionary::name_length;
use memory::Memory;
use memory::system::FORTH_VOC;
use std::alloc::{AllocError, Global};

/// Where a chain is cut.
const CUT: u32 = 32769;

/// Adds the name of a header, and a blank.
#[tactic(auto, unfolding(crate::specs::Names::listed_name, dictionary::specs::Header::name_of))]
fn push_name(names: &mut Vec<u8>, memory: &Memory, l: u16) -> Result<(), AllocError>
    ensures { OnOk result (names.new.items ≡ names.old.items ++ listed_name (stored memory.now) l) }
{
    let (front, back) = memory.span(l.wrapping_add(3), u16::from(name_length(memory, l)));
    names.extend_from_slice(front)?;
    names.extend_from_slice(back)?;
    names.extend_from_slice(b" ")
}

/// Adds the names of a chain, the newest first.
fn push_chain(names: &mut Vec<u8>, memory: &Memory, head: u16) -> Result<(), AllocError>
    ensures { OnOk result (names.new.items ≡ names.old.items ++ flat_map (listed_name (stored memory.now)) (members (stored memory.now) head)) }
{
    let mut l = memory.cell(head);
    let mut left = CUT;
    while left > 0 && l != 0 {
        push_name(names, memory, l)?;
        l = memory.cell(l);
        left -= 1;
    }
    Ok(())
}

/// The names of the vocabulary FORTH, those of each of its chains after another; a blank after each. A chain is cut after 32,769.
#[tactic(auto, unfolding(crate::specs::Names::listed_names, dictionary::specs::Order::members_of))]
pub fn forth_names(alloc: Global, memory: &Memory) -> Result<Vec<u8>, AllocError>
    ensures { IfOk result (λ names. names.items ≡ listed_names (stored memory.now)) }
{
    let mut names = Vec::new(alloc);
    push_chain(&mut names, memory, FORTH_VOC)?;
    push_chain(&mut names, memory, FORTH_VOC + 2)?;
    push_chain(&mut names, memory, FORTH_VOC + 4)?;
    push_chain(&mut names, memory, FORTH_VOC + 6)?;
    Ok(names)
}
