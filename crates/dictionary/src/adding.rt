//! New headers.

ghost use Rattle.std.specs.Prelude.{◌≡◌, ◌+◌, ◌<◌, ◌≤◌, length, OnOk};
ghost use Rattle.memory.specs.Bytes.{cell, put_bytes};
ghost use Rattle.memory.specs.Mirrored.{stored};
ghost use Rattle.dictionary.specs.Laying.{fits};
ghost use Rattle.dictionary.specs.Adding.{is_name, new_count, header_bytes, site_of, with_header_at, with_header, header_size, IsAddable, IsAdded, record_bytes, with_vocabulary_at, with_vocabulary, IsVocabularyAdded};

use crate::bits::CountByte;
use crate::code_fields::VOCABULARY;
use crate::fault::AddFault;
use crate::laying::fits;
use crate::lookups::head_of;
use crate::site::Site;
use memory::Memory;
use memory::system::{BLK, CURRENT, DP, LAST, VOC_LINK};

/// The bytes of a header besides its name: view, link, count byte and code field.
const FIXED_SIZE: u16 = 7;

/// The count byte of a new header.
fn new_count(hidden: bool, name: &[u8]) -> u8
    requires { length name.now ≤ 31 }
    ensures value { result ≡ new_count hidden name.now }
{
    let length = name.len() as u8;
    let count = if hidden {
        CountByte::hidden_of_length(length)
    } else {
        CountByte::of_length(length)
    };
    count.0
}

/// Writes a header's bytes from `site.here` on.
#[tactic(auto, using(crate::proofs::Pieces::put_header))]
fn put_header(memory: &mut Memory, site: Site, name: &[u8], code: u16, extra: &[u8], hidden: bool)
    requires { length name.now ≤ 31 }
    ensures { stored memory.new ≡ put_bytes (stored memory.old) site.here
        (header_bytes site.view site.link (new_count hidden name.now) name.now code extra.now) }
{
    let here = site.here;
    let code_field = here.wrapping_add(5 + name.len() as u16);
    memory.set_cell(here, site.view);
    memory.set_cell(here.wrapping_add(2), site.link);
    memory.set_byte(here.wrapping_add(4), new_count(hidden, name));
    memory.set_bytes(here.wrapping_add(5), name);
    memory.set_cell(code_field, code);
    memory.set_bytes(code_field.wrapping_add(2), extra);
}

impl Site {
    /// The place of a new header of that name: at HERE, in the chain of the name's class in CURRENT.
    #[tactic(auto, unfolding(crate::specs::Adding::site_of))]
    pub fn of(memory: &Memory, name: &[u8]) -> Site
        requires { 0 < length name.now }
        ensures { result ≡ site_of (stored memory.now) name.now }
    {
        let head = head_of(memory.cell(CURRENT), name);
        Site {
            here: memory.cell(DP),
            view: memory.cell(BLK),
            link: memory.cell(head),
            head,
        }
    }

    /// Writes a header here: its bytes with the code field `code` and `extra` after it, then DP, then the head of its
    /// chain and LAST. Whether it fits isn't asked.
    #[tactic(auto, using(crate::proofs::Pieces::length_header), unfolding(crate::specs::Adding::with_header_at, memory::specs::Bytes::written))]
    pub fn write(self, memory: &mut Memory, name: &[u8], code: u16, extra: &[u8], hidden: bool)
        requires name { length name.now ≤ 31 }
        requires size { header_size name.now extra.now ≤ 65535 }
        ensures { stored memory.new ≡ with_header_at self (stored memory.old) name.now code extra.now hidden }
    {
        put_header(memory, self, name, code, extra, hidden);
        let size = FIXED_SIZE + name.len() as u16 + extra.len() as u16;
        memory.set_cell(DP, self.here.wrapping_add(size));
        let link_field = self.here.wrapping_add(2);
        memory.set_cell(self.head, link_field);
        memory.set_cell(LAST, link_field);
    }

    /// Writes a vocabulary here: its header and its record, which links to the record `newest`, and last the record's
    /// address in VOC-LINK. Whether it fits isn't asked.
    #[tactic(auto, unfolding(crate::specs::Adding::with_vocabulary_at, crate::specs::Adding::with_header_at, memory::specs::Bytes::written))]
    pub fn write_vocabulary(self, memory: &mut Memory, name: &[u8], newest: u16)
        requires { length name.now ≤ 31 }
        ensures { stored memory.new ≡ with_vocabulary_at self newest (stored memory.old) name.now }
    {
        let record = self.here.wrapping_add(FIXED_SIZE + name.len() as u16);
        self.write(memory, name, VOCABULARY, &record_bytes(newest), false);
        memory.set_cell(VOC_LINK, record);
    }
}

/// The record of a new vocabulary: four empty chains, and the newest record before it.
#[tactic(auto, unfolding(crate::specs::Adding::record_bytes, memory::specs::Bytes::cell_bytes))]
pub fn record_bytes(newest: u16) -> [u8; 10]
    ensures value { result ≡ record_bytes newest }
    ensures len { length result ≡ 10 }
{
    [
        0,
        0,
        0,
        0,
        0,
        0,
        0,
        0,
        (newest % 256) as u8,
        (newest / 256) as u8,
    ]
}

/// Whether a header of that name can be added, with `extra` written with it: `NameLength` for a name of 0 or over 31
/// bytes, then `Full` if the bytes would end after `limit`.
#[tactic(auto, unfolding(crate::specs::Adding::is_name))]
pub fn can_add(memory: &Memory, name: &[u8], extra: &[u8], limit: u16) -> Result<(), AddFault>
    ensures cases { IsAddable limit (stored memory.now) name.now extra.now result }
    ensures bound { OnOk result (header_size name.now extra.now ≤ limit) }
{
    if name.is_empty() {
        return Err(AddFault::NameLength);
    }
    if name.len() > 31 {
        return Err(AddFault::NameLength);
    }
    if !fits(memory, 7 + name.len() + extra.len(), limit) {
        return Err(AddFault::Full);
    }
    Ok(())
}

/// Adds a header to the chain of its name's class in CURRENT (Forth-83 CREATE): its bytes at HERE, with the code field
/// `code` and `extra` after it, then DP, then the head of its chain and LAST. A hidden header isn't found until it is
/// revealed. The view is BLK.
///
/// Refused as `can_add` says: then nothing is written.
#[tactic(auto, unfolding(crate::specs::Adding::is_name, crate::specs::Adding::with_header))]
pub fn add_header(
    memory: &mut Memory,
    name: &[u8],
    code: u16,
    extra: &[u8],
    hidden: bool,
    limit: u16,
) -> Result<(), AddFault>
    ensures { IsAdded limit (stored memory.old) (stored memory.new) name.now code extra.now hidden result }
{
    can_add(memory, name, extra, limit)?;
    let site = Site::of(memory, name);
    site.write(memory, name, code, extra, hidden);
    Ok(())
}

/// Adds a vocabulary (Forth-83 VOCABULARY): a header in CURRENT, with a record of four empty chains and of the newest
/// record before it written with it; last, VOC-LINK names that record.
///
/// Refused as `can_add` says: then nothing is written.
#[tactic(auto, unfolding(crate::specs::Adding::is_name, crate::specs::Adding::with_vocabulary))]
pub fn add_vocabulary(memory: &mut Memory, name: &[u8], limit: u16) -> Result<(), AddFault>
    ensures { IsVocabularyAdded limit (stored memory.old) (stored memory.new) name.now result }
{
    let newest = memory.cell(VOC_LINK);
    can_add(memory, name, &record_bytes(newest), limit)?;
    let site = Site::of(memory, name);
    site.write_vocabulary(memory, name, newest);
    Ok(())
}
