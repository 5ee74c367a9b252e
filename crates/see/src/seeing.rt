//! A colon word as the text of its definition.

ghost use Rattle.std.specs.Prelude.{◌≡◌, ◌≢◌, ◌≤◌, ◌+◌, ◌*◌, ℕ, IfErr, IfOk, OnOk, length, map, vec_len, vec_capacity};
ghost use Rattle.memory.specs.Mirrored.{stored};
ghost use Rattle.dictionary.specs.Order.{headers};
ghost use Rattle.dictionary.specs.Search.{Found, sought};
ghost use Rattle.colon_bodies.specs.Tokens.{laid};
ghost use Rattle.colon_bodies.specs.Tree.{Definition};
ghost use Rattle.see.specs.Extent.{extent, parameter_field};
ghost use Rattle.see.specs.Naming.{IsReadable};
ghost use Rattle.see.specs.Parts.{token_in};
ghost use Rattle.see.specs.Printing.{its_words};
ghost use Rattle.see.specs.Rooms.{HasWithin, IsWordRoom};
ghost use Rattle.see.specs.Seeing.{IsColon, IsDefined, IsHeader, IsPrinted, IsReadBack, IsSeen, IsSeenIn};
ghost use Rattle.see.specs.declared.refusal.SeeRefused.TheVariants.{OutOfMemory};

use crate::extent::{copy_extent, extent_size, list_controls, parameter_field};
use crate::naming::is_word;
use crate::printing::{begin, show_words};
use crate::refusal::SeeRefused;
use crate::word_room::WordRoom;
use crate::words::thread_words;
use dictionary::code_fields::COLON;
use dictionary::{
    ChainTooLong, HeaderList, HeadersFault, compilation_address, headers_in_order, search,
};
use memory::Memory;
use std::alloc::Global;
use std::marker::Model;

/// Writes the words that were found, as text.
fn show(
    room: &mut WordRoom,
    memory: &Memory,
    listed: &[u16],
    l: u16,
    name: &[u8],
) -> Result<(), SeeRefused>
    requires listed { listed.now ≡ headers (stored memory.now) }
    requires short { length name.now ≤ 31 }
    requires room { IsWordRoom room.old }
    requires words { vec_len room.old.thread.whole ≤ room.old.most + 1 }
    requires laid { laid (map (token_in room.old.bytes.items) room.old.thread.whole.items) ≤ room.old.most }
    ensures printed { IsPrinted (stored memory.now) l name.now (map (token_in room.old.bytes.items) room.old.thread.whole.items)
        room.new.text.items result }
    ensures room { IsWordRoom room.new }
    ensures most { room.new.most ≡ room.old.most }
{
    if !is_word(name) {
        return Err(SeeRefused::Nameless(compilation_address(memory, l)));
    }
    begin(&mut room.text, name);
    show_words(
        &mut room.text,
        &mut room.name,
        memory,
        listed,
        l,
        &room.thread.whole,
        &room.bytes,
    )
}

/// A colon word whose header is at `l`, as text in a room.
#[tactic(auto, using(crate::proofs::Answered::seen_by, crate::proofs::Answered::printed_roomy))]
fn see_colon(
    room: &mut WordRoom,
    memory: &Memory,
    listed: &[u16],
    l: u16,
    name: &[u8],
) -> Result<(), SeeRefused>
    requires listed { listed.now ≡ headers (stored memory.now) }
    requires short { length name.now ≤ 31 }
    requires room { IsWordRoom room.old }
    ensures seen { IsColon (stored memory.now) name.now l → IsSeenIn (stored memory.now) name.now room.new.text.items result }
    ensures roomy { length (extent (stored memory.now) (parameter_field (stored memory.now) l)) ≤ room.old.most →
        IfErr result (λ e. e ≢ OutOfMemory) }
    ensures whole { 65535 ≤ room.old.most → IfErr result (λ e. e ≢ OutOfMemory) }
    ensures room { IsWordRoom room.new }
    ensures most { room.new.most ≡ room.old.most }
{
    let at = parameter_field(memory, l);
    let size = extent_size(memory, listed, at);
    if size > room.most {
        return Err(SeeRefused::OutOfMemory);
    }
    list_controls(&mut room.controls, memory);
    copy_extent(&mut room.bytes, memory, at, size);
    if !thread_words(&mut room.thread, &room.bytes, &room.controls, at) {
        return Err(SeeRefused::NotStructured);
    }
    show(room, memory, listed, l, name)
}

/// Room in which words are shown whose threads have at most so many bytes. It has the text of the word that was shown last.
#[derive(Drop)]
pub struct SeeRoom {
    headers: HeaderList,
    word: WordRoom,
}

impl Model for SeeRoom {
    ghost use Rattle.see.specs.Rooms.{IsWordRoom, Showing};

    ghost Value = { Showing };

    ghost view = { λ r. record { most = r.word.most; text = r.word.text.items } };

    ghost invariant = { λ r. IsWordRoom r.word };
}

impl SeeRoom {
    /// Room for threads of so many bytes.
    pub fn new(alloc: Global, most: u16) -> Result<SeeRoom, memory::OutOfMemory>
        ensures { IfOk result (λ room. room.most ≡ most) }
    {
        let headers = HeaderList::new(alloc)?;
        match WordRoom::new(alloc, most) {
            Ok(word) => Ok(SeeRoom { headers, word }),
            Err(_) => Err(memory::OutOfMemory),
        }
    }

    /// The text of the word that was shown last.
    pub fn text(&self) -> &[u8]
        ensures { result.now ≡ self.now.text }
    {
        self.word.text.as_slice()
    }

    /// The word whose header is at `l`, as text in the room.
    fn see_header(&mut self, memory: &Memory, l: u16, name: &[u8]) -> Result<(), SeeRefused>
        requires { sought (stored memory.now) name.now ≡ Found l }
        ensures seen { IsSeenIn (stored memory.now) name.now self.new.text result }
        ensures roomy { length (extent (stored memory.now) (parameter_field (stored memory.now) l)) ≤ self.old.most →
            IfErr result (λ e. e ≢ OutOfMemory) }
        ensures whole { 65535 ≤ self.old.most → IfErr result (λ e. e ≢ OutOfMemory) }
        ensures most { self.new.most ≡ self.old.most }
    {
        let _ = memory.len();
        if let Err(ChainTooLong) = self.headers.fill(memory) {
            return Err(SeeRefused::ChainTooLong);
        }
        if memory.cell(compilation_address(memory, l)) != COLON {
            return Err(SeeRefused::NotColon);
        }
        see_colon(&mut self.word, memory, self.headers.as_slice(), l, name)
    }

    /// The colon word that a name means, as text in the room.
    fn see_named(&mut self, memory: &Memory, name: &[u8]) -> Result<(), SeeRefused>
        ensures seen { IsSeenIn (stored memory.now) name.now self.new.text result }
        ensures roomy { HasWithin (stored memory.now) name.now self.old.most → IfErr result (λ e. e ≢ OutOfMemory) }
        ensures whole { 65535 ≤ self.old.most → IfErr result (λ e. e ≢ OutOfMemory) }
        ensures most { self.new.most ≡ self.old.most }
    {
        match search(memory, name) {
            Ok(Some(l)) => self.see_header(memory, l, name),
            Ok(None) => Err(SeeRefused::NotFound),
            Err(ChainTooLong) => Err(SeeRefused::ChainTooLong),
        }
    }
}

/// As `see` answers, with the text in a room: memory is lacking only if the word's thread has more bytes than the room is for, which none
/// has if that is 65,535.
#[tactic(auto, using(crate::proofs::Answered::none_refused_in, crate::proofs::Whole::shown_read))]
pub fn see_in(room: &mut SeeRoom, memory: &Memory, name: &[u8]) -> Result<(), SeeRefused>
    ensures seen { IsSeenIn (stored memory.now) name.now room.new.text result }
    ensures read { OnOk result (IsReadBack (stored memory.now) name.now room.new.text) }
    ensures complete { (l : ℕ) (d : Definition) → IsDefined (stored memory.now) name.now l d →
        IsReadable (stored memory.now) l name.now (its_words d) → IfErr result (λ e. e ≡ OutOfMemory) }
    ensures roomy { HasWithin (stored memory.now) name.now room.old.most → IfErr result (λ e. e ≢ OutOfMemory) }
    ensures whole { 65535 ≤ room.old.most → IfErr result (λ e. e ≢ OutOfMemory) }
    ensures most { room.new.most ≡ room.old.most }
{
    room.see_named(memory, name)
}

/// A colon word whose header is at `l`, as text.
fn see_sized(
    alloc: Global,
    memory: &Memory,
    listed: &[u16],
    l: u16,
    name: &[u8],
) -> Result<Vec<u8>, SeeRefused>
    requires listed { listed.now ≡ headers (stored memory.now) }
    requires short { length name.now ≤ 31 }
    ensures { IsColon (stored memory.now) name.now l → IsSeen (stored memory.now) name.now result }
{
    let size = extent_size(memory, listed, parameter_field(memory, l));
    let mut room = WordRoom::new(alloc, size)?;
    see_colon(&mut room, memory, listed, l, name)?;
    Ok(room.text)
}

/// The word whose header is at `l`, as text.
fn see_header(alloc: Global, memory: &Memory, l: u16, name: &[u8]) -> Result<Vec<u8>, SeeRefused>
    requires { sought (stored memory.now) name.now ≡ Found l }
    ensures { IsSeen (stored memory.now) name.now result }
{
    let _ = memory.len();
    let listed = match headers_in_order(alloc, memory) {
        Ok(listed) => listed,
        Err(HeadersFault::ChainTooLong) => return Err(SeeRefused::ChainTooLong),
        Err(HeadersFault::OutOfMemory) => return Err(SeeRefused::OutOfMemory),
    };
    if memory.cell(compilation_address(memory, l)) != COLON {
        return Err(SeeRefused::NotColon);
    }
    see_sized(alloc, memory, &listed, l, name)
}

/// The word that a name means, as text.
fn see_named(alloc: Global, memory: &Memory, name: &[u8]) -> Result<Vec<u8>, SeeRefused>
    ensures { IsSeen (stored memory.now) name.now result }
{
    match search(memory, name) {
        Ok(Some(l)) => see_header(alloc, memory, l, name),
        Ok(None) => Err(SeeRefused::NotFound),
        Err(ChainTooLong) => Err(SeeRefused::ChainTooLong),
    }
}

/// The colon word that a name means, as text: `: NAME`, the body and `;`, with single blanks between. Numbers are signed
/// decimals, and `[COMPILE]` is before a name that is immediate or spelled as a keyword. What is printed compiles to
/// the word's thread again. The refusals are those of `SeeRefused`.
#[tactic(auto, using(crate::proofs::Answered::none_refused, crate::proofs::Whole::shown_read))]
pub fn see(alloc: Global, memory: &Memory, name: &[u8]) -> Result<Vec<u8>, SeeRefused>
    ensures seen { IsSeen (stored memory.now) name.now result }
    ensures read { IfOk result (λ v. IsReadBack (stored memory.now) name.now v.items) }
    ensures complete { (l : ℕ) (d : Definition) → IsDefined (stored memory.now) name.now l d →
        IsReadable (stored memory.now) l name.now (its_words d) → IfErr result (λ e. e ≡ OutOfMemory) }
{
    see_named(alloc, memory, name)
}
