//! What rows write in several places: the index gets to know of each.

ghost use Rattle.std.specs.Prelude.{ℕ, ◌≡◌, ◌+◌, ◌≤◌, List, [], ◌∷◌, length};
ghost use Rattle.block_buffers.specs.Entries.{limit};
ghost use Rattle.compiling_words.specs.Code.{text_code};
ghost use Rattle.compiling_words.specs.Definitions.{IsEnded};
ghost use Rattle.dictionary.specs.Adding.{header_size, with_header_at};
ghost use Rattle.dictionary.specs.Laying.{laid_at};
ghost use Rattle.input_source.specs.Placing.{IsPlaced};
ghost use Rattle.memory.specs.Bytes.{PutBytes, PutCell, written};
ghost use Rattle.memory.specs.declared.system.TheConstants.{DP, LAST};
ghost use Rattle.name_index.specs.Index.{Holds};

use compiling_words::Full;
use dictionary::{Site, newest_count};
use input_source::{Stream, TooLong, Word};
use machine_parts::parts::Parts;
use memory::system::DP;
use name_index::NameIndex;

/// The bytes of a header besides its name: view, link, count byte and code field.
const FIXED_SIZE: u16 = 7;

/// Says the index of a new header of `size` bytes: of its bytes, and of the head of its chain. DP and LAST are not
/// watched.
#[tactic(auto, using(crate::proofs::Beside::holding))]
fn note_header(index: &mut NameIndex, here: u16, size: u16, head: u16)
    ensures holds { (limit : ℕ) (m header : List ℕ) (end link : ℕ) → length header ≡ size → Holds limit index.old m
        → Holds limit index.new (written m
        (PutBytes here header ∷ PutCell DP end ∷ PutCell head link ∷ PutCell LAST link ∷ [])) }
{
    index.note(here, size);
    index.note(head, 2);
}

/// Writes a header at its site, as `Site::write`.
#[tactic(auto, using(dictionary::proofs::Pieces::length_header), unfolding(dictionary::specs::Adding::with_header_at))]
pub fn write_header(
    parts: &mut Parts,
    site: Site,
    name: &[u8],
    code: u16,
    extra: &[u8],
    hidden: bool,
)
    requires name { length name.now ≤ 31 }
    requires size { header_size name.now extra.now ≤ 65535 }
    ensures { parts.new ≡ (record parts.old
        { memory = with_header_at site parts.old.memory name.now code extra.now hidden }) }
{
    site.write(parts.memory, name, code, extra, hidden);
    let size = FIXED_SIZE + name.len() as u16 + extra.len() as u16;
    note_header(&mut parts.index, site.here, size, site.head);
}

/// Writes a token and a counted text at an address, as `compiling_words::lay_text`.
#[tactic(auto, using(name_index::proofs::Writes::writes, compiling_words::proofs::Texts::texts), unfolding(dictionary::specs::Laying::laid_at))]
pub fn lay_text(parts: &mut Parts, here: u16, token: u16, text: &[u8])
    requires { length text.now ≤ 255 }
    ensures { parts.new ≡ (record parts.old { memory = laid_at here parts.old.memory (text_code token text.now) }) }
{
    compiling_words::lay_text(parts.memory, here, token, text);
    parts.index.note(here, 3 + text.len() as u16);
}

/// Leaves a word of the stream at HERE, as `input_source::place_word`.
#[tactic(auto, using(crate::proofs::Beside::holding))]
pub fn place_word(parts: &mut Parts, stream: Stream, word: Word) -> Result<u16, TooLong>
    ensures placed { IsPlaced parts.old.memory parts.new.memory stream word result }
    ensures same { parts.new ≡ (record parts.old { memory = parts.new.memory }) }
{
    let _ = parts.memory.len();
    match input_source::place_word(parts.memory, stream, word) {
        Ok(here) => {
            parts.index.note(here, word.len + 2);
            Ok(here)
        }
        Err(too_long) => Err(too_long),
    }
}

/// Ends a definition, as `compiling_words::end_definition`.
#[tactic(auto, using(crate::proofs::Beside::holding))]
pub fn end_definition(parts: &mut Parts) -> Result<(), Full>
    ensures ended { IsEnded (limit parts.old.buffers) parts.old.memory parts.new.memory result }
    ensures same { parts.new ≡ (record parts.old { memory = parts.new.memory }) }
{
    let here = parts.memory.cell(DP);
    let count = newest_count(parts.memory);
    match compiling_words::end_definition(parts.memory, parts.limit) {
        Ok(()) => {
            parts.index.note(here, 2);
            parts.index.note(count, 1);
            Ok(())
        }
        Err(full) => Err(full),
    }
}
