//! A definition as text.

ghost use Rattle.std.specs.Prelude.{◌≡◌, ◌||◌, ◌++◌, ◌+◌, ◌*◌, ◌≤◌, true, [], ◌∷◌, length, map, codes, Some, vec_len, vec_capacity};
ghost use Rattle.memory.specs.Mirrored.{stored};
ghost use Rattle.dictionary.specs.Header.{is_immediate};
ghost use Rattle.dictionary.specs.Order.{headers};
ghost use Rattle.source_words.specs.Spaced.{bare, spaced, spaced_behind, quoted};
ghost use Rattle.colon_bodies.specs.Draft.{token};
ghost use Rattle.colon_bodies.specs.Tokens.{NAME, NUMBER, TEXT, laid, laid_by};
ghost use Rattle.see.specs.Parts.{token_in};
ghost use Rattle.see.specs.Seeing.{IsWritten};
ghost use Rattle.see.specs.Printing.{is_keyword, keyword_text, called};

use crate::adding::add_bytes;
use crate::naming::{copy_name_if, is_free, is_quotable, is_word, meant, number_text};
use crate::parts::{Part, word_in};
use crate::refusal::SeeRefused;
use colon_bodies::BodyWord;
use dictionary::{header_at, is_immediate};
use image_builder::keyword;
use itoa::Buffer;
use memory::Memory;

/// Whether a word is one that a body reads as a keyword, or as the beginning of a comment.
#[tactic(auto, unfolding(crate::specs::Printing::is_keyword, source_words::specs::Modes::begins_comment))]
fn is_keyword(name: &[u8]) -> bool
    ensures { result ≡ is_keyword name.now }
{
    name == b"(".as_slice() || keyword(name, b"".as_slice()).is_some()
}

/// How a keyword is spelled.
fn keyword_text(word: BodyWord) -> &'static [u8]
    ensures is { result.now ≡ keyword_text (token word.entry) }
    ensures short { length result.now ≤ 9 }
{
    match word {
        BodyWord::Tick => b"[']".as_slice(),
        BodyWord::Force => b"[COMPILE]".as_slice(),
        BodyWord::Compile => b"COMPILE".as_slice(),
        BodyWord::If => b"IF".as_slice(),
        BodyWord::Else => b"ELSE".as_slice(),
        BodyWord::Then => b"THEN".as_slice(),
        BodyWord::Begin => b"BEGIN".as_slice(),
        BodyWord::Until => b"UNTIL".as_slice(),
        BodyWord::Again => b"AGAIN".as_slice(),
        BodyWord::While => b"WHILE".as_slice(),
        BodyWord::Repeat => b"REPEAT".as_slice(),
        BodyWord::Do => b"DO".as_slice(),
        BodyWord::Loop(false) => b"LOOP".as_slice(),
        BodyWord::Loop(true) => b"+LOOP".as_slice(),
        BodyWord::Text(false, _) => b".\"".as_slice(),
        BodyWord::Text(true, _) => b"ABORT\"".as_slice(),
        BodyWord::Does => b"DOES>".as_slice(),
        BodyWord::Semicolon => b";".as_slice(),
        BodyWord::Name(_) | BodyWord::Number(_) | BodyWord::Double(_) => b"".as_slice(),
    }
}

/// Writes a word after a blank.
#[tactic(auto, unfolding(source_words::specs::Spaced::spaced_behind, source_words::specs::Spaced::quoted))]
fn write_word(out: &mut Vec<u8>, name: &[u8])
    requires { vec_len out.old + 1 + length name.now ≤ vec_capacity out.old }
    ensures written { out.new.items ≡ out.old.items ++ spaced_behind (bare name.now ∷ []) }
    ensures few { vec_len out.new ≡ vec_len out.old + 1 + length name.now }
    ensures room { vec_capacity out.old ≤ vec_capacity out.new }
{
    out.push_reserved(b' ');
    add_bytes(out, name);
}

/// Writes a word and its text.
#[tactic(auto, unfolding(source_words::specs::Spaced::spaced_behind, source_words::specs::Spaced::quoted))]
fn write_text(out: &mut Vec<u8>, name: &[u8], text: &[u8])
    requires { vec_len out.old + 3 + length name.now + length text.now ≤ vec_capacity out.old }
    ensures written { out.new.items ≡ out.old.items ++ spaced_behind (record { name = name.now; text = Some text.now } ∷ []) }
    ensures few { vec_len out.new ≡ vec_len out.old + 3 + length name.now + length text.now }
    ensures room { vec_capacity out.old ≤ vec_capacity out.new }
{
    out.push_reserved(b' ');
    add_bytes(out, name);
    out.push_reserved(b' ');
    add_bytes(out, text);
    out.push_reserved(b'"');
}

/// Writes a name after [COMPILE].
fn write_forced(out: &mut Vec<u8>, name: &[u8])
    requires { vec_len out.old + 11 + length name.now ≤ vec_capacity out.old }
    ensures written { out.new.items ≡ out.old.items ++ spaced_behind (called true name.now) }
    ensures few { vec_len out.new ≤ vec_len out.old + 11 + length name.now }
    ensures room { vec_capacity out.old ≤ vec_capacity out.new }
{
    write_word(out, b"[COMPILE]".as_slice());
    write_word(out, name);
}

/// Writes a name, after [COMPILE] if it is forced.
fn write_called(out: &mut Vec<u8>, forced: bool, name: &[u8])
    requires { vec_len out.old + 11 + length name.now ≤ vec_capacity out.old }
    ensures written { out.new.items ≡ out.old.items ++ spaced_behind (called forced name.now) }
    ensures few { vec_len out.new ≤ vec_len out.old + 11 + length name.now }
    ensures room { vec_capacity out.old ≤ vec_capacity out.new }
{
    if forced {
        write_forced(out, name);
    } else {
        write_word(out, name);
    }
}

/// Writes a name that means the header at `k`, after [COMPILE] if that is immediate or the name is spelled as a keyword.
fn write_meant(out: &mut Vec<u8>, memory: &Memory, k: u16, name: &[u8])
    requires { vec_len out.old + 11 + length name.now ≤ vec_capacity out.old }
    ensures written { out.new.items ≡ out.old.items ++ spaced_behind
        (called (is_immediate (stored memory.now) k || is_keyword name.now) name.now) }
    ensures few { vec_len out.new ≤ vec_len out.old + 11 + length name.now }
    ensures room { vec_capacity out.old ≤ vec_capacity out.new }
{
    let forced = is_immediate(memory, k) || is_keyword(name);
    write_called(out, forced, name);
}

/// Writes the name of an address, or says what is wrong with it.
#[tactic(auto, using(crate::proofs::Printed::called_is), unfolding(crate::specs::Printing::is_forced, crate::specs::Naming::name_at))]
fn show_name(
    out: &mut Vec<u8>,
    name: &mut Vec<u8>,
    memory: &Memory,
    listed: &[u16],
    hidden: u16,
    w: u16,
) -> Result<(), SeeRefused>
    requires listed { listed.now ≡ headers (stored memory.now) }
    requires name { 31 ≤ vec_capacity name.old }
    requires room { vec_len out.old + 42 ≤ vec_capacity out.old }
    ensures written { IsWritten (stored memory.now) hidden (NAME w ∷ []) out.old.items out.new.items result }
    ensures few { vec_len out.new ≤ vec_len out.old + 42 }
    ensures room { vec_capacity out.old ≤ vec_capacity out.new }
    ensures name { vec_capacity name.old ≤ vec_capacity name.new }
{
    copy_name_if(name, memory, header_at(memory, listed, w));
    if !is_word(name) {
        return Err(SeeRefused::Nameless(w));
    }
    match meant(memory, hidden, name, w) {
        Some(k) => {
            write_meant(out, memory, k, name);
            Ok(())
        }
        None => Err(SeeRefused::Shadowed),
    }
}

/// Writes a number, or says what is wrong with it.
fn show_number(out: &mut Vec<u8>, memory: &Memory, hidden: u16, n: u16) -> Result<(), SeeRefused>
    requires room { vec_len out.old + 42 ≤ vec_capacity out.old }
    ensures written { IsWritten (stored memory.now) hidden (NUMBER n ∷ []) out.old.items out.new.items result }
    ensures few { vec_len out.new ≤ vec_len out.old + 42 }
    ensures room { vec_capacity out.old ≤ vec_capacity out.new }
{
    let mut buffer = Buffer::new();
    let text = number_text(&mut buffer, n);
    if !is_free(memory, hidden, text) {
        return Err(SeeRefused::Shadowed);
    }
    write_word(out, text);
    Ok(())
}

/// Writes a word with its text, or says what is wrong with that.
fn show_text(
    out: &mut Vec<u8>,
    memory: &Memory,
    hidden: u16,
    aborts: bool,
    text: &[u8],
) -> Result<(), SeeRefused>
    requires room { vec_len out.old + 42 + length text.now ≤ vec_capacity out.old }
    ensures written { IsWritten (stored memory.now) hidden (TEXT aborts text.now ∷ []) out.old.items out.new.items result }
    ensures few { vec_len out.new ≤ vec_len out.old + 42 + length text.now }
    ensures room { vec_capacity out.old ≤ vec_capacity out.new }
{
    if !is_quotable(text) {
        return Err(SeeRefused::BadText);
    }
    write_text(out, keyword_text(BodyWord::Text(aborts, text)), text);
    Ok(())
}

/// Writes a word of a body, or says what is wrong with it.
fn show_word(
    out: &mut Vec<u8>,
    name: &mut Vec<u8>,
    memory: &Memory,
    listed: &[u16],
    hidden: u16,
    word: BodyWord,
) -> Result<(), SeeRefused>
    requires listed { listed.now ≡ headers (stored memory.now) }
    requires name { 31 ≤ vec_capacity name.old }
    requires room { vec_len out.old + 42 + laid_by (token word) ≤ vec_capacity out.old }
    ensures written { IsWritten (stored memory.now) hidden (token word.entry ∷ []) out.old.items out.new.items result }
    ensures few { vec_len out.new ≤ vec_len out.old + 42 + laid_by (token word.entry) }
    ensures room { vec_capacity out.old ≤ vec_capacity out.new }
    ensures name { vec_capacity name.old ≤ vec_capacity name.new }
{
    match word {
        BodyWord::Name(w) => show_name(out, name, memory, listed, hidden, w),
        BodyWord::Number(n) => show_number(out, memory, hidden, n),
        BodyWord::Text(aborts, text) => show_text(out, memory, hidden, aborts, text),
        _ => {
            write_word(out, keyword_text(word));
            Ok(())
        }
    }
}

/// Writes the words of the body of a thread of these bytes, or says what is wrong with the first that can't be written.
pub fn show_words(
    out: &mut Vec<u8>,
    name: &mut Vec<u8>,
    memory: &Memory,
    listed: &[u16],
    hidden: u16,
    words: &[Part],
    bytes: &[u8],
) -> Result<(), SeeRefused>
    requires listed { listed.now ≡ headers (stored memory.now) }
    requires name { 31 ≤ vec_capacity name.old }
    requires room { vec_len out.old + (42 * length words.now + laid (map (token_in bytes.now) words.now)) ≤ vec_capacity out.old }
    ensures written { IsWritten (stored memory.now) hidden (map (token_in bytes.now) words.now) out.old.items out.new.items result }
    ensures room { vec_capacity out.old ≤ vec_capacity out.new }
    ensures name { vec_capacity name.old ≤ vec_capacity name.new }
{
    for word in words.iter() {
        show_word(out, name, memory, listed, hidden, word_in(bytes, *word))?;
    }
    Ok(())
}

/// Begins a definition, in place of what there was: `: NAME`.
#[tactic(auto, unfolding(source_words::specs::Spaced::spaced, source_words::specs::Spaced::spaced_behind, source_words::specs::Spaced::quoted))]
pub fn begin(out: &mut Vec<u8>, name: &[u8])
    requires { 2 + length name.now ≤ vec_capacity out.old }
    ensures begun { out.new.items ≡ spaced (bare (codes ":") ∷ bare name.now ∷ []) }
    ensures few { vec_len out.new ≡ 2 + length name.now }
    ensures room { vec_capacity out.old ≤ vec_capacity out.new }
{
    out.clear();
    out.push_reserved(b':');
    write_word(out, name);
}
