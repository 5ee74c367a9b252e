//! Where the BEGINs belong.

ghost use Rattle.std.specs.Prelude.{◌≡◌, ◌<◌, ◌≤◌, ◌==◌, ◌+◌, ◌^◌, true, ℕ, List, [], ◌++◌, length, map, sum, drop, replicate, slice_index, slice_set, vec_len, vec_capacity, if◌then◌else◌};
ghost use Rattle.colon_bodies.specs.Tokens.{Token, laid_by};
ghost use Rattle.colon_bodies.specs.Draft.{token};
ghost use Rattle.see.specs.Parts.{token_in};
ghost use Rattle.see.specs.Places.{IsSketch, AreLed, opened};

use crate::parts::{Part, word_in};
use colon_bodies::BodyWord;

/// How many bytes a word writes.
pub fn bytes_of(word: BodyWord) -> usize
    ensures { result ≡ laid_by (token word.entry) }
{
    match word {
        BodyWord::Force | BodyWord::Then | BodyWord::Begin => 0,
        BodyWord::Name(_)
        | BodyWord::Tick
        | BodyWord::Compile
        | BodyWord::Does
        | BodyWord::Semicolon => 2,
        BodyWord::Double(_) => 8,
        BodyWord::Text(_, text) => text.len() + 3,
        _ => 4,
    }
}

/// No BEGIN, at each of so many places.
pub fn no_begins(begins: &mut Vec<usize>, places: usize)
    requires { places ≤ vec_capacity begins.old }
    ensures none { begins.new.items ≡ replicate places 0 }
    ensures room { vec_capacity begins.old ≤ vec_capacity begins.new }
{
    begins.clear();
    begins.resize(places, 0).unwrap();
}

/// Counts one more BEGIN at `to`, in a thread that is at `at`. False if it has no such place.
pub fn count_begin(begins: &mut [usize], at: usize, to: usize) -> bool
    ensures counted { (place : ℕ) → to ≡ at + place → place < length begins.old → slice_index begins.old place + 1 < 2 ^ 64 →
        (result ≡ true) × (begins.new ≡ slice_set begins.old place (slice_index begins.old place + 1)) }
    ensures few { sum begins.new ≤ sum begins.old + 1 }
{
    if to < at {
        return false;
    }
    let place = to - at;
    if place >= begins.len() {
        return false;
    }
    begins[place] = begins[place].saturating_add(1);
    true
}

/// How many BEGINs belong before a word that writes so many bytes at the first of these places.
fn begins_before(begins: &[usize], size: usize) -> usize
    ensures { result ≡ (if size == 0 then 0 else slice_index begins.now 0) }
{
    if size == 0 {
        return 0;
    }
    begins.first().copied().unwrap_or(0)
}

/// The places after the first `n`.
fn places_behind(begins: &[usize], n: usize) -> &[usize]
    ensures { result.now ≡ drop n begins.now }
{
    if n < begins.len() {
        &begins[n..]
    } else {
        &begins[begins.len()..]
    }
}

/// Writes `n` BEGINs.
fn push_begins(words: &mut Vec<Part>, n: usize)
    requires { vec_len words.old + n ≤ vec_capacity words.old }
    ensures written { (bytes : List ℕ) → map (token_in bytes) words.new.items ≡ map (token_in bytes) words.old.items ++ opened n [] }
    ensures few { vec_len words.new ≡ vec_len words.old + n }
    ensures room { vec_capacity words.new ≡ vec_capacity words.old }
{
    for _ in 0..n {
        words.push_reserved(Part::Word(BodyWord::Begin));
    }
}

/// Words of the thread of these bytes with their BEGINs, of which so many belong at each place.
pub fn with_begins(whole: &mut Vec<Part>, words: &[Part], begins: &[usize], bytes: &[u8])
    requires { length words.now + sum begins.now ≤ vec_capacity whole.old }
    ensures whole { (all : List Token) → IsSketch all (map (token_in bytes.now) words.now) begins.now → AreLed all →
        map (token_in bytes.now) whole.new.items ≡ all }
    ensures few { vec_len whole.new ≤ length words.now + sum begins.now }
    ensures room { vec_capacity whole.new ≡ vec_capacity whole.old }
{
    whole.clear();
    let mut left = begins;
    for word in words.iter() {
        let size = bytes_of(word_in(bytes, *word));
        push_begins(whole, begins_before(left, size));
        whole.push_reserved(*word);
        left = places_behind(left, size);
    }
}
