//! Names that were mistyped.

ghost use Rattle.std.specs.Prelude.{◌≡◌, ◌≤◌, drop, length};
ghost use Rattle.advice.specs.Near.{PartAt, differs_once as differs, is_near as near, is_one_more as one_more, is_turned as turned};

/// Letters of the shortest name that may have been mistyped.
const SHORTEST: usize = 3;

/// How many letters two names begin with that are the same.
#[tactic(auto, using(crate::proofs::Nearness::same_more))]
fn same_letters(one: &[u8], other: &[u8]) -> usize
    ensures within { (result ≤ length one.now) × (result ≤ length other.now) }
    ensures shared { differs one.now other.now ≡ differs (drop result one.now) (drop result other.now) }
    ensures parted { PartAt one.now other.now result }
{
    let most = one.len().min(other.len());
    for place in 0..most {
        if one[place] != other[place] {
            return place;
        }
    }
    most
}

/// Whether a text is this letter with another text after it.
fn is_one_more(text: &[u8], letter: u8, after: &[u8]) -> bool
    ensures { result ≡ one_more text.now letter after.now }
{
    match text {
        [first, rest @ ..] => *first == letter && rest == after,
        [] => false,
    }
}

/// Whether two texts, each after a letter, are the same if the first two letters of one of them change places.
fn is_turned(a: u8, one: &[u8], b: u8, other: &[u8]) -> bool
    ensures { result ≡ turned a one.now b other.now }
{
    match (one, other) {
        ([c, one @ ..], [d, other @ ..]) => a == *d && b == *c && one == other,
        _ => false,
    }
}

/// Whether two texts that begin with other letters differ by one letter more, less or other, or by two neighbors that change places; or if one has
/// no letters, whether the other has at most one.
#[tactic(auto, unfolding(crate::specs::Near::differs_once))]
fn differs_once(one: &[u8], other: &[u8]) -> bool
    ensures { PartAt one.now other.now 0 → result ≡ differs one.now other.now }
{
    match (one, other) {
        ([], other) => other.len() <= 1,
        ([_, one @ ..], []) => one.is_empty(),
        ([a, one @ ..], [b, other @ ..]) => {
            one == other
                || is_one_more(one, *b, other)
                || is_one_more(other, *a, one)
                || is_turned(*a, one, *b, other)
        }
    }
}

/// Whether one name becomes the other by one letter more, less or other, or by two neighbors that change places, or is the same. Shorter names than
/// three letters are near to none.
#[tactic(auto, using(crate::proofs::Nearness::whole))]
pub fn is_near(one: &[u8], other: &[u8]) -> bool
    ensures { result ≡ near one.now other.now }
{
    if one.len() < SHORTEST || other.len() < SHORTEST {
        return false;
    }
    let same = same_letters(one, other);
    differs_once(&one[same..], &other[same..])
}
