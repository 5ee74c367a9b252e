//! Which dialect it is, and how sure that is.

use crate::signs::Sign;
use std::alloc::{AllocError, Global};
use survey_tables::{DIALECTS, Dialect, Dialects};

/// How far the best dialect must be before the next one: a strong sign, or several weak ones.
const LEAD: u32 = 3;

/// How sure it is which dialect it is.
#[derive(Clone, Copy, Debug, PartialEq, Eq, Drop)]
pub enum Certainty {
    Surely,
    Probably,
    Undecided,
}

/// A dialect with what speaks for it: how much the signs say, and how many words stay unknown after it.
#[derive(Clone, Copy)]
pub struct Rank {
    pub dialect: Dialect,
    pub score: u32,
    pub unknown: usize,
}

/// Which dialects it may be, the best first; how sure that is; and the signs for and against the best. Those in question are these,
/// and the next one if it is not sure.
#[derive(Drop)]
pub struct Verdict<'a> {
    pub dialects: Vec<Dialect>,
    pub in_question: Vec<Dialect>,
    pub certainty: Certainty,
    pub reasons: Vec<Sign<'a>>,
    pub against: Vec<Sign<'a>>,
}

/// How much signs say.
fn weight_of<'a, 'b>(signs: &'b [Sign<'a>], speaks: Dialects, test: bool) -> u32 {
    signs
        .iter()
        .filter(|sign| sign.dialects.meets(speaks) == test)
        .fold(0u32, |sum, sign| sum.saturating_add(u32::from(sign.weight)))
}

/// The dialect alone.
pub fn alone(dialect: Dialect) -> Dialects {
    Dialects::such(|one| one == dialect)
}

/// The signs that speak for one of these dialects, or for none of them.
fn such<'a>(
    alloc: Global,
    signs: &[Sign<'a>],
    dialects: Dialects,
    speaks: bool,
) -> Result<Vec<Sign<'a>>, AllocError> {
    let mut found = Vec::new(alloc);
    for sign in signs {
        if sign.dialects.meets(dialects) == speaks && !(speaks && sign.dialects.is_all()) {
            found.push(*sign)?;
        }
    }
    Ok(found)
}

/// The dialects, those first for which the signs say most, and among these those with the fewest unknown words.
pub fn ranks(
    alloc: Global,
    signs: &[Sign<'_>],
    unknown: &[(Dialect, usize)],
) -> Result<Vec<Rank>, AllocError> {
    let mut found = Vec::new(alloc);
    for (dialect, unknown) in unknown {
        found.push(Rank {
            dialect: *dialect,
            score: weight_of(signs, alone(*dialect), true),
            unknown: *unknown,
        })?;
    }
    found.sort_by_key(|rank| (u32::MAX - rank.score, rank.unknown))?;
    Ok(found)
}

/// The dialects whose score is less than this below the best.
fn near(
    alloc: Global,
    ranks: &[Rank],
    best: u32,
    distance: u32,
) -> Result<Vec<Dialect>, AllocError> {
    let mut found = Vec::new(alloc);
    for rank in ranks {
        if best.saturating_sub(rank.score) < distance {
            found.push(rank.dialect)?;
        }
    }
    Ok(found)
}

/// Whether the signs for the best are so many, and those against it so few, that it is sure.
fn is_sure(lead: u32, own: &[Sign<'_>], against: &[Sign<'_>], next: Dialect) -> bool {
    let apart = own.iter().filter(|sign| !sign.dialects.has(next)).count();
    let is_strong = own
        .iter()
        .any(|sign| !sign.dialects.has(next) && sign.weight > 5);
    let all = Dialects::such(|_| true);
    lead >= 5
        && (apart > 1 || is_strong)
        && weight_of(against, all, true).saturating_mul(3) < weight_of(own, all, true)
}

/// The dialect for which the signs speak.
fn decided<'a>(
    alloc: Global,
    lead: u32,
    best: Dialect,
    next: Dialect,
    own: Vec<Sign<'a>>,
    against: Vec<Sign<'a>>,
) -> Result<Verdict<'a>, AllocError> {
    let mut reasons = own;
    let is_sure = is_sure(lead, reasons.as_slice(), against.as_slice(), next);
    let mut in_question = vec![in alloc; best]?;
    if !is_sure {
        in_question.push(next)?;
    }
    reasons.sort_by_key(|sign| (sign.dialects.has(next), u8::MAX - sign.weight))?;
    Ok(Verdict {
        dialects: vec![in alloc; best]?,
        in_question,
        certainty: if is_sure {
            Certainty::Surely
        } else {
            Certainty::Probably
        },
        reasons,
        against,
    })
}

/// All between which the signs don't decide.
fn undecided<'a>(
    alloc: Global,
    ranks: &[Rank],
    best: u32,
    own: Vec<Sign<'a>>,
    against: &[Sign<'a>],
) -> Result<Verdict<'a>, AllocError> {
    let mut dialects = near(alloc, ranks, best, 2)?;
    if dialects.len() < 2 {
        dialects = near(alloc, ranks, best, LEAD)?;
    }
    let tied = Dialects::such(|dialect| dialects.contains(&dialect));
    let against = such(alloc, against, tied, false)?;
    let in_question = dialects.clone()?;
    Ok(Verdict {
        dialects,
        in_question,
        certainty: Certainty::Undecided,
        reasons: own,
        against,
    })
}

/// The dialect for which the signs speak, or all between which they don't decide.
pub fn decide<'a>(
    alloc: Global,
    signs: &[Sign<'a>],
    unknown: &[(Dialect, usize)],
) -> Result<Verdict<'a>, AllocError> {
    let ranks = ranks(alloc, signs, unknown)?;
    let (best, next) = match ranks.as_slice() {
        [best, next, ..] => (*best, *next),
        _ => {
            let nobody = Rank {
                dialect: DIALECTS[0],
                score: 0,
                unknown: 0,
            };
            (nobody, nobody)
        }
    };
    let own = such(alloc, signs, alone(best.dialect), true)?;
    let against = such(alloc, signs, alone(best.dialect), false)?;
    let lead = best.score.saturating_sub(next.score);
    if lead >= LEAD {
        return decided(alloc, lead, best.dialect, next.dialect, own, against);
    }
    undecided(alloc, ranks.as_slice(), best.score, own, against.as_slice())
}
