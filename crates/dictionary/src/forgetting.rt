//! Forgetting.

ghost use Rattle.std.specs.Prelude.{◌≡◌};
ghost use Rattle.memory.specs.Bytes.{put_cell, written};
ghost use Rattle.memory.specs.Mirrored.{stored};
ghost use Rattle.dictionary.specs.Order.{members};
ghost use Rattle.dictionary.specs.Forgetting.{target, first_below, kept_record, cut_vocabulary, cuts, forgotten, IsForgotten, cut_all};

use crate::counting::{CUT, is_beyond_limit};
use crate::fault::ForgetFault;
use crate::lookups::search_in;
use memory::system::{CONTEXT, CURRENT, DP, FENCE, FORTH_VOC, LAST, VOC_LINK};
use memory::{Memory, Snapshot};

/// Where the header begins that a name means in CURRENT's vocabulary alone, if it can be forgotten.
///
/// In this order: `NameLength` for the empty name; `ChainTooLong` if the search passes its limit; `NotFound` if
/// there is no such header, or it begins below FENCE; `ChainTooLong` if more than 32,768 headers and records are
/// reached in all vocabularies.
#[tactic(auto, unfolding(crate::specs::Forgetting::target))]
pub fn forget_target(memory: &Memory, name: &[u8]) -> Result<u16, ForgetFault>
    ensures { result ≡ target (stored memory.now) name.now }
{
    if name.is_empty() {
        return Err(ForgetFault::NameLength);
    }
    match search_in(memory, memory.cell(CURRENT), name) {
        Ok(Some(l)) => {
            let t = l.wrapping_sub(2);
            if t < memory.cell(FENCE) {
                return Err(ForgetFault::NotFound);
            }
            if is_beyond_limit(memory) {
                return Err(ForgetFault::ChainTooLong);
            }
            Ok(t)
        }
        Ok(None) => Err(ForgetFault::NotFound),
        Err(_) => Err(ForgetFault::ChainTooLong),
    }
}

/// The first link field of a head's chain that is below `t`, or 0.
#[tactic(auto, using(crate::proofs::Cuts::members_below), unfolding(crate::specs::Order::members))]
fn member_below(before: &Snapshot, t: u16, head: u16) -> u16
    ensures { result ≡ first_below t (members before.now head) }
{
    let mut l = before.cell(head);
    let mut left = CUT;
    while left > 0 && l != 0 {
        if l < t {
            return l;
        }
        l = before.cell(l);
        left -= 1;
    }
    0
}

/// The newest record below `t`, or 0.
#[tactic(auto, using(crate::proofs::Cuts::records_below), unfolding(crate::specs::Forgetting::kept_record))]
fn kept_record(before: &Snapshot, t: u16) -> u16
    ensures { result ≡ kept_record before.now t }
{
    let mut r = before.cell(VOC_LINK);
    let mut left = CUT;
    while left > 0 && r != 0 {
        if r < t {
            return r;
        }
        r = before.cell(r.wrapping_add(8));
        left -= 1;
    }
    0
}

/// A head goes to the first link field of its chain below `t`.
fn cut_head(memory: &mut Memory, before: &Snapshot, t: u16, head: u16)
    ensures { stored memory.new ≡ put_cell (stored memory.old) head (first_below t (members before.now head)) }
{
    memory.set_cell(head, member_below(before, t, head));
}

/// So does each head of the records from `start` on.
#[tactic(auto, using(crate::proofs::Cuts::cutting))]
fn cut_all(memory: &mut Memory, before: &Snapshot, t: u16, start: u16)
    ensures { stored memory.new ≡ cut_all before.now t 32769 start (stored memory.old) }
{
    let mut r = start;
    let mut left = CUT;
    while left > 0 && r != 0 {
        cut_head(memory, before, t, r);
        cut_head(memory, before, t, r.wrapping_add(2));
        cut_head(memory, before, t, r.wrapping_add(4));
        cut_head(memory, before, t, r.wrapping_add(6));
        r = before.cell(r.wrapping_add(8));
        left -= 1;
    }
}

/// A cell that names a vocabulary at `t` or above goes to FORTH's. Any other isn't written.
#[tactic(auto, unfolding(crate::specs::Forgetting::cut_vocabulary, memory::specs::Bytes::written))]
fn cut_vocabulary(memory: &mut Memory, before: &Snapshot, t: u16, place: u16)
    ensures { stored memory.new ≡ written (stored memory.old) (cut_vocabulary before.now t place) }
{
    if t <= before.cell(place) {
        memory.set_cell(place, FORTH_VOC);
    }
}

/// Forgets what is at `t` and above, by the memory before: VOC-LINK goes to the newest record below `t`; each head
/// of the records from there on to the first link field of its chain below `t`; DP becomes `t`; CONTEXT and CURRENT
/// become FORTH if they are `t` or above; LAST becomes 0. They are written in this order.
#[tactic(auto, using(crate::proofs::Cuts::written_cuts))]
pub fn cut_by(memory: &mut Memory, before: &Snapshot, t: u16)
    ensures { stored memory.new ≡ written (stored memory.old) (cuts before.now t) }
{
    let kept = kept_record(before, t);
    memory.set_cell(VOC_LINK, kept);
    cut_all(memory, before, t, kept);
    memory.set_cell(DP, t);
    cut_vocabulary(memory, before, t, CONTEXT);
    cut_vocabulary(memory, before, t, CURRENT);
    memory.set_cell(LAST, 0);
}

/// Forgets what is at `t` and above.
#[tactic(auto, unfolding(crate::specs::Forgetting::forgotten))]
fn cut_from(memory: &mut Memory, t: u16)
    ensures { stored memory.new ≡ forgotten (stored memory.old) t }
{
    let before = memory.snapshot();
    cut_by(memory, &before, t);
}

/// Forgets the header that a name means in CURRENT's vocabulary, and all that comes after it (Forth-83 FORGET).
///
/// `NameLength`, `NotFound` and `ChainTooLong` as of `forget_target`: nothing is written.
pub fn forget(memory: &mut Memory, name: &[u8]) -> Result<(), ForgetFault>
    ensures { IsForgotten (target (stored memory.old) name.now) (stored memory.old) (stored memory.new) result }
{
    let t = forget_target(memory, name)?;
    cut_from(memory, t);
    Ok(())
}
