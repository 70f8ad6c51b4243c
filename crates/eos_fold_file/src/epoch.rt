//! The leader epochs of a front's batches, by the offsets at which they change.
//!
//! | Field | Form | Meaning |
//! |---|---|---|
//! | epoch | number | the leader epoch of a batch that has another one than the batch before, or is the first |
//! | start offset | unsigned number | that batch's offset |

ghost use Rattle.std.specs.Prelude.{◌≡◌, ◌≤◌, ◌+◌, ◌^◌, ◌∷◌, List, length, drop, false, None, IfSome};
ghost use Rattle.eos_fold_file.specs.declared.head.FoldHead.{FoldHead};
ghost use Rattle.eos_fold_file.specs.Epochs.{are_entries};
ghost use Rattle.eos_fold_file.specs.Files.{record_count};
ghost use Rattle.eos_fold_file.specs.steps.Walks.{begun};

use crate::entry::Entry;
use crate::fault::FoldFault;
use crate::head::FoldHead;
use crate::number::{read_i32, read_u64, write_number, write_u64};
use eos_reading::{EpochEntry, is_change};
use eos_wire::Cursor;
use std::alloc::{AllocError, Global};

/// How far a front's entries were passed: the epoch of the last batch, and the number of the next entry.
#[derive(Clone, Copy)]
struct Reached {
    last: Option<i32>,
    at: usize,
}

/// The epoch of the next entry, where it begins here.
fn begun(epochs: &[EpochEntry], at: usize, next: u64) -> Option<i32>
    ensures { result ≡ begun next (drop at epochs.now) }
{
    if at >= epochs.len() {
        return None;
    }
    if epochs[at].start_offset != next {
        return None;
    }
    Some(epochs[at].epoch)
}

/// Passes the entry of a batch that begins here, if it has one; none is passed where the batch should have one or should have none.
#[tactic(auto, using(crate::proofs::EpochLists::none_here, crate::proofs::EpochLists::none_first, crate::proofs::EpochLists::some_here, crate::proofs::EpochLists::some_same, crate::proofs::EpochLists::begun_within))]
fn pass(epochs: &[EpochEntry], reached: Reached, next: u64) -> Option<Reached>
    ensures on { IfSome result (λ p. (h : FoldHead) (hs : List FoldHead) → are_entries next reached.last (h ∷ hs) (drop reached.at epochs.now) ≡ are_entries (next + h.count) p.last hs (drop p.at epochs.now)) }
    ensures off { result ≡ None → (h : FoldHead) (hs : List FoldHead) → are_entries next reached.last (h ∷ hs) (drop reached.at epochs.now) ≡ false }
    ensures within { reached.at ≤ length epochs.now → IfSome result (λ p. p.at ≤ length epochs.now) }
{
    let Some(epoch) = begun(epochs, reached.at, next) else {
        if reached.last.is_none() {
            return None;
        }
        return Some(reached);
    };
    if !is_change(reached.last, epoch) {
        return None;
    }
    Some(Reached {
        last: Some(epoch),
        at: reached.at + 1,
    })
}

/// Whether the batches of a front that begins here have these entries, as far as their heads tell.
#[tactic(auto, using(crate::proofs::EpochLists::next_fits, crate::proofs::EpochLists::walked_none, crate::proofs::EpochLists::walked_on, crate::proofs::EpochLists::walked_off, crate::proofs::EpochLists::walked_done, crate::proofs::EpochLists::walked_all))]
pub(crate) fn are_entries(begin: u64, heads: &[FoldHead], epochs: &[EpochEntry]) -> bool
    requires { begin + record_count heads.now ≤ 2 ^ 63 }
    ensures { result ≡ are_entries begin None heads.now epochs.now }
{
    let mut next = begin;
    let mut reached = Reached { last: None, at: 0 };
    for head in heads {
        if reached.last.is_some() && reached.at == epochs.len() {
            return true;
        }
        let Some(passed) = pass(epochs, reached, next) else {
            return false;
        };
        reached = passed;
        next += u64::from(head.count);
    }
    reached.at == epochs.len()
}

impl Entry for EpochEntry {
    ghost use Rattle.eos_fold_file.specs.Epochs.{entry_from, entry_text};
    ghost use Rattle.eos_fold_file.specs.Legal.{IsLegalEntry};

    ghost entry_from = { entry_from };

    ghost entry_text = { entry_text };

    ghost entry_fits = { IsLegalEntry };

    #[tactic(auto, unfolding(crate::specs::Epochs::entry_from))]
    fn read(_alloc: Global, rest: &mut Cursor<'_>) -> Result<EpochEntry, FoldFault> {
        let epoch = read_i32(rest)?;
        let start_offset = read_u64(rest)?;
        Ok(EpochEntry {
            epoch,
            start_offset,
        })
    }

    fn write(&self, out: &mut Vec<u8>) -> Result<(), AllocError> {
        write_number(out, i64::from(self.epoch))?;
        write_u64(out, self.start_offset)
    }
}
