//! The front whose batches have the heads of a fold.

ghost use Rattle.std.specs.Prelude.{◌≡◌, ◌≤◌, ◌^◌, List, IfOk};
ghost use Rattle.eos_batch.specs.declared.batch.Batch.{Batch};
ghost use Rattle.eos_kept.specs.Passing.{GoesAlong, data_count};
ghost use Rattle.eos_fold_file.specs.steps.Heads.{AreFrom};

use crate::FoldHead;
use eos_kept::{Front, data_records};
use std::alloc::{AllocError, Global};

/// The front of the batches that have these heads, one after the other from this offset on, and the number of their data records.
///
/// # Errors
/// Only want of memory.
pub(crate) fn front_of(
    alloc: Global,
    begin: u64,
    sequenced: bool,
    heads: &[FoldHead],
) -> Result<(Front, usize), AllocError>
    requires begin { begin ≤ 2 ^ 63 }
    requires batches { (batches : List Batch) × AreFrom begin heads.now batches }
    ensures begin { IfOk result (λ r. r.0.begin ≡ begin) }
    ensures sequenced { IfOk result (λ r. r.0.run.sequenced ≡ sequenced) }
    ensures along { IfOk result (λ r. (batches : List Batch) → AreFrom begin heads.now batches → GoesAlong batches r.0) }
    ensures counted { IfOk result (λ r. (batches : List Batch) → AreFrom begin heads.now batches → r.1 ≡ data_count batches) }
{
    let mut front = Front::new(alloc, begin, sequenced);
    let mut count = 0;
    for i in 0..heads.len() {
        let head = heads[i].at(front.next);
        front.pass(alloc, &head)?;
        count += data_records(&head);
    }
    Ok((front, count))
}
