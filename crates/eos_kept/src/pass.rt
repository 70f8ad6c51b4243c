//! Batches that are passed one after the other.

ghost use Rattle.std.specs.Prelude.{◌≡◌, ◌≤◌, ◌+◌, ◌^◌, ◌∷◌, [], ◌++◌, List, IfOk, OnOk, if◌then◌else◌};
ghost use Rattle.eos_batch.specs.declared.batch.Batch.{Batch};
ghost use Rattle.eos_fold.specs.declared.stop.Stop.TheVariants.{AtEnd};
ghost use Rattle.eos_kept.specs.Runs.{IsRun};
ghost use Rattle.eos_kept.specs.Passing.{IsRealHead, GoesAlong};
ghost use Rattle.eos_kept.specs.steps.Passing.{AreHeads, Passes};

use crate::front::Front;
use eos_batch::BatchHead;
use eos_fold::{Stop, push_marker};
use std::alloc::{AllocError, Global};

impl Front {
    /// Passes the batch of this head, which begins at the front's next offset. After an error the front is of no use.
    ///
    /// # Errors
    /// Only want of memory, or where a u64 doesn't hold the number of batches.
    pub fn pass(&mut self, alloc: Global, head: &BatchHead) -> Result<(), AllocError>
        requires run { IsRun self.old.run }
        requires head { (b : Batch) × IsRealHead b head.now }
        requires next { head.now.offset ≡ self.old.next }
        ensures run { IsRun self.new.run }
        ensures begin { self.new.begin ≡ self.old.begin }
        ensures stop { self.new.stop ≡ self.old.stop }
        ensures sequenced { self.new.run.sequenced ≡ self.old.run.sequenced }
        ensures next { OnOk result (self.new.next ≡ self.old.next + head.now.count) }
        ensures fits { OnOk result (self.new.next ≤ 2 ^ 63) }
        ensures passed { (batches : List Batch) (b : Batch) → IsRealHead b head.now → GoesAlong batches self.old → OnOk result (GoesAlong (batches ++ b ∷ []) self.new) }
    {
        let Some(batches) = self.batches.checked_add(1) else {
            return Err(AllocError);
        };
        self.run.take(alloc, head)?;
        push_marker(&mut self.markers, head.marker)?;
        self.batches = batches;
        self.next += u64::from(head.count);
        Ok(())
    }
}

/// The number of a batch's data records.
pub fn data_records(head: &BatchHead) -> usize
    ensures value { result ≡ (if head.now.is_control then 0 else head.now.count) }
    ensures bound { result ≤ head.now.count }
{
    if head.is_control {
        return 0;
    }
    head.count as usize
}

/// Passes a chunk's batches, up to one that begins at another offset than the front's next. The answer is the number of data
/// records of those that were passed.
pub(crate) fn pass_all(
    alloc: Global,
    front: &mut Front,
    heads: &Vec<BatchHead>,
) -> Result<usize, AllocError>
    requires run { IsRun front.old.run }
    requires stop { front.old.stop ≡ AtEnd }
    requires heads { (bs : List Batch) × AreHeads bs heads.now.items }
    ensures run { IsRun front.new.run }
    ensures begin { front.new.begin ≡ front.old.begin }
    ensures sequenced { front.new.run.sequenced ≡ front.old.run.sequenced }
    ensures passed { IfOk result (λ count. (bs : List Batch) → AreHeads bs heads.now.items → Passes bs front.old front.new count) }
{
    let mut count = 0;
    for i in 0..heads.len() {
        let head = heads[i];
        if head.offset != front.next {
            front.stop = Stop::Elsewhere { found: head.offset };
            return Ok(count);
        }
        front.pass(alloc, &head)?;
        count += data_records(&head);
    }
    Ok(count)
}
