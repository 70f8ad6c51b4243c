//! The front of a partition's segments, batch by batch, up to where it ends: by their folds, which have the head of each.

ghost use Rattle.std.specs.Prelude.{◌≡◌, Bool, List, IfOk, OnOk};
ghost use Rattle.eos_batch.specs.declared.batch.Batch.{Batch};
ghost use Rattle.eos_evidence.specs.declared.segment.Segment.{Segment};
ghost use Rattle.eos_touch.specs.Front.{records_in};
ghost use Rattle.eos_fold.specs.Fronts.{base_of};
ghost use Rattle.eos_fold_file.specs.Folds.{IsFoldOf};
ghost use Rattle.eos_sought.specs.Folded.{AreFoldsOf};
ghost use Rattle.eos_faults.specs.steps.Walks.{HasPassed, HasPassedSegment, HasWalked};

use crate::walk::Walk;
use eos_fold::{Stop, is_at_end};
use eos_fold_file::FoldFile;
use std::alloc::{AllocError, Global};

/// Passes the batches of a segment, up to its end or the front's.
fn pass_segment(walk: &mut Walk, fold: &FoldFile) -> Result<(), AllocError>
    ensures { (sequenced : Bool) (front : List Batch) (segment : Segment) → HasPassed sequenced front walk.old → IsFoldOf segment fold.now → base_of segment ≡ records_in front
        → OnOk result (HasPassedSegment sequenced front segment.bytes walk.new fold.now.stop) }
{
    let heads = fold.heads.as_slice();
    for head in heads {
        let head = head.at(walk.next);
        walk.pass(&head)?;
    }
    Ok(())
}

/// Walks along the front of the segments with these folds and says why it ends.
pub(crate) fn walk_along(
    alloc: Global,
    is_sequenced: bool,
    folds: &[FoldFile],
) -> Result<(Walk, Stop), AllocError>
    ensures { (segments : List Segment) → AreFoldsOf segments folds.now → IfOk result (λ r. HasWalked is_sequenced segments r.0 r.1) }
{
    let mut walk = Walk::new(alloc, is_sequenced);
    for fold in folds {
        let begin = fold.base.unsigned_abs();
        if begin != walk.next {
            return Ok((walk, Stop::Elsewhere { found: begin }));
        }
        pass_segment(&mut walk, fold)?;
        if !is_at_end(fold.stop) {
            return Ok((walk, fold.stop));
        }
    }
    Ok((walk, Stop::AtEnd))
}
