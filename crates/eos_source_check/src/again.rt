//! A partition that is read again for the folds of its segments.

ghost use Rattle.std.specs.Prelude.{◌≡◌, ◌↔◌, ◌+◌, ◌≤◌, ℕ, true, None, Some, length, option_map, slice_get, IfOk, IfErr, IfNone, IfSome};
ghost use Rattle.eos_evidence.specs.Evidence.{segments_of};
ghost use Rattle.eos_source.specs.Said.{Known, known_by};
ghost use Rattle.eos_source_check.specs.Again.{IsNamedAgain, AreFoldsNamed};
ghost use Rattle.eos_source_check.specs.Refusals.{IsNoLog, IsUnread};
ghost use Rattle.eos_source_check.specs.steps.Earned.{IsOfPiece, IsOfPieces, IsOfPartition};
ghost use Rattle.eos_source_check.specs.steps.FaultsAgain.{HasFaultsAgain, HasFaultsIfFound, BeginsIfFound};
ghost use Rattle.eos_source_check.specs.steps.FoldsAgain.{IsReaderOf, IsFoldAgain, IsFoldedAgain, IsFoundAt};

use crate::fault::Unlisted;
use eos_base::PartitionName;
use eos_evidence::{Evidence, Partition, Segment};
use eos_faults::faults_of_partition;
use eos_fold_file::{FoldFile, fold_of};
use eos_reading::Wanted;
use eos_sought::{Folded, is_named};
use eos_source::{Piece, Source};
use eos_touch::PartitionFault;
use std::alloc::Global;

/// The reader of the piece of this number, if it is a log.
pub(crate) fn open_log<S: Source>(
    alloc: Global,
    source: &S,
    piece: u64,
) -> Result<S::Reader, Unlisted<S::Fault>>
    ensures ok { IfOk result (IsReaderOf S.Reader.remaining (S.said source.now piece)) }
    ensures fold { IfErr result (λ why. IsNoLog (S.is_log source.now) why) }
    ensures earned { IfErr result (IsOfPiece (S.outcomes source.now) piece) }
{
    match source.open(alloc, piece) {
        Ok(Piece::Log(reader)) => Ok(reader),
        Ok(Piece::Fold(fold)) => {
            drop(fold);
            Err(Unlisted::Fold(piece))
        }
        Err(fault) => Err(Unlisted::Refused(fault)),
    }
}

/// The fold of the piece of this number and name, if it is a log: of each batch the head. No more of its bytes is held than a chunk.
fn fold_of_log<S: Source>(
    alloc: Global,
    source: &S,
    piece: u64,
    name: &Segment,
) -> Result<FoldFile, Unlisted<S::Fault>>
    ensures ok { IfOk result (IsFoldAgain (known_by (S.said source.now) (S.is_log source.now) piece) name.now) }
    ensures fold { IfErr result (λ why. IsNoLog (S.is_log source.now) why) }
    ensures earned { IfErr result (IsOfPiece (S.outcomes source.now) piece) }
{
    let mut reader = open_log(alloc, source, piece)?;
    match fold_of(alloc, Wanted::Presence, &[], name, &mut reader) {
        Ok(fold) => Ok(fold),
        Err(why) => {
            let fault = source.refusal(alloc, piece, &mut reader, why);
            Err(Unlisted::Refused(fault))
        }
    }
}

/// The folds of the segments of a partition of this shape, whose first one is the piece of this number, as it is read now.
fn fold_again<S: Source>(
    alloc: Global,
    source: &S,
    shape: &Partition,
    first: u64,
) -> Result<Folded, Unlisted<S::Fault>>
    requires { first + length shape.now.segments ≤ 65536 }
    ensures ok { IfOk result (IsFoldedAgain (known_by (S.said source.now) (S.is_log source.now)) first shape.now) }
    ensures fold { IfErr result (λ why. IsNoLog (S.is_log source.now) why) }
    ensures earned { IfErr result (IsOfPieces (S.outcomes source.now) first (length shape.now.segments)) }
{
    let names = shape.segments.as_slice();
    let mut folds = Vec::new(alloc);
    for i in 0..names.len() {
        let fold = fold_of_log(alloc, source, first + i as u64, &names[i])?;
        folds.push(fold)?;
    }
    Ok(Folded {
        end: shape.end.clone()?,
        folds,
    })
}

/// Where the partition of this name stands among all, if it is one of them, and the number of its first piece.
pub(crate) fn index_named(shape: &Evidence, name: &PartitionName) -> Option<(usize, u64)>
    ensures none { IfNone result ((known : ℕ → Known) → IsNamedAgain known 0 shape.now.partitions name.now None) }
    ensures some { IfSome result (λ at. IsFoundAt shape.now.partitions name.now at.0 at.1) }
{
    let partitions = shape.partitions();
    let mut first = 0u64;
    for i in 0..partitions.len() {
        let partition = &partitions[i];
        if is_named(partition, name) {
            return Some((i, first));
        }
        first += partition.segments.len() as u64;
    }
    None
}

/// The partition of this name by the folds of its segments, as they are read now; none where the evidence of this shape has none. They are
/// read one after the other, and no bytes of them are held.
///
/// # Errors
/// A segment isn't there any more, is a fold itself, or can't be read; or want of memory.
pub fn folds_again<S: Source>(
    alloc: Global,
    source: &S,
    shape: &Evidence,
    name: &PartitionName,
) -> Result<Option<Folded>, Unlisted<S::Fault>>
    ensures read { IfOk result (AreFoldsNamed (known_by (S.said source.now) (S.is_log source.now)) shape.now.partitions name.now) }
    ensures fold { IfErr result (λ why. IsNoLog (S.is_log source.now) why) }
    ensures unread { IfErr result (IsUnread (S.outcomes source.now) (length (segments_of shape.now.partitions))) }
{
    let Some((index, first)) = index_named(shape, name) else {
        return Ok(None);
    };
    let folded = fold_again(alloc, source, &shape.partitions()[index], first)?;
    Ok(Some(folded))
}

/// Whether the first of these faults is this one.
fn begins_with(faults: &[PartitionFault], fault: &PartitionFault) -> bool
    ensures { result ≡ true ↔ (slice_get faults.now 0 ≡ Some fault.now) }
{
    match faults.first() {
        Some(first) => first == fault,
        None => false,
    }
}

/// All faults of a partition that is read again, in which this one was the least when it was read first.
fn faults_again<S: Source>(
    alloc: Global,
    source: &S,
    shape: &Partition,
    first: u64,
    fault: &PartitionFault,
) -> Result<Vec<PartitionFault>, Unlisted<S::Fault>>
    requires { first + length shape.now.segments ≤ 65536 }
    ensures ok { IfOk result (λ faults. HasFaultsAgain (known_by (S.said source.now) (S.is_log source.now)) first shape.now faults.items) }
    ensures first { IfOk result (λ faults. slice_get faults.items 0 ≡ Some fault.now) }
    ensures fold { IfErr result (λ why. IsNoLog (S.is_log source.now) why) }
    ensures earned { IfErr result (IsOfPartition (known_by (S.said source.now) (S.is_log source.now)) (S.outcomes source.now) first shape.now (Some (Some fault.now))) }
{
    let folded = fold_again(alloc, source, shape, first)?;
    let faults = faults_of_partition(alloc, &folded);
    drop(folded);
    let faults = faults?;
    if begins_with(faults.as_slice(), fault) {
        Ok(faults)
    } else {
        Err(Unlisted::Changed(first))
    }
}

/// All faults of a partition, read again if one was found in it; else none.
pub(crate) fn faults_if_found<S: Source>(
    alloc: Global,
    source: &S,
    shape: &Partition,
    first: u64,
    found: Option<&Option<PartitionFault>>,
) -> Result<Vec<PartitionFault>, Unlisted<S::Fault>>
    requires { first + length shape.now.segments ≤ 65536 }
    ensures ok { IfOk result (λ faults. HasFaultsIfFound (known_by (S.said source.now) (S.is_log source.now)) first shape.now (option_map (λ f. f.now) found.entry) faults.items) }
    ensures first { IfOk result (λ faults. BeginsIfFound (option_map (λ f. f.now) found.entry) faults.items) }
    ensures fold { IfErr result (λ why. IsNoLog (S.is_log source.now) why) }
    ensures earned { IfErr result (IsOfPartition (known_by (S.said source.now) (S.is_log source.now)) (S.outcomes source.now) first shape.now (option_map (λ f. f.now) found.entry)) }
{
    match found {
        Some(Some(fault)) => faults_again(alloc, source, shape, first, fault),
        Some(None) | None => Ok(Vec::new(alloc)),
    }
}
