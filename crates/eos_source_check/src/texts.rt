//! A partition that is read again for the keys, values and claims of its records.

ghost use Rattle.std.specs.Prelude.{◌≡◌, ◌+◌, ◌≤◌, length, IfOk, IfErr};
ghost use Rattle.eos_evidence.specs.Evidence.{IsPartition, segments_of};
ghost use Rattle.eos_source.specs.Said.{known_by};
ghost use Rattle.eos_source_check.specs.Again.{AreTextsNamed};
ghost use Rattle.eos_source_check.specs.Refusals.{IsNoLog, IsUnread};
ghost use Rattle.eos_source_check.specs.steps.Earned.{IsOfPiece, IsOfPieces};
ghost use Rattle.eos_source_check.specs.steps.TextsAgain.{IsTextAgain, AreTextsAgain};

use crate::again::{index_named, open_log};
use crate::fault::Unlisted;
use eos_base::PartitionName;
use eos_evidence::{Evidence, Partition, Segment};
use eos_kept::{Asked, KeptRun, Told, longer, told_of};
use eos_reading::Wanted;
use eos_source::Source;
use std::alloc::Global;

/// The keys, values and claims of the piece of this number and name, if it is a log. No more of its bytes is held than a chunk.
fn texts_of_log<S: Source>(
    alloc: Global,
    source: &S,
    piece: u64,
    name: &Segment,
) -> Result<KeptRun, Unlisted<S::Fault>>
    ensures ok { IfOk result (IsTextAgain (known_by (S.said source.now) (S.is_log source.now) piece) name.now) }
    ensures fold { IfErr result (λ why. IsNoLog (S.is_log source.now) why) }
    ensures earned { IfErr result (IsOfPiece (S.outcomes source.now) piece) }
{
    let mut reader = open_log(alloc, source, piece)?;
    let asked = Asked {
        wanted: Wanted::Texts,
        topics: &[],
    };
    match KeptRun::read(alloc, asked, name.topic.as_slice(), name.base, &mut reader) {
        Ok(run) => Ok(run),
        Err(why) => {
            let fault = source.refusal(alloc, piece, &mut reader, why);
            Err(Unlisted::Refused(fault))
        }
    }
}

/// Those of the segments of a partition of this shape, whose first one is the piece of this number; nothing where there are none.
fn texts_of<S: Source>(
    alloc: Global,
    source: &S,
    shape: &Partition,
    first: u64,
) -> Result<Option<KeptRun>, Unlisted<S::Fault>>
    requires few { first + length shape.now.segments ≤ 65536 }
    requires partition { IsPartition shape.now }
    ensures ok { IfOk result (AreTextsAgain (known_by (S.said source.now) (S.is_log source.now)) first shape.now.segments shape.now.end.topic) }
    ensures fold { IfErr result (λ why. IsNoLog (S.is_log source.now) why) }
    ensures earned { IfErr result (IsOfPieces (S.outcomes source.now) first (length shape.now.segments)) }
{
    let names = shape.segments.as_slice();
    let mut run = None;
    for i in 0..names.len() {
        match texts_of_log(alloc, source, first + i as u64, &names[i]) {
            Ok(next) => run = Some(longer(alloc, run, next)?),
            Err(why) => {
                drop(run);
                return Err(why);
            }
        }
    }
    Ok(run)
}

/// The log of the partition of this name, with the keys, values and claims of its records, as it is read now; none where the evidence of
/// this shape has no such partition. Its segments are read one after the other, and no bytes of them are held.
///
/// # Errors
/// A segment isn't there any more, is a fold, or can't be read; or want of memory.
pub fn texts_again<S: Source>(
    alloc: Global,
    source: &S,
    shape: &Evidence,
    name: &PartitionName,
) -> Result<Option<Told>, Unlisted<S::Fault>>
    ensures read { IfOk result (AreTextsNamed (known_by (S.said source.now) (S.is_log source.now)) shape.now.partitions name.now) }
    ensures fold { IfErr result (λ why. IsNoLog (S.is_log source.now) why) }
    ensures unread { IfErr result (IsUnread (S.outcomes source.now) (length (segments_of shape.now.partitions))) }
{
    let Some((index, first)) = index_named(shape, name) else {
        return Ok(None);
    };
    let partition = &shape.partitions()[index];
    let run = texts_of(alloc, source, partition, first)?;
    let Ok(end) = partition.end.clone() else {
        drop(run);
        return Err(Unlisted::OutOfMemory);
    };
    let asked = Asked {
        wanted: Wanted::Texts,
        topics: &[],
    };
    let told = told_of(alloc, end, asked, run)?;
    Ok(Some(told))
}
