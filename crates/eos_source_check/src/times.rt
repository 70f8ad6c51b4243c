//! When records of a source's partition were written. Of what is kept of a log no times are left, so its segments are read again: each in
//! which some of the records lie, once.

ghost use Rattle.std.specs.Prelude.{◌≡◌, ◌<◌, ◌+◌, ◌≤◌, false, length, drop, Some, IfOk, IfErr, MatchOption};
ghost use Rattle.eos_evidence.specs.Evidence.{segments_of};
ghost use Rattle.eos_source.specs.Said.{known_by};
ghost use Rattle.eos_source_check.specs.Refusals.{IsRefusedFor, IsRefusedAgain};
ghost use Rattle.eos_source_check.specs.Times.{begins_next, AreTimesEach};
ghost use Rattle.eos_source_check.specs.steps.Each.{AreEachOf, AreEachAgain};
ghost use Rattle.eos_source_check.specs.steps.Earned.{IsRefusedAmong};
ghost use Rattle.eos_source_check.specs.steps.Timing.{IsTimedAgain};

use crate::fault::Unlisted;
use crate::rising::{Asked, Rising};
use crate::timing::read_times;
use eos_base::{PartitionName, Sorted};
use eos_evidence::{Evidence, Partition, Segment};
use eos_fold::begin_of;
use eos_sought::is_named;
use eos_source::{Piece, Source};
use std::alloc::{AllocError, Global};

/// The number of a piece, its name, and where the next one of its partition begins.
#[derive(Clone, Copy)]
struct Named<'a> {
    piece: u64,
    name: &'a Segment,
    next: Option<u64>,
}

/// Where the segment behind this one begins.
fn begins_next(names: &[Segment], i: usize) -> Option<u64>
    requires { i < length names.now }
    ensures { result ≡ begins_next (drop (i + 1) names.now) }
{
    match names.get(i + 1) {
        None => None,
        Some(name) => Some(begin_of(name)),
    }
}

/// What is asked of a piece, as it is read now; nothing of a fold.
fn times_of_log<S: Source>(
    alloc: Global,
    source: &S,
    piece: u64,
    asked: &Asked,
) -> Result<Option<Vec<(u64, i64)>>, Unlisted<S::Fault>>
    ensures found { IfOk result (λ found. MatchOption found (S.is_log source.now piece ≡ false) (λ times. IsTimedAgain (known_by (S.said source.now) (S.is_log source.now) piece) asked.now times.items)) }
    ensures refused { IfErr result (IsRefusedFor (λ fault. S.outcomes source.now piece (Some fault))) }
{
    match source.open(alloc, piece) {
        Ok(Piece::Log(mut reader)) => match read_times(alloc, asked, &mut reader) {
            Ok(times) => Ok(Some(times)),
            Err(why) => {
                let fault = source.refusal(alloc, piece, &mut reader, why);
                Err(Unlisted::Refused(fault))
            }
        },
        Ok(Piece::Fold(fold)) => {
            drop(fold);
            Ok(None)
        }
        Err(fault) => Err(Unlisted::Refused(fault)),
    }
}

/// The times at those of these offsets that lie in a segment.
#[tactic(auto, using(crate::proofs::EachTimes::each_of_fold))]
fn times_of<S: Source>(
    alloc: Global,
    source: &S,
    named: Named<'_>,
    offsets: &Rising<'_>,
) -> Result<Vec<(u64, i64)>, Unlisted<S::Fault>>
    ensures times { IfOk result (λ times. AreEachOf (known_by (S.said source.now) (S.is_log source.now) named.entry.piece) named.entry.name.now named.entry.next offsets.now times.items) }
    ensures refused { IfErr result (IsRefusedFor (λ fault. S.outcomes source.now named.entry.piece (Some fault))) }
{
    let begin = begin_of(named.name);
    let lying = offsets.between(begin, named.next);
    if lying.is_empty() {
        return Ok(Vec::new(alloc));
    }
    let asked = lying.asked(alloc, begin)?;
    match times_of_log(alloc, source, named.piece, &asked)? {
        None => Ok(Vec::new(alloc)),
        Some(times) => Ok(times),
    }
}

/// The same of a partition, whose first segment is the piece of this number.
fn times_again<S: Source>(
    alloc: Global,
    source: &S,
    shape: &Partition,
    first: u64,
    offsets: &Rising<'_>,
) -> Result<Vec<(u64, i64)>, Unlisted<S::Fault>>
    requires { first + length shape.now.segments ≤ 65536 }
    ensures times { IfOk result (λ times. AreEachAgain (known_by (S.said source.now) (S.is_log source.now)) first shape.now.segments offsets.now times.items) }
    ensures refused { IfErr result (IsRefusedAmong (S.outcomes source.now) first (length shape.now.segments)) }
{
    let names = shape.segments.as_slice();
    let mut times = Vec::new(alloc);
    for i in 0..names.len() {
        let named = Named {
            piece: first + i as u64,
            name: &names[i],
            next: begins_next(names, i),
        };
        let mut more = times_of(alloc, source, named, offsets)?;
        times.append(&mut more)?;
    }
    Ok(times)
}

/// The times of the records of a partition that stand at these offsets, in milliseconds since 1970-01-01T00:00Z, as the batches say them,
/// each with its offset: at each offset the first of them is the one that a reading for it alone gives. The partition's segments are read
/// again for it, one after the other and only those in which an offset lies; where one changed since it was judged, they are those of what
/// is read now. A segment that is a fold gives none. The work is that of these walks, and a step for each offset.
///
/// Memory is that of a chunk of a segment, or of a batch where that is larger, and of the times.
///
/// # Errors
/// A segment isn't there any more, or can't be read; or want of memory.
pub fn times_each<S: Source>(
    alloc: Global,
    source: &S,
    shape: &Evidence,
    name: &PartitionName,
    offsets: &Sorted<u64>,
) -> Result<Vec<(u64, i64)>, Unlisted<S::Fault>>
    ensures times { IfOk result (λ times. AreTimesEach (known_by (S.said source.now) (S.is_log source.now)) shape.now.partitions name.now offsets.now times.items) }
    ensures refused { IfErr result (IsRefusedAgain (S.outcomes source.now) (length (segments_of shape.now.partitions))) }
{
    let partitions = shape.partitions();
    let offsets = Rising::of(offsets);
    let mut first = 0u64;
    for i in 0..partitions.len() {
        let partition = &partitions[i];
        if is_named(partition, name) {
            let times = times_again(alloc, source, partition, first, &offsets)?;
            return Ok(times);
        }
        first += partition.segments.len() as u64;
    }
    Ok(Vec::new(alloc))
}
