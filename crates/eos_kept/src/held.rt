//! A partition whose segments are held in memory.

ghost use Rattle.std.specs.Prelude.{◌≤◌, ◌∷◌, [], ◌++◌, List, length, IfOk};
ghost use Rattle.eos_evidence.specs.Evidence.{IsPartition};
ghost use Rattle.eos_evidence.specs.declared.segment.Segment.{Segment};
ghost use Rattle.eos_kept.specs.Held.{Asking, AreHeld, IsHeld};
ghost use Rattle.eos_kept.specs.Parts.{IsTold};

use crate::segment::keep_bytes;
use crate::told::told_of;
use crate::{Asked, KeptRun, Told};
use eos_evidence::{MAX_SEGMENT_BYTES, Partition, Segment};
use eos_reading::{Nothing, Outputs, Texts, Wanted};
use std::alloc::{AllocError, Global};

/// What is kept of one segment.
fn read_held(alloc: Global, asked: Asked<'_>, segment: &Segment) -> Result<KeptRun, AllocError>
    requires { length segment.now.bytes ≤ MAX_SEGMENT_BYTES }
    ensures { IfOk result (IsHeld (record { topics = asked.entry.topics.now; wanted = asked.entry.wanted; topic = segment.now.topic }) (segment.now ∷ [])) }
{
    let Segment {
        topic,
        base,
        bytes,
        ..
    } = segment;
    let topic = topic.as_slice();
    match asked.wanted {
        Wanted::Presence => {
            let kept = keep_bytes(alloc, Nothing, topic, *base, bytes)?;
            Ok(KeptRun::Presence(kept))
        }
        Wanted::Claims => {
            let outputs = Outputs {
                topics: asked.topics,
            };
            let kept = keep_bytes(alloc, outputs, topic, *base, bytes)?;
            Ok(KeptRun::Claims(kept))
        }
        Wanted::Texts => {
            let kept = keep_bytes(alloc, Texts, topic, *base, bytes)?;
            Ok(KeptRun::Texts(kept))
        }
    }
}

/// What is kept of segments, and of the next one behind them.
///
/// # Errors
/// Only want of memory.
pub fn longer(alloc: Global, run: Option<KeptRun>, next: KeptRun) -> Result<KeptRun, AllocError>
    requires { (a : Asking) × (xs : List Segment) × (ys : List Segment) × AreHeld a xs run × IsHeld a ys next }
    ensures { (a : Asking) (xs ys : List Segment) → AreHeld a xs run → IsHeld a ys next → IfOk result (IsHeld a (xs ++ ys)) }
{
    let Some(run) = run else {
        return Ok(next);
    };
    match KeptRun::join(alloc, run, next) {
        Ok(run) => Ok(run),
        Err(_) => Err(AllocError),
    }
}

/// What is kept of a partition's segments, or nothing where there are none.
fn run_held(
    alloc: Global,
    asked: Asked<'_>,
    partition: &Partition,
) -> Result<Option<KeptRun>, AllocError>
    requires { IsPartition partition.now }
    ensures { IfOk result (AreHeld (record { topics = asked.entry.topics.now; wanted = asked.entry.wanted; topic = partition.now.end.topic }) partition.now.segments) }
{
    let segments = partition.segments.as_slice();
    let mut run = None;
    for i in 0..segments.len() {
        let next = read_held(alloc, asked, &segments[i])?;
        run = Some(longer(alloc, run, next)?);
    }
    Ok(run)
}

/// The log of a partition that is held in memory, of what is asked of its segments.
///
/// # Errors
/// Only want of memory.
pub fn told_in(alloc: Global, asked: Asked<'_>, partition: &Partition) -> Result<Told, AllocError>
    requires { IsPartition partition.now }
    ensures { IfOk result (IsTold asked.entry.wanted partition.now.end partition.now.segments) }
{
    let end = partition.end.clone()?;
    let run = run_held(alloc, asked, partition)?;
    told_of(alloc, end, asked, run)
}
