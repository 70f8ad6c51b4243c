//! A walk along a segment that is fed with the segment's bytes.

ghost use Rattle.std.specs.Prelude.{◌≡◌, ◌≤◌, ◌+◌, ◌++◌, ◌∷◌, [], ℕ, pos, List, length, drop, IfOk, MatchResult};
ghost use Rattle.eos_batch.specs.declared.batch.Batch.{Batch};
ghost use Rattle.eos_batch.specs.Segment.{Splits};
ghost use Rattle.eos_touch.specs.declared.fault.PartitionFaultKind.TheVariants.{BadBatch};
ghost use Rattle.eos_segment.specs.ChainFaults.{IsLeastFault};
ghost use Rattle.eos_segment.specs.Good.{IsGood};
ghost use Rattle.eos_segment.specs.steps.Feeding.{IsFed, EndsAt, IsBefore, PassesTo};
ghost use Rattle.eos_segment.specs.steps.Walks.{HasPassed};

use crate::chain_walk::{Walk, unnamed};
use crate::one_segment::Chain;
use bytes::Bytes;
use eos_batch::{BatchFault, BatchHead};
use eos_fold::ByteFold;
use eos_reading::{Nothing, keep_batches};
use eos_touch::{PartitionFault, PartitionFaultKind};
use std::alloc::{AllocError, Global};

/// A walk, and where it stands.
#[derive(Drop)]
pub(crate) struct FedWalk {
    walk: Walk,
    /// The byte after the batches that were read.
    place: u64,
    /// The least fault, once it is found.
    fault: Option<PartitionFault>,
}

/// The fault of bytes at this place of a segment that are no batch.
fn bad_batch(walk: &Walk, byte: u64, batch: BatchFault) -> PartitionFault
    ensures topic { result.topic ≡ [] }
    ensures partition { result.partition ≡ pos 0 }
    ensures offset { result.offset ≡ walk.now.next }
    ensures kind { result.kind ≡ BadBatch walk.now.begin byte batch }
{
    unnamed(
        walk.next,
        PartitionFaultKind::BadBatch {
            segment: walk.begin,
            byte,
            batch,
        },
    )
}

/// The sum, where it is a `u64`: no machine reads as many bytes.
fn byte_at(place: u64, byte: usize) -> Result<u64, AllocError>
    ensures { IfOk result (λ sum. sum ≡ place + byte) }
{
    match place.checked_add(byte as u64) {
        Some(sum) => Ok(sum),
        None => Err(AllocError),
    }
}

/// Passes batches with these heads, up to the first at which a fault stands.
fn pass_heads(walk: &mut Walk, heads: &[BatchHead]) -> Result<Option<PartitionFault>, AllocError>
    ensures { (fed rest : List ℕ) → IsBefore fed rest heads.now walk.old → IfOk result (PassesTo fed rest walk.new) }
{
    for head in heads {
        if let Err(fault) = walk.pass(head)? {
            return Ok(Some(fault));
        }
    }
    Ok(None)
}

/// Passes the whole batches of a buffer, which begins at this place of the segment. The answer is the byte after them, and the least fault,
/// if it is found.
fn pass_all(
    alloc: Global,
    walk: &mut Walk,
    buffer: &Bytes,
    place: u64,
) -> Result<(usize, Option<PartitionFault>), AllocError>
    ensures within { IfOk result (λ end. end.0 ≤ length buffer.now) }
    ensures passed { (fed : List ℕ) (before : List Batch) → HasPassed before walk.old → Splits fed before buffer.now → place + length buffer.now ≡ length fed →
        IfOk result (λ end. EndsAt fed (drop end.0 buffer.now) walk.new end.1) }
{
    let mut heads = Vec::new(alloc);
    let mut records = Vec::new(alloc);
    let (byte, batch) = keep_batches(alloc, &Nothing, buffer, &mut heads, &mut records)?;
    if let Some(fault) = pass_heads(walk, heads.as_slice())? {
        return Ok((byte, Some(fault)));
    }
    if batch == BatchFault::Truncated {
        return Ok((byte, None));
    }
    let at = byte_at(place, byte)?;
    Ok((byte, Some(bad_batch(walk, at, batch))))
}

impl ByteFold for FedWalk {
    ghost use Rattle.eos_segment.specs.steps.Feeding.{IsFed};

    type Told = ();

    ghost holds = { λ _ w fed waiting. IsFed fed waiting w };

    /// After a fault all bytes are taken: none can change it.
    fn take(&mut self, alloc: Global, _told: &(), buffer: &Bytes) -> Result<usize, AllocError> {
        if self.fault.is_some() {
            return Ok(buffer.len());
        }
        let (taken, fault) = pass_all(alloc, &mut self.walk, buffer, self.place)?;
        self.place = byte_at(self.place, taken)?;
        self.fault = fault;
        Ok(taken)
    }
}

impl FedWalk {
    /// Before the first byte.
    pub(crate) fn new(alloc: Global) -> FedWalk
        ensures { IsFed [] [] result }
    {
        FedWalk {
            walk: Walk::new(alloc),
            place: 0,
            fault: None,
        }
    }

    /// What it says of the whole segment, of which so many bytes still wait.
    pub(crate) fn finish(self, waiting: usize) -> Result<Chain, PartitionFault>
        ensures { (bytes rest : List ℕ) → IsFed bytes rest self → length rest ≡ waiting → MatchResult result (IsGood bytes) (IsLeastFault bytes) }
    {
        let FedWalk { walk, place, fault } = self;
        if let Some(fault) = fault {
            return Err(fault);
        }
        if waiting != 0 {
            return Err(bad_batch(&walk, place, BatchFault::Truncated));
        }
        Ok(Chain {
            batches: walk.batches,
            producers: walk.last.len() as u64,
        })
    }
}
