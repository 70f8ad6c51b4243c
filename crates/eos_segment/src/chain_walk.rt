//! One step along a segment: whether the next batch goes on where the batches before it end, and whether it may follow
//! the touch of its producer id before it. Neighbours decide all pairs, so the last touch of each id is all that is
//! kept: the table grows with the number of producer ids, never with the records.

ghost use Rattle.std.specs.Prelude.{◌≡◌, [], ◌∷◌, ◌++◌, List, pos, IfOk, MatchResult, ◌==◌, if◌then◌else◌, ℕ};
ghost use Rattle.eos_batch.specs.declared.batch.Batch.{Batch};
ghost use Rattle.eos_batch.specs.Rules.{IsCounted};
ghost use Rattle.eos_batch.specs.Heads.{head_of};
ghost use Rattle.eos_segment.specs.steps.Walks.{HasLast, HasPassed, MayFollow, IsLeastPair, IsLeastAtBatch};

use bytes::Bytes;
use eos_batch::BatchHead;
use eos_touch::{PartitionFault, PartitionFaultKind, Touch, pair_ok, touch_of};
use std::alloc::{AllocError, Global};
use std::collections::BTreeMap;

/// What is kept of the batches that a walk along a segment has passed.
#[derive(Drop)]
pub(crate) struct Walk {
    /// The first batch's base offset; 0 before there is one.
    pub(crate) begin: u64,
    /// The offset after the last record.
    pub(crate) next: u64,
    pub(crate) batches: u64,
    /// The last touch of each producer id.
    pub(crate) last: BTreeMap<i64, Touch>,
}

/// A fault of a segment that stands for a partition without a name.
pub(crate) fn unnamed(offset: u64, kind: PartitionFaultKind) -> PartitionFault
    ensures topic { result.topic ≡ [] }
    ensures partition { result.partition ≡ pos 0 }
    ensures offset { result.offset ≡ offset }
    ensures kind { result.kind ≡ kind }
{
    PartitionFault {
        topic: Bytes::new(),
        partition: 0,
        offset,
        kind,
    }
}

/// Puts what a batch says into the table, if it may follow what its producer id said last.
fn take_touch(
    last: &mut BTreeMap<i64, Touch>,
    head: &BatchHead,
) -> Result<Result<(), PartitionFaultKind>, AllocError>
    ensures { (before : List Batch) (b : Batch) (size : ℕ) → head.now ≡ head_of b size → HasLast before last.old →
        IfOk result (λ taken. MatchResult taken (λ _. MayFollow before b × HasLast (before ++ b ∷ []) last.new) (IsLeastPair before b)) }
{
    let Some((producer, touch)) = touch_of(head) else {
        return Ok(Ok(()));
    };
    let before = last.get(&producer).copied();
    if let Err(fault) = pair_ok(before, touch, true) {
        return Ok(Err(PartitionFaultKind::Pair { fault, producer }));
    }
    last.insert(producer, touch)?;
    Ok(Ok(()))
}

impl Walk {
    /// A walk that has passed no batch.
    pub(crate) fn new(alloc: Global) -> Walk
        ensures { HasPassed [] result }
    {
        Walk {
            begin: 0,
            next: 0,
            batches: 0,
            last: BTreeMap::new(alloc),
        }
    }

    /// What the first batch sets, and later ones keep.
    fn at_first(&self, offset: u64, kept: u64) -> u64
        ensures { result ≡ (if self.now.batches == 0 then offset else kept) }
    {
        if self.batches == 0 { offset } else { kept }
    }

    /// Passes the next batch, or says which fault stands there.
    ///
    /// # Errors
    /// Want of memory. An offset past 64 bits, or as many batches, counts as one.
    pub(crate) fn pass(
        &mut self,
        head: &BatchHead,
    ) -> Result<Result<(), PartitionFault>, AllocError>
        ensures { (before : List Batch) (b : Batch) (size : ℕ) → head.now ≡ head_of b size → IsCounted b → HasPassed before self.old →
            IfOk result (λ passed. MatchResult passed (λ _. HasPassed (before ++ b ∷ []) self.new) (IsLeastAtBatch before b)) }
    {
        let offset = head.offset;
        let next = self.at_first(offset, self.next);
        if offset != next {
            let kind = PartitionFaultKind::Gap { found: offset };
            return Ok(Err(unnamed(next, kind)));
        }
        if let Err(kind) = take_touch(&mut self.last, head)? {
            return Ok(Err(unnamed(offset, kind)));
        }
        let Some(batches) = self.batches.checked_add(1) else {
            return Err(AllocError);
        };
        let Some(end) = offset.checked_add(u64::from(head.count)) else {
            return Err(AllocError);
        };
        self.begin = self.at_first(offset, self.begin);
        self.next = end;
        self.batches = batches;
        Ok(Ok(()))
    }
}
