//! A segment's front as far as its bytes were fed.

ghost use Rattle.std.specs.Prelude.{◌≡◌, ◌≤◌, ◌+◌, ◌-◌, ◌∷◌, [], ◌^◌, ℕ, Bool, List, length, take, OnOk};
ghost use Rattle.eos_batch.specs.declared.record.Record.{Record};
ghost use Rattle.eos_evidence.specs.declared.segment.Segment.{Segment};
ghost use Rattle.eos_fold.specs.Fronts.{base_of};
ghost use Rattle.eos_fold.specs.Sums.{is_checked};
ghost use Rattle.eos_kept.specs.Kept.{IsKept};
ghost use Rattle.eos_kept.specs.steps.Folding.{IsFolding, EndsAt, CutsAt};

use crate::front::Front;
use crate::pass::pass_all;
use crate::sizes::Sizes;
use crate::summary::Kept;
use bytes::Bytes;
use eos_batch::{BatchFault, BatchHead};
use eos_evidence::MAX_SEGMENT_BYTES;
use eos_fold::{ByteFold, Stop, is_at_end};
use eos_reading::{EpochEntry, KeptList, Reading, Seal, keep_batches, push_entries, read_seals};
use std::alloc::{AllocError, Global};
use std::marker::Model;

/// What is asked of a segment.
#[derive(Drop)]
pub(crate) struct Asked<K> {
    pub(crate) reading: K,
    /// The segment's name.
    pub(crate) begin: u64,
    /// Whether sequences are checked.
    pub(crate) sequenced: bool,
}

/// A segment as far as it was read.
#[derive(Drop)]
pub(crate) struct SegmentFold<K: Reading> {
    front: Front,
    /// The leader epochs of the front's batches.
    epochs: Vec<EpochEntry>,
    kept: K::Kept,
    /// How many bytes were taken: up to the last batch, or all behind a front's end.
    place: u64,
    /// The heads of a chunk's batches.
    heads: Vec<BatchHead>,
    /// Their seals.
    seals: Vec<Seal>,
}

impl<K: Reading> Model for SegmentFold<K> {
    ghost use Rattle.std.specs.Coded.{codes};
    ghost use Rattle.eos_kept.specs.Runs.{IsRun};
    ghost use Rattle.eos_kept.specs.contracts.front.Front as of_front;
    ghost use Rattle.eos_kept.specs.steps.Folding.{FoldView};

    ghost Value = { FoldView K.Kept.One };

    ghost coded = { Prim.hlevel (codes, of_front.the_row.coded) };

    ghost view = { λ f. record { front = f.front; epochs = f.epochs.items; kept = K.Kept.list f.kept; place = f.place } };

    ghost invariant = { λ f. IsRun f.front.run };
}

/// Ends a front at this byte, where no batch stands there and none can.
fn end_at(front: &mut Front, place: u64, fault: BatchFault)
    ensures { EndsAt place fault front.old front.new }
{
    if !is_at_end(front.stop) {
        return;
    }
    if fault != BatchFault::Truncated {
        front.stop = Stop::NoBatch {
            segment: front.begin,
            byte: place,
            fault,
        };
    }
}

/// Ends a front at this byte, where so many bytes wait for more and none follow.
fn cut_at(front: &mut Front, place: u64, waiting: usize)
    ensures { CutsAt place waiting front.old front.new }
{
    if waiting == 0 {
        return;
    }
    if !is_at_end(front.stop) {
        return;
    }
    front.stop = Stop::NoBatch {
        segment: front.begin,
        byte: place,
        fault: BatchFault::Truncated,
    };
}

/// Cuts what is kept back to so many after those before.
fn keep_first<L: KeptList>(kept: &mut L, before: usize, count: usize) -> Result<(), AllocError>
    ensures { OnOk result (L.list kept.new ≡ take (before + count) (L.list kept.old)) }
{
    let Some(end) = before.checked_add(count) else {
        return Err(AllocError);
    };
    kept.truncate(end);
    Ok(())
}

/// How many batches were passed, where there were so many before and are so many now.
fn passed_since(before: u64, now: u64) -> usize
    ensures { result ≡ now - before }
{
    now.saturating_sub(before) as usize
}

impl<K: Reading> ByteFold for SegmentFold<K> {
    ghost use Rattle.eos_kept.specs.steps.Folding.{IsFolding};

    type Told = Asked<K>;

    ghost holds = { λ asked f fed waiting. IsFolding (K.kept asked.reading) asked.begin asked.sequenced fed waiting f };

    fn take(
        &mut self,
        alloc: Global,
        told: &Asked<K>,
        buffer: &Bytes,
    ) -> Result<usize, AllocError> {
        let size = buffer.len();
        if !is_at_end(self.front.stop) {
            let Some(place) = self.place.checked_add(size as u64) else {
                return Err(AllocError);
            };
            self.place = place;
            return Ok(size);
        }
        let before = self.kept.len();
        let batches = self.front.batches;
        self.heads.clear();
        let (taken, fault) = keep_batches(
            alloc,
            &told.reading,
            buffer,
            &mut self.heads,
            &mut self.kept,
        )?;
        self.seals.clear();
        read_seals(buffer, self.heads.as_slice(), &mut self.seals)?;
        let count = pass_all(alloc, &mut self.front, &self.heads)?;
        keep_first(&mut self.kept, before, count)?;
        self.seals
            .truncate(passed_since(batches, self.front.batches));
        push_entries(&mut self.epochs, self.seals.as_slice())?;
        let Some(place) = self.place.checked_add(taken as u64) else {
            return Err(AllocError);
        };
        self.place = place;
        end_at(&mut self.front, place, fault);
        Ok(taken)
    }
}

impl<K: Reading> SegmentFold<K> {
    /// Before the first byte of a segment of this name.
    pub(crate) fn new(alloc: Global, begin: u64, sequenced: bool) -> SegmentFold<K>
        requires { begin ≤ 2 ^ 63 }
        ensures { (keep : ℕ → Record → K.Kept.One) → IsFolding keep begin sequenced [] [] result }
    {
        SegmentFold {
            front: Front::new(alloc, begin, sequenced),
            epochs: Vec::new(alloc),
            kept: KeptList::new(alloc),
            place: 0,
            heads: Vec::new(alloc),
            seals: Vec::new(alloc),
        }
    }

    /// What the whole segment gives, of which so many bytes still wait.
    pub(crate) fn finish(self, waiting: usize) -> Kept<K::Kept>
        requires size { self.place + waiting ≤ MAX_SEGMENT_BYTES }
        requires folded { (keep : ℕ → Record → K.Kept.One) × (begin : ℕ) × (sequenced : Bool) × (fed : List ℕ) × (rest : List ℕ) × IsFolding keep begin sequenced fed rest self }
        ensures { (keep : ℕ → Record → K.Kept.One) (segment : Segment) (rest : List ℕ) → length rest ≡ waiting
            → IsFolding keep (base_of segment) (is_checked segment) segment.bytes rest self → IsKept keep (segment ∷ []) result }
    {
        let SegmentFold {
            mut front,
            epochs,
            kept,
            place,
            ..
        } = self;
        cut_at(&mut front, place, waiting);
        front.epochs = epochs;
        let sizes = Sizes {
            segments: 1,
            bytes: place + waiting as u64,
        };
        Kept::new(front, kept, sizes)
    }
}
