//! The heads of a run's data batches.

ghost use Rattle.std.specs.Prelude.{◌≡◌, ◌+◌, ◌<◌, ◌≤◌, ◌^◌, ◌∷◌, [], ◌++◌, ℕ, ℤ, List, map, length, All, OnOk, Some, false};
ghost use Rattle.eos_batch.specs.declared.batch.Batch.{Batch};
ghost use Rattle.eos_batch.specs.Heads.{head_of};
ghost use Rattle.eos_fold.specs.Batches.{DataBatch};
ghost use Rattle.eos_fold.specs.steps.Endings.{set_ending, set_endings};
ghost use Rattle.eos_fold.specs.Settling.{data_in, ended, settled, waiting_in};
ghost use Rattle.eos_fold.specs.steps.Summaries.{only};
ghost use Rattle.eos_kept.specs.Runs.{heads_of};

use eos_batch::BatchHead;
use eos_fold::{DataHead, EndMark, Indexes};
use std::alloc::{AllocError, Global};
use std::marker::Model;

/// The heads of data batches, in order. Contracts see them, and for how many there is room.
#[derive(Drop)]
pub(crate) struct Heads {
    items: Vec<DataHead>,
}

impl Model for Heads {
    ghost use Rattle.std.specs.Vec.{vec_capacity};
    ghost use Rattle.eos_kept.specs.steps.Heads.{HeadsView};

    ghost Value = { HeadsView };

    ghost view = { λ h. record { list = h.items.items; room = vec_capacity h.items } };
}

/// The head of a data batch by itself.
pub(crate) fn data_head(head: &BatchHead) -> DataHead
    ensures { (b : Batch) (size : ℕ) → head.now ≡ head_of b size → head.now.is_control ≡ false → heads_of (data_in (b ∷ [])) ≡ result ∷ [] }
{
    DataHead::of(head)
}

impl Heads {
    pub(crate) fn new(alloc: Global) -> Heads
        ensures { result.list ≡ [] }
    {
        Heads {
            items: Vec::new(alloc),
        }
    }

    pub(crate) fn len(&self) -> usize
        ensures value { result ≡ length self.now.list }
        ensures bound { result < 2 ^ 64 }
    {
        self.items.len()
    }

    pub(crate) fn as_slice(&self) -> &[DataHead]
        ensures { result.now ≡ self.now.list }
    {
        self.items.as_slice()
    }

    pub(crate) fn into_vec(self) -> Vec<DataHead>
        ensures { result.items ≡ self.list }
    {
        self.items
    }

    /// Makes room for so many more.
    pub(crate) fn reserve(&mut self, count: usize) -> Result<(), AllocError>
        ensures list { self.new.list ≡ self.old.list }
        ensures room { OnOk result (length self.old.list + count ≤ self.new.room) }
    {
        self.items.reserve(count)
    }

    /// Puts a head behind these, where there is room.
    pub(crate) fn push(&mut self, head: DataHead)
        requires { length self.old.list + 1 ≤ self.old.room }
        ensures { self.new.list ≡ self.old.list ++ head ∷ [] }
    {
        self.items.push_reserved(head);
    }

    /// Puts other heads behind these, where there is room.
    pub(crate) fn append(&mut self, mut more: Heads)
        requires { length self.old.list + length more.list ≤ self.old.room }
        ensures { self.new.list ≡ self.old.list ++ more.list }
    {
        let Ok(()) = self.items.append(&mut more.items) else {
            unreachable!()
        };
    }

    /// Ends the transaction of the batch at this place by this marker.
    fn set_ending(&mut self, place: usize, marker: EndMark)
        requires { place < length self.old.list }
        ensures set { (ds : List DataBatch) → self.old.list ≡ heads_of ds → self.new.list ≡ heads_of (set_ending (ended marker) place ds) }
        ensures all { length self.new.list ≡ length self.old.list }
        ensures room { self.new.room ≡ self.old.room }
    {
        self.items[place].end(marker);
    }

    /// Ends the transactions of the batches at these places by this marker.
    fn set_endings(&mut self, places: &Indexes, marker: EndMark)
        requires { All (λ place. place < length self.old.list) places.now.list }
        ensures set { (ds : List DataBatch) → self.old.list ≡ heads_of ds → self.new.list ≡ heads_of (set_endings (ended marker) places.now.list ds) }
        ensures all { length self.new.list ≡ length self.old.list }
        ensures room { self.new.room ≡ self.old.room }
    {
        for place in places.as_slice() {
            self.set_ending(*place, marker);
        }
    }

    /// Settles what waits at these places, where there is a marker.
    pub(crate) fn settle(&mut self, places: &Indexes, marker: Option<EndMark>)
        requires { All (λ place. place < length self.old.list) places.now.list }
        ensures settled { (id : ℤ) (ds : List DataBatch) → self.old.list ≡ heads_of ds → places.now.list ≡ waiting_in id ds
            → self.new.list ≡ heads_of (map (settled (only id marker)) ds) }
        ensures all { length self.new.list ≡ length self.old.list }
        ensures room { self.new.room ≡ self.old.room }
    {
        if let Some(marker) = marker {
            self.set_endings(places, marker);
        }
    }
}
