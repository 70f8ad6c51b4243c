//! What is kept of a list of segments, and of two.

ghost use Rattle.std.specs.Prelude.{◌≡◌, ◌++◌, ◌⊎◌, ℕ, List, IfOk, IfErr};
ghost use Rattle.eos_batch.specs.declared.record.Record.{Record};
ghost use Rattle.eos_evidence.specs.declared.segment.Segment.{Segment};
ghost use Rattle.eos_kept.specs.Kept.{IsKept, SameKept};
ghost use Rattle.eos_kept.specs.Passing.{HoldsEach};

use crate::DataHead;
use crate::front::Front;
use crate::sizes::Sizes;
use eos_batch::Marker;
use eos_fold::{Stop, is_at_end};
use eos_reading::KeptList;
use std::alloc::Global;
use std::marker::Model;

/// What is kept of a list of segments: their front, of each data record of it what a reading keeps, and how large they are.
#[derive(Drop)]
pub struct Kept<L: KeptList> {
    front: Front,
    kept: L,
    sizes: Sizes,
}

impl<L: KeptList> Model for Kept<L> {
    ghost use Rattle.std.specs.Coded.{codes};
    ghost use Rattle.eos_kept.specs.Kept.{KeptView};
    ghost use Rattle.eos_kept.specs.Passing.{HoldsEach};
    ghost use Rattle.eos_kept.specs.contracts.front.Front as of_front;

    ghost Value = { KeptView L.One };

    ghost coded = { Prim.hlevel (codes, of_front.the_row.coded) };

    ghost view = { λ k. record { front = k.front; kept = L.list k.kept; sizes = k.sizes } };

    ghost invariant = { λ k. HoldsEach k.front (L.list k.kept) };
}

impl<L: KeptList> Kept<L> {
    /// Of this front, with what is kept of its data records, and how large its segments are.
    pub fn new(front: Front, kept: L, sizes: Sizes) -> Kept<L>
        requires { HoldsEach front (L.list kept) }
        ensures front { result.front ≡ front }
        ensures kept { result.kept ≡ L.list kept }
        ensures sizes { result.sizes ≡ sizes }
    {
        Kept { front, kept, sizes }
    }

    /// The heads of the front's data batches, in order, each with its ending as far as these segments say. What is kept of a
    /// batch's records are the next so many of what is kept.
    pub fn heads(&self) -> &[DataHead]
        ensures { result.now ≡ self.now.front.run.heads.list }
    {
        self.front.run.heads()
    }

    /// What is kept of the front's data records, in order.
    pub fn kept(&self) -> &L
        ensures { L.list result.now ≡ self.now.kept }
    {
        &self.kept
    }

    /// The front's end markers, in order.
    pub fn markers(&self) -> &[Marker]
        ensures { result.now ≡ self.now.front.markers.items }
    {
        self.front.markers.as_slice()
    }

    /// The offset after the front's last record.
    pub fn next(&self) -> u64
        ensures { result ≡ self.now.front.next }
    {
        self.front.next
    }

    /// Why the front ends.
    pub fn stop(&self) -> Stop
        ensures { result ≡ self.now.front.stop }
    {
        self.front.stop
    }

    /// The number of the front's batches, control batches too.
    pub fn batches(&self) -> u64
        ensures { result ≡ self.now.front.batches }
    {
        self.front.batches
    }

    /// How large the segments are, whatever of them is of the front.
    pub fn sizes(&self) -> Sizes
        ensures { result ≡ self.now.sizes }
    {
        self.sizes
    }

    /// The front, and what is kept of its data records.
    pub fn into_parts(self) -> (Front, L)
        ensures front { result.0 ≡ self.front }
        ensures kept { L.list result.1 ≡ self.kept }
        ensures each { HoldsEach result.0 (L.list result.1) }
    {
        (self.front, self.kept)
    }
}

impl<L: KeptList + Drop> Kept<L> {
    /// What is kept of two lists of segments of one partition, of which the second follows the first. Where memory is refused, or
    /// a u64 doesn't hold a count, both are handed back.
    pub fn join(
        alloc: Global,
        mut before: Kept<L>,
        mut after: Kept<L>,
    ) -> Result<Kept<L>, (Kept<L>, Kept<L>)>
        requires { after.front.run.sequenced ≡ before.front.run.sequenced }
        ensures ok { (keep : ℕ → Record → L.One) (xs ys : List Segment) → IsKept keep xs before → IsKept keep ys after → IfOk result (IsKept keep (xs ++ ys)) }
        ensures kept { IfOk result (λ k. (k.kept ≡ before.kept) ⊎ (k.kept ≡ before.kept ++ after.kept)) }
        ensures sequenced { IfOk result (λ k. k.front.run.sequenced ≡ before.front.run.sequenced) }
        ensures err { IfErr result (λ back. SameKept before back.0 × SameKept after back.1) }
    {
        let Some(sizes) = before.sizes.plus(after.sizes) else {
            return Err((before, after));
        };
        if !is_at_end(before.front.stop) {
            before.sizes = sizes;
            return Ok(before);
        }
        let found = after.front.begin;
        if found != before.front.next {
            before.front.stop = Stop::Elsewhere { found };
            before.sizes = sizes;
            return Ok(before);
        }
        if before.kept.make_room(&mut after.kept).is_err() {
            return Err((before, after));
        }
        match Front::join(alloc, before.front, after.front) {
            Ok(front) => {
                before.kept.append(after.kept);
                Ok(Kept {
                    front,
                    kept: before.kept,
                    sizes,
                })
            }
            Err((front, front_after)) => {
                before.front = front;
                after.front = front_after;
                Err((before, after))
            }
        }
    }
}
