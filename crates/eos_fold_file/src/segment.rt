//! A segment's batches, read once: of each its head and its seal, and of each data record what is wanted.

ghost use Rattle.std.specs.Prelude.{◌≡◌, ◌≤◌, ◌++◌, ℕ, List, [], length, drop, IfOk};
ghost use Rattle.eos_batch.specs.declared.record.Record.{Record};
ghost use Rattle.eos_fold_file.specs.steps.Sealing.{IsSealing, IsSealed};

use bytes::Bytes;
use eos_batch::{BatchFault, BatchHead};
use eos_fold::ByteFold;
use eos_reading::{KeptList, Reading, Seal, keep_batches, read_seals};
use std::alloc::{AllocError, Global};
use std::marker::Model;

/// A segment as far as it was read.
#[derive(Drop)]
pub(crate) struct Sealing<K: Reading> {
    heads: Vec<BatchHead>,
    kept: K::Kept,
    seals: Vec<Seal>,
    /// The byte after the last batch.
    place: u64,
    /// Why no batch stands there: `Truncated` as long as bytes may follow.
    fault: BatchFault,
    /// How many bytes were taken: up to that byte, or all behind it where no batch ever stands there.
    taken: u64,
}

impl<K: Reading> Model for Sealing<K> {
    ghost use Rattle.eos_fold_file.specs.steps.Sealing.{SealingView};

    ghost Value = { SealingView K.Kept.One };

    ghost view = { λ f. record { fold = record { heads = f.heads.items; kept = K.Kept.list f.kept; place = f.place; fault = f.fault; taken = f.taken }; seals = f.seals.items } };
}

/// Those from this place on.
fn behind(heads: &[BatchHead], place: usize) -> &[BatchHead]
    requires { place ≤ length heads.now }
    ensures { result.now ≡ drop place heads.now }
{
    &heads[place..]
}

impl<K: Reading> ByteFold for Sealing<K> {
    ghost use Rattle.eos_fold_file.specs.steps.Sealing.{IsSealing};

    type Told = K;

    ghost holds = { λ reading f fed waiting. IsSealing (K.kept reading) fed waiting f };

    fn take(&mut self, alloc: Global, told: &K, buffer: &Bytes) -> Result<usize, AllocError> {
        let size = buffer.len();
        if self.fault != BatchFault::Truncated {
            let Some(all) = self.taken.checked_add(size as u64) else {
                return Err(AllocError);
            };
            self.taken = all;
            return Ok(size);
        }
        let before = self.heads.len();
        let (taken, fault) = keep_batches(alloc, told, buffer, &mut self.heads, &mut self.kept)?;
        read_seals(
            buffer,
            behind(self.heads.as_slice(), before),
            &mut self.seals,
        )?;
        let Some(place) = self.place.checked_add(taken as u64) else {
            return Err(AllocError);
        };
        self.place = place;
        self.fault = fault;
        self.taken = place;
        Ok(taken)
    }
}

/// A whole segment.
#[derive(Drop)]
pub(crate) struct Sealed<L: KeptList> {
    pub(crate) heads: Vec<BatchHead>,
    pub(crate) kept: L,
    /// One for each batch.
    pub(crate) seals: Vec<Seal>,
    /// The first byte where no batch stands, and why none does.
    pub(crate) stop: Option<(u64, BatchFault)>,
    pub(crate) bytes: u64,
}

impl<L: KeptList> Model for Sealed<L> {
    ghost use Rattle.eos_fold_file.specs.steps.Sealing.{SealedView};

    ghost Value = { SealedView L.One };

    ghost view = { λ f. record { folded = record { heads = f.heads.items; kept = L.list f.kept; stop = f.stop; bytes = f.bytes }; seals = f.seals.items } };
}

impl<K: Reading> Sealing<K> {
    /// Before the first byte.
    pub(crate) fn new(alloc: Global) -> Sealing<K>
        ensures { (keep : ℕ → Record → K.Kept.One) → IsSealing keep [] [] result }
    {
        Sealing {
            heads: Vec::new(alloc),
            kept: KeptList::new(alloc),
            seals: Vec::new(alloc),
            place: 0,
            fault: BatchFault::Truncated,
            taken: 0,
        }
    }

    /// The whole segment, of which so many bytes still wait.
    pub(crate) fn finish(self, waiting: usize) -> Sealed<K::Kept>
        ensures { (keep : ℕ → Record → K.Kept.One) (bytes rest : List ℕ) → IsSealing keep bytes rest self → length rest ≡ waiting → IsSealed keep bytes result }
    {
        let bytes = self.taken.saturating_add(waiting as u64);
        if self.fault != BatchFault::Truncated {
            return Sealed {
                heads: self.heads,
                kept: self.kept,
                seals: self.seals,
                stop: Some((self.place, self.fault)),
                bytes,
            };
        }
        if waiting == 0 {
            return Sealed {
                heads: self.heads,
                kept: self.kept,
                seals: self.seals,
                stop: None,
                bytes,
            };
        }
        Sealed {
            heads: self.heads,
            kept: self.kept,
            seals: self.seals,
            stop: Some((self.place, self.fault)),
            bytes,
        }
    }
}
