//! The front of a segment, and of its data records what a reading keeps.

ghost use Rattle.std.specs.Prelude.{◌≡◌, ◌≤◌, ◌<◌, ◌+◌, ◌^◌, ℕ, List, length, Err, IfOk, OnOk, OnErr};
ghost use Rattle.std.specs.Io.KnownBytes.{Consumes, IsAtEnd};
ghost use Rattle.eos_batch.specs.declared.record.Record.{Record};
ghost use Rattle.eos_evidence.specs.Reading.{Takes, TakesAtMost};
ghost use Rattle.eos_reading.specs.Kept.{kept_of};
ghost use Rattle.eos_fold_file.specs.steps.Passing.{AllFit};
ghost use Rattle.eos_fold_file.specs.steps.Fronts.{stop_of, IsFront};
ghost use Rattle.eos_fold_file.specs.steps.Sealing.{IsSealed};

use crate::FoldHead;
use crate::pass::pass_heads;
use crate::seals::{checksum_of, entries_of};
use crate::segment::{Sealed, Sealing};
use eos_base::Listed;
use eos_batch::BatchFault;
use eos_evidence::{MAX_SEGMENT_BYTES, ReadFault};
use eos_fold::{Stop, read_folded};
use eos_reading::{EpochEntry, KeptList, Reading};
use std::alloc::{AllocError, Global};
use std::io::Read;

/// The front of a segment.
#[derive(Drop)]
pub(crate) struct Front {
    /// The head of each batch.
    pub(crate) heads: Listed<FoldHead>,
    /// The leader epochs of the batches, each with the offset at which it begins.
    pub(crate) epochs: Listed<EpochEntry>,
    /// CRC-32C of the batches' checksums.
    pub(crate) batches: u32,
    /// Why it ends.
    pub(crate) stop: Stop,
    /// The number of the segment's bytes, whatever of them is of the front.
    pub(crate) bytes: u64,
}

/// Why a front ends, where the next batch begins elsewhere, or where the log stops.
fn stop_of(begin: u64, found: Option<u64>, stop: Option<(u64, BatchFault)>) -> Stop
    ensures { result ≡ stop_of begin found stop }
{
    if let Some(found) = found {
        return Stop::Elsewhere { found };
    }
    let Some((byte, fault)) = stop else {
        return Stop::AtEnd;
    };
    Stop::NoBatch {
        segment: begin,
        byte,
        fault,
    }
}

/// The front of a segment of this name, and what is kept of its data records.
fn front_of<L: KeptList + Drop>(
    alloc: Global,
    begin: u64,
    sealed: Sealed<L>,
) -> Result<(Front, L), AllocError>
    requires begin { begin ≤ 2 ^ 63 }
    requires fit { AllFit sealed.folded.heads }
    ensures { IfOk result (λ both. (keep : ℕ → Record → L.One) (bytes : List ℕ) → length bytes < 2 ^ 64 → IsSealed keep bytes sealed → IsFront begin bytes (λ batches. L.list both.1 ≡ kept_of keep batches) both.0) }
{
    let passed = pass_heads(alloc, begin, sealed.heads.as_slice())?;
    let stop = stop_of(begin, passed.found, sealed.stop);
    let mut seals = sealed.seals;
    seals.truncate(passed.heads.len());
    let epochs = entries_of(alloc, seals.as_slice())?;
    let batches = checksum_of(alloc, seals.as_slice())?;
    let mut kept = sealed.kept;
    kept.truncate(passed.records);
    let front = Front {
        heads: passed.heads,
        epochs: Listed::new(epochs),
        batches,
        stop,
        bytes: sealed.bytes,
    };
    Ok((front, kept))
}

/// Reads a segment of this name to its end: its front, and of the front's data records what the reading keeps.
pub(crate) fn read_front<K: Reading, R: Read>(
    alloc: Global,
    reading: &K,
    begin: u64,
    reader: &mut R,
) -> Result<(Front, K::Kept), ReadFault>
    requires { begin ≤ 2 ^ 63 }
    ensures ok { IfOk result (λ both. (bytes : List ℕ) × Consumes (R.remaining reader.old) (R.remaining reader.new) bytes × (length bytes ≤ MAX_SEGMENT_BYTES)
        × IsFront begin bytes (λ batches. K.Kept.list both.1 ≡ kept_of (K.kept reading.now) batches) both.0) }
    ensures end { OnOk result (IsAtEnd (R.remaining reader.new)) }
    ensures read { result ≡ Err ReadFault.Read → TakesAtMost MAX_SEGMENT_BYTES (R.remaining reader.old) (R.remaining reader.new) }
    ensures limit { result ≡ Err ReadFault.Limit → Takes (MAX_SEGMENT_BYTES + 1) (R.remaining reader.old) (R.remaining reader.new) }
    ensures refused { OnErr result (TakesAtMost (MAX_SEGMENT_BYTES + 1) (R.remaining reader.old) (R.remaining reader.new)) }
{
    let sealing: Sealing<K> = Sealing::new(alloc);
    let (sealing, waiting) = read_folded(alloc, reading, sealing, reader)?;
    let both = front_of(alloc, begin, sealing.finish(waiting))?;
    Ok(both)
}
