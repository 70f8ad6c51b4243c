//! One segment's producer chain: the first sentence about exactly-once that a single file can answer.
//!
//! The segment counts as a whole partition that begins at its first batch, so a later segment of a good log often has a
//! producer whose sequences don't begin at 0 there.

ghost use Rattle.std.specs.Prelude.{◌≡◌, ◌≤◌, ◌+◌, ℕ, List, length, IfOk, IfErr, OnOk, OnErr, MatchResult, Err};
ghost use Rattle.std.specs.Io.KnownBytes.{Consumes, IsAtEnd};
ghost use Rattle.eos_evidence.specs.Reading.{Takes, TakesAtMost};
ghost use Rattle.eos_segment.specs.ChainFaults.{IsLeastFault};
ghost use Rattle.eos_segment.specs.Good.{IsGood};

use crate::fed::FedWalk;
use bytes::Bytes;
pub use counts::Chain;
use eos_evidence::{MAX_SEGMENT_BYTES, ReadFault};
use eos_fold::{ByteFold, read_folded};
use eos_touch::PartitionFault;
use std::alloc::{AllocError, Global};
use std::io::Read;

/// A module of its own, since the names `Chain` and `chain` differ in case alone.
mod counts {
    /// What is counted in a good segment: its batches, and the unequal producer ids among their touches.
    #[derive(Clone, Copy)]
    pub struct Chain {
        pub batches: u64,
        pub producers: u64,
    }
}

/// Whether a segment is good as a whole partition that begins at its first batch: its bytes are record batches without
/// a gap, and for every producer id no sequence is repeated or missing in an epoch and zombies are fenced. It reads over
/// the records and keeps none, only a table of the last touch of each producer id.
///
/// # Errors
/// The least fault of the segment, by offset, then by kind (1 to 9). It has an empty topic and partition 0. Its
/// BadBatch names the segment by its first batch's base offset, and by 0 where its first bytes are no batch.
pub fn chain(alloc: Global, bytes: &Bytes) -> Result<Result<Chain, PartitionFault>, AllocError>
    ensures good { IfOk result (λ answer. IfOk answer (IsGood bytes.now)) }
    ensures least { IfOk result (λ answer. IfErr answer (IsLeastFault bytes.now)) }
{
    let mut walk = FedWalk::new(alloc);
    let taken = walk.take(alloc, &(), bytes)?;
    Ok(walk.finish(bytes.len() - taken))
}

/// What `chain` says of all bytes that a reader has left. They are read chunk by chunk: it holds the table, and of the bytes
/// only a batch that isn't whole yet. At `Limit` one byte more than a segment may have was read, and the rest is unread.
pub fn chain_from<R: Read>(
    alloc: Global,
    reader: &mut R,
) -> Result<Result<Chain, PartitionFault>, ReadFault>
    ensures ok { IfOk result (λ answer. (bytes : List ℕ) × Consumes (R.remaining reader.old) (R.remaining reader.new) bytes × (length bytes ≤ MAX_SEGMENT_BYTES)
        × MatchResult answer (IsGood bytes) (IsLeastFault bytes)) }
    ensures end { OnOk result (IsAtEnd (R.remaining reader.new)) }
    ensures read { result ≡ Err ReadFault.Read → TakesAtMost MAX_SEGMENT_BYTES (R.remaining reader.old) (R.remaining reader.new) }
    ensures limit { result ≡ Err ReadFault.Limit → Takes (MAX_SEGMENT_BYTES + 1) (R.remaining reader.old) (R.remaining reader.new) }
    ensures refused { OnErr result (TakesAtMost (MAX_SEGMENT_BYTES + 1) (R.remaining reader.old) (R.remaining reader.new)) }
{
    let (walk, waiting) = read_folded(alloc, &(), FedWalk::new(alloc), reader)?;
    Ok(walk.finish(waiting))
}
