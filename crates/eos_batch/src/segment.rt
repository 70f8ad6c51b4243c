//! Reading a whole segment: record batches one after the other, up to the end or the first fault.

ghost use Rattle.std.specs.Prelude.{◌≡◌, ◌≤◌, ◌+◌, ℕ, List, length, drop, Ok, IfOk, IfErr, OnErr};
ghost use Rattle.eos_batch.specs.declared.batch.Batch.{Batch};
ghost use Rattle.eos_batch.specs.Reading.{batch_at};
ghost use Rattle.eos_batch.specs.Real.{IsReal};
ghost use Rattle.eos_batch.specs.Segment.{Splits, IsSegmentText};

use crate::batch::{Batch, Batches};
use crate::decode::decode_batch;
use crate::fault::BatchFault;
use bytes::Bytes;
use eos_wire::are_bytes;
use std::alloc::{AllocError, Global};

/// What a segment holds.
#[derive(Drop)]
pub struct SegmentText {
    /// All batches, or those before the first fault.
    pub batches: Batches,
    /// The byte at which the first batch that does not read begins, and why. It is never `OutOfMemory`.
    pub stop: Option<(usize, BatchFault)>,
}

/// The batch at `at` and how many bytes it takes, or why no batch stands there: the step of every walk along a segment.
///
/// # Errors
/// Only want of memory, where a batch stands there.
pub fn next_batch(
    alloc: Global,
    bytes: &Bytes,
    at: usize,
) -> Result<Result<(Batch, usize), BatchFault>, AllocError>
    requires { at ≤ length bytes.now }
    ensures read { IfOk result (λ read. batch_at (drop at bytes.now) ≡ read) }
    ensures real { IfOk result (λ read. IfErr read IsReal) }
    ensures further { IfOk result (λ read. IfOk read (λ r. (1 ≤ r.1) × (at + r.1 ≤ length bytes.now))) }
    ensures memory { OnErr result ((read : Batch × ℕ) × (batch_at (drop at bytes.now) ≡ Ok read)) }
{
    are_bytes(bytes.as_slice());
    match decode_batch(alloc, bytes, at) {
        Ok(read) => Ok(Ok(read)),
        Err(BatchFault::OutOfMemory) => Err(AllocError),
        Err(fault) => Ok(Err(fault)),
    }
}

/// All batches up to the end or the first fault.
///
/// # Errors
/// Only want of memory.
pub fn decode_segment(alloc: Global, bytes: &Bytes) -> Result<SegmentText, AllocError>
    ensures text { IfOk result (λ s. IsSegmentText bytes.now s.batches s.stop) }
    ensures longest { IfOk result (λ s. (others : List Batch) (rest : List ℕ)
        → Splits bytes.now others rest → length others ≤ length s.batches) }
{
    are_bytes(bytes.as_slice());
    let mut batches = Vec::new(alloc);
    let mut at = 0;
    'texts: while at < bytes.len() {
        match next_batch(alloc, bytes, at)? {
            Ok((batch, len)) => {
                batches.push(batch)?;
                at += len;
            }
            Err(fault) => {
                return Ok(SegmentText {
                    batches: Batches::new(batches),
                    stop: Some((at, fault)),
                });
            }
        }
    }
    Ok(SegmentText {
        batches: Batches::new(batches),
        stop: None,
    })
}
