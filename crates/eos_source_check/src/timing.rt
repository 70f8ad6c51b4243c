//! The times of a segment's records, which is read for them: of its bytes nothing is held.

ghost use Rattle.std.specs.Prelude.{◌≡◌, ◌≤◌, ◌+◌, ◌^◌, ℕ, List, [], false, length, Err, IfOk, OnOk, OnErr};
ghost use Rattle.std.specs.Io.KnownBytes.{Consumes, IsAtEnd};
ghost use Rattle.eos_batch.specs.declared.batch.Batch.{Batch};
ghost use Rattle.eos_evidence.specs.Reading.{Takes, TakesAtMost};
ghost use Rattle.eos_reading.specs.Heads.{HasHeads};
ghost use Rattle.eos_source_check.specs.steps.Timing.{IsTimedOn, IsTimedBy};

use crate::rising::{Asked, Rising, push_held};
use bytes::Bytes;
use eos_batch::{BatchFault, BatchHead};
use eos_evidence::{MAX_SEGMENT_BYTES, ReadFault};
use eos_fold::{ByteFold, read_folded};
use eos_reading::{Nothing, keep_batches};
use eos_sought::Standing;
use std::alloc::{AllocError, Global};
use std::io::Read;

/// What the bytes that were read so far tell.
#[derive(Drop)]
pub(crate) struct Timing {
    times: Vec<(u64, i64)>,
    /// Where the next batch begins.
    next: u64,
    /// Whether none does.
    is_ended: bool,
}

/// The byte and the offset behind a batch that stands there: no segment has as many of either as 64 bits count.
fn behind(head: &BatchHead, byte: usize) -> Result<(usize, u64), AllocError>
    ensures { IfOk result (λ after. (after.0 ≡ byte + head.now.size) × (after.1 ≡ head.now.offset + head.now.count)) }
{
    match (
        byte.checked_add(head.size),
        head.offset.checked_add(u64::from(head.count)),
    ) {
        (Some(byte), Some(next)) => Ok((byte, next)),
        _ => Err(AllocError),
    }
}

/// Adds the times of the batches with these heads, which stand in a buffer from its front on, as far as each begins where the one before
/// ends.
fn pass_heads(
    alloc: Global,
    timing: &mut Timing,
    buffer: &Bytes,
    heads: &[BatchHead],
    offsets: &Rising<'_>,
) -> Result<(), AllocError>
    ensures { (batches : List Batch) (rest : List ℕ) → timing.old.is_ended ≡ false → HasHeads buffer.now batches heads.now rest → OnOk result (IsTimedOn buffer.now offsets.now rest timing.old timing.new) }
{
    let mut at = 0;
    for head in heads {
        if head.offset != timing.next {
            timing.is_ended = true;
            return Ok(());
        }
        let standing = Standing {
            byte: at,
            head: *head,
        };
        push_held(alloc, &mut timing.times, buffer, standing, offsets)?;
        let after = behind(head, at)?;
        at = after.0;
        timing.next = after.1;
    }
    Ok(())
}

impl ByteFold for Timing {
    ghost use Rattle.eos_source_check.specs.steps.Timing.{IsTiming};

    type Told = Asked;

    ghost holds = { λ asked w fed waiting. IsTiming asked fed waiting w };

    fn take(&mut self, alloc: Global, told: &Asked, buffer: &Bytes) -> Result<usize, AllocError> {
        if self.is_ended {
            return Ok(buffer.len());
        }
        let mut heads = Vec::new(alloc);
        let mut records = Vec::new(alloc);
        let (taken, fault) = keep_batches(alloc, &Nothing, buffer, &mut heads, &mut records)?;
        pass_heads(alloc, self, buffer, heads.as_slice(), &told.offsets())?;
        if fault == BatchFault::Truncated {
            return Ok(taken);
        }
        self.is_ended = true;
        Ok(taken)
    }
}

/// The times of the records of a segment that stand at these offsets. The segment is read to its end, and no more of it is held than a
/// chunk, or a batch where that is larger, and these. At `Limit` one byte more than a segment may have was read, and the rest is unread.
pub(crate) fn read_times<R: Read>(
    alloc: Global,
    asked: &Asked,
    reader: &mut R,
) -> Result<Vec<(u64, i64)>, ReadFault>
    ensures ok { IfOk result (λ times. (bytes : List ℕ) × Consumes (R.remaining reader.old) (R.remaining reader.new) bytes × (length bytes ≤ MAX_SEGMENT_BYTES)
        × IsTimedBy asked.now bytes times.items) }
    ensures end { OnOk result (IsAtEnd (R.remaining reader.new)) }
    ensures read { result ≡ Err ReadFault.Read → TakesAtMost MAX_SEGMENT_BYTES (R.remaining reader.old) (R.remaining reader.new) }
    ensures limit { result ≡ Err ReadFault.Limit → Takes (MAX_SEGMENT_BYTES + 1) (R.remaining reader.old) (R.remaining reader.new) }
    ensures refused { OnErr result (TakesAtMost (MAX_SEGMENT_BYTES + 1) (R.remaining reader.old) (R.remaining reader.new)) }
{
    let timing = Timing {
        times: Vec::new(alloc),
        next: asked.begin(),
        is_ended: false,
    };
    let (timing, _waiting) = read_folded(alloc, asked, timing, reader)?;
    Ok(timing.times)
}
