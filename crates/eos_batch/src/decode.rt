//! Reading a record batch: the tests in their order, each before what stands after it.
//!
//! | Field | Width | Meaning |
//! |---|---|---|
//! | baseOffset | i64 | the first record's offset |
//! | batchLength | i32 | of the bytes that follow, at least 49 |
//! | partitionLeaderEpoch | i32 | not covered by the crc, since a broker sets it |
//! | magic | i8 | 2 |
//! | crc | u32 | CRC-32C of the bytes from the attributes to the end |
//! | attributes | i16 | bits 0 to 2 compression, 4 transactional, 5 control |
//! | lastOffsetDelta | i32 | one below the number of records |
//! | baseTimestamp, maxTimestamp | i64 | mean nothing here |
//! | producerId | i64 | below 0: no idempotence |
//! | producerEpoch | i16 | |
//! | baseSequence | i32 | of the first record |
//! | record count | i32 | at least 1 |
//! | records | | see the reading of records |
//!
//! The source is "Record Batch" of the Message Format in Kafka's documentation. All numbers are big-endian.

ghost use Rattle.std.specs.Prelude.{◌≡◌, ◌≤◌, ℕ, length, drop, Ok, Err, IfOk, IfErr};
ghost use Rattle.eos_batch.specs.declared.batch.Batch.{Batch};
ghost use Rattle.eos_batch.specs.Text.{HasTextAt};
ghost use Rattle.eos_batch.specs.Attributes.{is_compressed};
ghost use Rattle.eos_batch.specs.Answers.{Answers};
ghost use Rattle.eos_batch.specs.steps.Answers.{Gives};
ghost use Rattle.eos_batch.specs.Real.{IsReal};
ghost use Rattle.eos_batch.specs.Reading.{count_fits, offsets_fit, frame_at, sealed_at, head_at, batch_at};

use crate::batch::Batch;
use crate::fault::BatchFault;
use crate::read_record::records_of;
use crate::record::Records;
use crate::rules::is_compressed;
use crate::walk::{open_batch, test_opened};
use bytes::Bytes;
use eos_wire::{Cursor, are_bytes, crc32c};
use std::alloc::Global;

/// The bytes up to the length, which counts those after it.
pub(crate) const FRAME: usize = 12;

const LEAST_LENGTH: i32 = 49;

const MAGIC: i8 = 2;

/// The fields before the records, in a batch that has none yet.
#[derive(Drop)]
pub(crate) struct Head {
    pub(crate) batch: Batch,
    pub(crate) last_offset_delta: i32,
    pub(crate) count: i32,
}

impl Head {
    pub(crate) fn is_compressed(&self) -> bool
        ensures { result ≡ is_compressed self.now.batch.attributes }
    {
        is_compressed(self.batch.attributes)
    }

    /// There is a record, and the count is the last offset delta plus 1.
    pub(crate) fn count_fits(&self) -> bool
        ensures { result ≡ count_fits self.now }
    {
        self.count > 0 && self.count - 1 == self.last_offset_delta
    }

    /// No offset is below 0 or past the greatest i64.
    pub(crate) fn offsets_fit(&self) -> bool
        ensures { result ≡ offsets_fit self.now }
    {
        let base_offset = self.batch.base_offset;
        base_offset >= 0 && i64::from(self.last_offset_delta) <= i64::MAX - base_offset
    }
}

/// The base offset, and the bytes that the length counts.
#[tactic(auto, unfolding(crate::specs::Reading::frame_at))]
pub(crate) fn frame_of<'a>(rest: &mut Cursor<'a>) -> Result<(i64, Cursor<'a>), BatchFault>
    ensures answers { Answers result (frame_at rest.old) }
    ensures real { IfErr result IsReal }
{
    let (Some(base_offset), Some(len)) = (rest.i64(), rest.i32()) else {
        return Err(BatchFault::Truncated);
    };
    if len < LEAST_LENGTH {
        return Err(BatchFault::Length);
    }
    match rest.take(len as usize) {
        Some(body) => Ok((base_offset, body)),
        None => Err(BatchFault::Truncated),
    }
}

/// The leader epoch of a batch with the right checksum.
#[tactic(auto, unfolding(crate::specs::Reading::sealed_at))]
pub(crate) fn sealed_of(rest: &mut Cursor) -> Result<i32, BatchFault>
    ensures gives { Gives result rest.new (sealed_at rest.old) }
    ensures real { IfErr result IsReal }
{
    let (Some(leader_epoch), Some(magic)) = (rest.i32(), rest.i8()) else {
        return Err(BatchFault::Truncated);
    };
    if magic != MAGIC {
        return Err(BatchFault::Magic);
    }
    let Some(checksum) = rest.u32() else {
        return Err(BatchFault::Truncated);
    };
    if checksum != crc32c(rest.rest()) {
        return Err(BatchFault::Crc);
    }
    Ok(leader_epoch)
}

#[tactic(auto, unfolding(crate::specs::Reading::head_at))]
pub(crate) fn head_of(
    alloc: Global,
    rest: &mut Cursor,
    base_offset: i64,
    leader_epoch: i32,
) -> Result<Head, BatchFault>
    ensures gives { Gives result rest.new (head_at base_offset leader_epoch rest.old) }
    ensures real { IfErr result IsReal }
{
    let (Some(attributes), Some(last_offset_delta), Some(base_timestamp), Some(max_timestamp)) = (
        rest.i16(),
        rest.i32(),
        rest.i64(),
        rest.i64(),
    ) else {
        return Err(BatchFault::Truncated);
    };
    let (Some(producer), Some(epoch), Some(sequence), Some(count)) = (
        rest.i64(),
        rest.i16(),
        rest.i32(),
        rest.i32(),
    ) else {
        return Err(BatchFault::Truncated);
    };
    Ok(Head {
        batch: Batch {
            base_offset,
            leader_epoch,
            attributes,
            base_timestamp,
            max_timestamp,
            producer,
            epoch,
            sequence,
            records: Records::new(Vec::new(alloc)),
        },
        last_offset_delta,
        count,
    })
}

/// The batch or the first test that fails. All tests come before any memory for the records.
fn batch_of(alloc: Global, bytes: &Bytes, at: usize) -> Result<(Batch, usize), BatchFault>
    requires { at ≤ length bytes.now }
    ensures steps { Answers result (batch_at (drop at bytes.now)) }
    ensures memory { result ≡ Err BatchFault.OutOfMemory
        → (read : Batch × ℕ) × (batch_at (drop at bytes.now) ≡ Ok read) }
{
    let _size = bytes.len();
    let opened = open_batch(alloc, bytes, at)?;
    test_opened(bytes, at, &opened)?;
    let mut rest = Cursor::between(bytes, opened.begin, opened.end);
    let records = records_of(alloc, &mut rest, opened.count)?;
    let taken = opened.end - at;
    let mut batch = opened.batch;
    batch.records = records;
    Ok((batch, taken))
}

/// The record batch at `at`, and how many bytes it takes.
///
/// # Errors
/// The first test that fails. The tests stand in the order of `BatchFault`, and bytes that end before the batch does are
/// found after its length is. `OutOfMemory` comes only after all tests.
pub fn decode_batch(alloc: Global, bytes: &Bytes, at: usize) -> Result<(Batch, usize), BatchFault>
    requires { at ≤ length bytes.now }
    // The batch, or the first test that fails.
    ensures steps { Answers result (batch_at (drop at bytes.now)) }

    // Want of memory is answered only where a batch stands there.
    ensures memory { result ≡ Err BatchFault.OutOfMemory
        → (read : Batch × ℕ) × (batch_at (drop at bytes.now) ≡ Ok read) }

    // An `Ok` comes exactly where the bytes are a text of the batch, unless memory runs out.
    ensures text { IfOk result (λ read. HasTextAt bytes.now at read.0 read.1) }
    ensures whole { (b : Batch) (k : ℕ) → HasTextAt bytes.now at b k → Answers result (Ok (b, k)) }
{
    are_bytes(bytes.as_slice());
    batch_of(alloc, bytes, at)
}
