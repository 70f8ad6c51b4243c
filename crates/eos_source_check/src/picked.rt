//! Batches at some bytes of a segment that is read for them: of the others nothing is held.

ghost use Rattle.std.specs.Prelude.{◌≡◌, ◌≤◌, ◌+◌, ℕ, List, length, map, Option, Some, Err, IfOk, OnOk, OnErr, [], slice_get};
ghost use Rattle.std.specs.Io.KnownBytes.{Consumes, IsAtEnd};
ghost use Rattle.eos_evidence.specs.Reading.{Takes, TakesAtMost};
ghost use Rattle.eos_source_check.specs.steps.Picking.{told_at, IsAhead, IsToldAt, IsPickedAt, ArePickedAt};

use bytes::Bytes;
use eos_batch::{Batch, BatchFault, next_batch};
use eos_evidence::{MAX_SEGMENT_BYTES, ReadFault};
use eos_fold::{ByteFold, read_folded};
use std::alloc::{AllocError, Global};
use std::io::Read;

/// What the bytes that were read so far tell.
#[derive(Drop)]
pub(crate) struct Picking {
    /// So many bytes were taken.
    passed: usize,
    /// Of each byte the batch there, once it is known: None in it where none reads.
    found: Vec<Option<Option<Batch>>>,
}

/// What is told of the batch at a byte of the segment by these bytes, which stand behind so many that were passed.
fn told_by(
    alloc: Global,
    passed: usize,
    buffer: &Bytes,
    byte: Option<usize>,
) -> Result<Option<Option<Batch>>, AllocError>
    ensures { IfOk result (IsToldAt passed buffer.now byte) }
{
    let Some(byte) = byte else {
        return Ok(Some(None));
    };
    let at = byte.saturating_sub(passed);
    if at >= buffer.len() {
        return Ok(None);
    }
    match next_batch(alloc, buffer, at)? {
        Ok((batch, _size)) => Ok(Some(Some(batch))),
        Err(BatchFault::Truncated) => Ok(None),
        Err(_) => Ok(Some(None)),
    }
}

/// How many of so many bytes, which stand behind others, stand before this byte.
fn before(passed: usize, size: usize, byte: Option<usize>) -> usize
    ensures within { result ≤ size }
    ensures ahead { IsAhead passed byte → IsAhead (passed + result) byte }
{
    match byte {
        None => size,
        Some(byte) => byte.saturating_sub(passed).min(size),
    }
}

/// Looks for one batch. The answer is how many of the bytes needn't be seen again for it.
fn pick_at(
    alloc: Global,
    passed: usize,
    buffer: &Bytes,
    byte: Option<usize>,
    told: &mut Option<Option<Batch>>,
) -> Result<usize, AllocError>
    ensures within { IfOk result (λ taken. taken ≤ length buffer.now) }
    ensures picked { IfOk result (IsPickedAt passed buffer.now byte told.old told.new) }
{
    if told.is_some() {
        return Ok(buffer.len());
    }
    *told = told_by(alloc, passed, buffer, byte)?;
    if told.is_some() {
        return Ok(buffer.len());
    }
    Ok(before(passed, buffer.len(), byte))
}

/// The byte of this number, if there is one.
pub(crate) fn byte_of(wanted: &[Option<usize>], number: usize) -> Option<usize>
    ensures { (byte : Option ℕ) → slice_get wanted.now number ≡ Some byte → result ≡ byte }
{
    if number < wanted.len() {
        wanted[number]
    } else {
        None
    }
}

/// Looks for each batch. The answer is how many of the bytes needn't be seen again.
fn pick(
    alloc: Global,
    wanted: &[Option<usize>],
    found: &mut Vec<Option<Option<Batch>>>,
    passed: usize,
    buffer: &Bytes,
) -> Result<usize, AllocError>
    ensures within { IfOk result (λ taken. taken ≤ length buffer.now) }
    ensures picked { IfOk result (ArePickedAt passed buffer.now wanted.now found.old.items found.new.items) }
{
    let mut taken = buffer.len();
    for i in 0..found.len() {
        let told = &mut found[i];
        let one = pick_at(alloc, passed, buffer, byte_of(wanted, i), told)?;
        taken = taken.min(one);
    }
    Ok(taken)
}

impl ByteFold for Picking {
    ghost use Rattle.eos_source_check.specs.steps.Picking.{IsPicking};

    type Told = Vec<Option<usize>>;

    ghost holds = { λ wanted w fed waiting. IsPicking wanted.items fed waiting w };

    fn take(
        &mut self,
        alloc: Global,
        told: &Vec<Option<usize>>,
        buffer: &Bytes,
    ) -> Result<usize, AllocError> {
        let taken = pick(alloc, told.as_slice(), &mut self.found, self.passed, buffer)?;
        let Some(passed) = self.passed.checked_add(taken) else {
            return Err(AllocError);
        };
        self.passed = passed;
        Ok(taken)
    }
}

/// What is known before any bytes are read.
fn none_read(
    alloc: Global,
    wanted: &[Option<usize>],
) -> Result<Vec<Option<Option<Batch>>>, AllocError>
    ensures { IfOk result (λ found. found.items ≡ map (told_at []) wanted.now) }
{
    let mut found = Vec::new(alloc);
    for byte in wanted {
        let told = match byte {
            None => Some(None),
            Some(_byte) => None,
        };
        found.push(told)?;
    }
    Ok(found)
}

/// The batches at these bytes of a segment, which is read to its end. No more of it is held than a chunk, or a batch where that is larger, and
/// these. At `Limit` one byte more than a segment may have was read, and the rest is unread.
pub(crate) fn pick_batches<R: Read>(
    alloc: Global,
    wanted: &Vec<Option<usize>>,
    reader: &mut R,
) -> Result<Vec<Option<Option<Batch>>>, ReadFault>
    ensures ok { IfOk result (λ found. (bytes : List ℕ) × Consumes (R.remaining reader.old) (R.remaining reader.new) bytes × (length bytes ≤ MAX_SEGMENT_BYTES)
        × (found.items ≡ map (told_at bytes) wanted.now.items)) }
    ensures end { OnOk result (IsAtEnd (R.remaining reader.new)) }
    ensures read { result ≡ Err ReadFault.Read → TakesAtMost MAX_SEGMENT_BYTES (R.remaining reader.old) (R.remaining reader.new) }
    ensures limit { result ≡ Err ReadFault.Limit → Takes (MAX_SEGMENT_BYTES + 1) (R.remaining reader.old) (R.remaining reader.new) }
    ensures refused { OnErr result (TakesAtMost (MAX_SEGMENT_BYTES + 1) (R.remaining reader.old) (R.remaining reader.new)) }
{
    let picking = Picking {
        passed: 0,
        found: none_read(alloc, wanted.as_slice())?,
    };
    let (picking, _waiting) = read_folded(alloc, wanted, picking, reader)?;
    Ok(picking.found)
}
