//! One batch after the other, of whose data records is kept what is wanted.

ghost use Rattle.std.specs.Prelude.{◌≡◌, ◌≢◌, ◌≤◌, ◌<◌, ◌+◌, ◌++◌, ◌^◌, List, length, drop, Ok, Err, IfOk, IfErr, OnOk};
ghost use Rattle.eos_batch.specs.Answers.{Fails};
ghost use Rattle.eos_batch.specs.Reading.{batch_at};
ghost use Rattle.eos_batch.specs.Places.{records_in};
ghost use Rattle.eos_reading.specs.Runs.{IsRun};
ghost use Rattle.eos_reading.specs.steps.Keeping.{Keeps, Grows, IsKept};

use crate::head::{control_head, head_with};
use crate::kept_list::KeptList;
use crate::placed::Placed;
use crate::reading::Reading;
use bytes::Bytes;
use eos_batch::{BatchFault, BatchHead, lend_record, open_batch, test_data};
use eos_wire::are_bytes;
use std::alloc::{AllocError, Global};

/// Where the records of a batch stand: from `begin` to `end`, so many, and the first has this offset.
#[derive(Clone, Copy)]
struct Span {
    offset: u64,
    begin: usize,
    end: usize,
    count: u32,
}

/// Keeps of each record what is wanted.
fn keep_records<K: Reading>(
    alloc: Global,
    reading: &K,
    bytes: &Bytes,
    kept: &mut K::Kept,
    span: Span,
) -> Result<(), BatchFault>
    requires inside { (span.begin ≤ span.end) × (span.end ≤ length bytes.now) }
    requires fits { span.offset + span.count ≤ 2 ^ 63 }
    ensures ok { OnOk result (Keeps (K.kept reading.now) span.offset (K.Kept.list kept.old) (K.Kept.list kept.new) (records_in bytes.now span.begin span.end span.count)) }
    ensures grown { Grows (K.Kept.list kept.old) (K.Kept.list kept.new) }
    ensures err { IfErr result (λ e. Fails e (records_in bytes.now span.begin span.end span.count)) }
{
    let mut from = span.begin;
    for place in 0..span.count {
        let (lent, next) = lend_record(bytes, from, span.end, place)?;
        let record = Placed::new(lent);
        reading.keep(alloc, kept, span.offset + u64::from(place), record)?;
        from = next;
    }
    if from != span.end {
        return Err(BatchFault::Trailing);
    }
    Ok(())
}

/// Reads the batch at `at`. On an error nothing more is kept.
fn keep_batch<K: Reading>(
    alloc: Global,
    reading: &K,
    bytes: &Bytes,
    kept: &mut K::Kept,
    at: usize,
) -> Result<BatchHead, BatchFault>
    requires { at ≤ length bytes.now }
    ensures ok { IfOk result (IsKept (K.kept reading.now) bytes.now at (K.Kept.list kept.old) (K.Kept.list kept.new)) }
    ensures err { IfErr result (λ e. Fails e (batch_at (drop at bytes.now)) × (K.Kept.list kept.new ≡ K.Kept.list kept.old)) }
{
    let opened = open_batch(alloc, bytes, at)?;
    if opened.batch.is_control() {
        return control_head(alloc, bytes, at, &opened);
    }
    let before = kept.len();
    let span = Span {
        offset: opened.batch.base_offset.unsigned_abs(),
        begin: opened.begin,
        end: opened.end,
        count: opened.count,
    };
    if let Err(fault) = keep_records(alloc, reading, bytes, kept, span) {
        kept.truncate(before);
        return Err(fault);
    }
    if let Err(fault) = test_data(&opened.batch) {
        kept.truncate(before);
        return Err(fault);
    }
    Ok(head_with(&opened.batch, opened.count, opened.end - at, None))
}

/// Reads the batches of a buffer to the first byte where none stands: puts the head of each at the end of `heads`, and what
/// is wanted of each data record at the end of `kept`. The answer is that byte, and why no batch stands there: `Truncated`
/// where the bytes end.
///
/// # Errors
/// Only want of memory.
pub fn keep_batches<K: Reading>(
    alloc: Global,
    reading: &K,
    bytes: &Bytes,
    heads: &mut Vec<BatchHead>,
    kept: &mut K::Kept,
) -> Result<(usize, BatchFault), AllocError>
    ensures { IfOk result (λ end. IsRun (K.kept reading.now) bytes.now heads.old.items heads.new.items (K.Kept.list kept.old) (K.Kept.list kept.new) end.0 end.1) }
{
    are_bytes(bytes.as_slice());
    let mut at = 0;
    while at < bytes.len() {
        match keep_batch(alloc, reading, bytes, kept, at) {
            Ok(head) => {
                heads.push(head)?;
                at += head.size;
            }
            Err(BatchFault::OutOfMemory) => return Err(AllocError),
            Err(fault) => return Ok((at, fault)),
        }
    }
    Ok((at, BatchFault::Truncated))
}
