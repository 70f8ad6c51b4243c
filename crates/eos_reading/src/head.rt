//! The head of a batch that was opened. An end marker is read where it stands, without memory.

ghost use Rattle.std.specs.Prelude.{◌≡◌, ◌≤◌, ◌∷◌, [], ℕ, pos, int_lt, int_le, length, drop, true, false, if◌then◌else◌, Ok, Some, IfOk, IfErr, IfSome, OnSome};
ghost use Rattle.eos_batch.specs.declared.batch.Batch.{Batch};
ghost use Rattle.eos_batch.specs.Answers.{Fails};
ghost use Rattle.eos_batch.specs.Attributes.{is_control};
ghost use Rattle.eos_batch.specs.Heads.{head_with, head_of};
ghost use Rattle.eos_batch.specs.Marker.{marker_of};
ghost use Rattle.eos_batch.specs.Places.{IsOpened, finished, records_in};
ghost use Rattle.eos_batch.specs.Reading.{batch_at, with_records};

use bytes::Bytes;
use eos_batch::{
    Batch, BatchFault, BatchHead, Marker, Opened, RecordRef, coordinator_epoch, decode_batch,
    end_kind, lend_record,
};
use std::alloc::Global;

/// A batch's head, with the number of its records and bytes and its end marker.
pub(crate) fn head_with(batch: &Batch, count: u32, size: usize, marker: Option<Marker>) -> BatchHead
    ensures { result ≡ head_with batch.now count size marker }
{
    BatchHead {
        offset: batch.base_offset.unsigned_abs(),
        count,
        size,
        producer: batch.producer,
        epoch: batch.epoch,
        sequence: batch.sequence,
        is_control: batch.is_control(),
        is_transactional: batch.is_transactional(),
        marker,
    }
}

/// Whether a batch names a producer and its epoch.
fn is_named(batch: &Batch) -> bool
    ensures { result ≡ (if int_lt batch.now.producer (pos 0) then false else int_le (pos 0) batch.now.epoch) }
{
    if batch.producer >= 0 {
        return batch.epoch >= 0;
    }
    false
}

/// What an opened control batch with this one record says, where it is an end marker that passes all tests.
fn end_marker(batch: &Batch, only: &RecordRef<'_>) -> Option<Marker>
    requires { is_control batch.now.attributes ≡ true }
    ensures tested { OnSome result ((size : ℕ) → finished batch.now size (only.now ∷ []) ≡ Ok (with_records batch.now (only.now ∷ []), size)) }
    ensures marker { IfSome result (λ marker. marker_of (with_records batch.now (only.now ∷ [])) ≡ Some marker) }
{
    if !is_named(batch) {
        return None;
    }
    let Some(kind) = end_kind(only.key()) else {
        return None;
    };
    let Some(coordinator_epoch) = coordinator_epoch(only.value()) else {
        return None;
    };
    Some(Marker {
        producer: batch.producer,
        epoch: batch.epoch,
        kind,
        coordinator_epoch,
    })
}

/// The record of an opened batch, lent, where it is the only one and takes all bytes.
fn only_record<'a>(bytes: &'a Bytes, opened: &Opened) -> Option<RecordRef<'a>>
    requires { (opened.now.begin ≤ opened.now.end) × (opened.now.end ≤ length bytes.now) }
    ensures { IfSome result (λ only. records_in bytes.now opened.now.begin opened.now.end opened.now.count ≡ Ok (only ∷ [])) }
{
    if opened.count != 1 {
        return None;
    }
    let Ok((only, next)) = lend_record(bytes, opened.begin, opened.end, 0) else {
        return None;
    };
    if next != opened.end {
        return None;
    }
    Some(only)
}

/// The head of the control batch that was opened at `at`, where it is an end marker that passes all tests.
fn marker_head(bytes: &Bytes, at: usize, opened: &Opened) -> Option<BatchHead>
    requires opened { IsOpened bytes.now at opened.now }
    requires control { is_control opened.now.batch.attributes ≡ true }
    ensures { IfSome result (λ h. (b : Batch) × (batch_at (drop at bytes.now) ≡ Ok (b, h.size)) × (h ≡ head_of b h.size)) }
{
    let Some(only) = only_record(bytes, opened) else {
        return None;
    };
    let Some(marker) = end_marker(&opened.batch, &only) else {
        return None;
    };
    Some(head_with(&opened.batch, 1, opened.end - at, Some(marker)))
}

/// The head of the batch at `at`, which is read whole.
fn decoded_head(alloc: Global, bytes: &Bytes, at: usize) -> Result<BatchHead, BatchFault>
    requires { at ≤ length bytes.now }
    ensures ok { IfOk result (λ h. (b : Batch) × (batch_at (drop at bytes.now) ≡ Ok (b, h.size)) × (h ≡ head_of b h.size)) }
    ensures err { IfErr result (λ e. Fails e (batch_at (drop at bytes.now))) }
{
    let (batch, size) = decode_batch(alloc, bytes, at)?;
    let count = batch.records.as_slice().len() as u32;
    Ok(head_with(&batch, count, size, batch.marker()))
}

/// The head of the control batch that was opened at `at`. What is no end marker, and what fails a test, is read whole.
///
/// # Errors
/// The first test that fails, and want of memory where it is no end marker.
pub(crate) fn control_head(
    alloc: Global,
    bytes: &Bytes,
    at: usize,
    opened: &Opened,
) -> Result<BatchHead, BatchFault>
    requires inside { at ≤ length bytes.now }
    requires opened { IsOpened bytes.now at opened.now }
    requires control { is_control opened.now.batch.attributes ≡ true }
    ensures ok { IfOk result (λ h. (b : Batch) × (batch_at (drop at bytes.now) ≡ Ok (b, h.size)) × (h ≡ head_of b h.size)) }
    ensures err { IfErr result (λ e. Fails e (batch_at (drop at bytes.now))) }
{
    match marker_head(bytes, at, opened) {
        Some(head) => Ok(head),
        None => decoded_head(alloc, bytes, at),
    }
}
