//! A batch but for its records: what a walk over a log reads of it first, and where its records stand.

ghost use Rattle.std.specs.Prelude.{◌≡◌, ◌≤◌, ℕ, pos, List, [], ◌∷◌, length, drop, true, false, not, int_lt, int_le, if◌then◌else◌, Ok, Err, IfOk, IfErr, MatchResult};
ghost use Rattle.eos_batch.specs.declared.record.Record.{Record};
ghost use Rattle.eos_batch.specs.Attributes.{is_control};
ghost use Rattle.eos_batch.specs.Places.{IsOpened, finished};
ghost use Rattle.eos_batch.specs.Answers.{Fails};
ghost use Rattle.eos_batch.specs.Real.{IsReal};
ghost use Rattle.eos_batch.specs.steps.Reading.{Passes};
ghost use Rattle.eos_batch.specs.Reading.{with_records, batch_at};

use crate::batch::Batch;
use crate::decode::{FRAME, frame_of, head_of, sealed_of};
use crate::fault::BatchFault;
use crate::passing::pass_records;
use crate::rules::{has_right_producer, is_control_content, is_end};
use crate::view::{RecordRef, view_record};
use bytes::Bytes;
use eos_wire::{Cursor, are_bytes};
use std::alloc::Global;

/// A batch whose records are not read.
#[derive(Drop)]
pub struct Opened {
    /// It has no records.
    pub batch: Batch,
    /// So many records follow.
    pub count: u32,
    /// The byte of the first record's length.
    pub begin: usize,
    /// The byte after the batch.
    pub end: usize,
}

/// The batch at `at` but for its records. The rest of its tests are those of the records, and then `test_data` where it is
/// no control batch.
///
/// # Errors
/// The first test that fails before the records. It takes no memory.
#[tactic(auto, unfolding(crate::specs::Reading::batch_at, crate::specs::Reading::covered_at))]
pub fn open_batch(alloc: Global, bytes: &Bytes, at: usize) -> Result<Opened, BatchFault>
    requires { at ≤ length bytes.now }
    ensures opened { IfOk result (IsOpened bytes.now at) }
    ensures fault { IfErr result (λ e. Fails e (batch_at (drop at bytes.now))) }
    ensures real { IfErr result IsReal }
{
    are_bytes(bytes.as_slice());
    let _size = bytes.len();
    let mut rest = Cursor::starting_at(bytes, at);
    let (base_offset, mut body) = frame_of(&mut rest)?;
    let end = at + (FRAME + body.left());
    let leader_epoch = sealed_of(&mut body)?;
    let head = head_of(alloc, &mut body, base_offset, leader_epoch)?;
    if head.is_compressed() {
        return Err(BatchFault::Compressed);
    }
    if !head.count_fits() {
        return Err(BatchFault::Count);
    }
    if !head.offsets_fit() {
        return Err(BatchFault::Count);
    }
    let begin = end - body.left();
    Ok(Opened {
        batch: head.batch,
        count: head.count.unsigned_abs(),
        begin,
        end,
    })
}

/// The tests of a data batch after its records, which read none of them.
pub fn test_data(batch: &Batch) -> Result<(), BatchFault>
    requires { is_control batch.now.attributes ≡ false }
    ensures { MatchResult result (λ _. (rs : List Record) (size : ℕ) → finished batch.now size rs ≡ Ok (with_records batch.now rs, size))
        (λ e. (rs : List Record) (size : ℕ) → finished batch.now size rs ≡ Err e) }
{
    if !has_right_producer(batch) {
        return Err(BatchFault::Producer);
    }
    Ok(())
}

/// What is asked of a producer, where the batch is an end marker or not.
fn is_named(batch: &Batch, is_end: bool) -> bool
    ensures { result ≡ (if int_lt batch.now.producer (pos 0) then not is_end else int_le (pos 0) batch.now.epoch) }
{
    if batch.producer >= 0 {
        return batch.epoch >= 0;
    }
    !is_end
}

/// The tests of a control batch after its one record.
fn test_control(batch: &Batch, only: &RecordRef) -> Result<(), BatchFault>
    requires { is_control batch.now.attributes ≡ true }
    ensures { MatchResult result
        (λ _. (size : ℕ) → finished batch.now size (only.now ∷ []) ≡ Ok (with_records batch.now (only.now ∷ []), size))
        (λ e. (size : ℕ) → finished batch.now size (only.now ∷ []) ≡ Err e) }
{
    let key = only.key();
    let value = only.value();
    if !is_control_content(key, value) {
        return Err(BatchFault::Control);
    }
    let is_end = is_end(key, value);
    if !is_named(batch, is_end) {
        return Err(BatchFault::Producer);
    }
    Ok(())
}

/// The tests of an opened batch that are left: those of its records, and those after them. They take no memory.
pub(crate) fn test_opened(bytes: &Bytes, at: usize, opened: &Opened) -> Result<(), BatchFault>
    requires { IsOpened bytes.now at opened.now }
    ensures passes { Passes result (batch_at (drop at bytes.now)) }
    ensures real { IfErr result IsReal }
{
    are_bytes(bytes.as_slice());
    pass_records(bytes, opened.begin, opened.end, opened.count)?;
    if !opened.batch.is_control() {
        test_data(&opened.batch)?;
        return Ok(());
    }
    if opened.count != 1 {
        return Err(BatchFault::Control);
    }
    let only = view_record(bytes, opened.begin);
    test_control(&opened.batch, &only)
}
