//! Writing a record batch, field by field in the order of the layout, which stands at the head of the module that reads
//! it. All tests come first, and the size is counted before any memory is taken. Variable-length numbers are written in
//! their shortest spelling.

ghost use Rattle.std.specs.Prelude.{◌≡◌, ◌≤◌, ◌<◌, ◌^◌, ◌⊎◌, ◌++◌, ℕ, List, length, FitsSigned, IfOk, IfErr, OnOk};
ghost use Rattle.std.specs.Int.{w32, w64};
ghost use Rattle.eos_wire.specs.Crc.{crc32c_of};
ghost use Rattle.eos_wire.specs.Writing.{IsShortest};
ghost use Rattle.eos_batch.specs.Text.{IsBatchText};
ghost use Rattle.eos_batch.specs.Reading.{batch_at};
ghost use Rattle.eos_batch.specs.Answers.{IsWritten};
ghost use Rattle.eos_batch.specs.Encoding.{records_text, covered_text, text_with, batch_text_of, is_counted, is_short, tested, encoding_of, HasNoText};
ghost use Rattle.eos_batch.specs.steps.Writing.{HasCoveredWidths};

use crate::batch::Batch;
use crate::encode_record::write_records;
use crate::encode_size::records_size;
use crate::fault::BatchFault;
use crate::rules::{has_right_control, has_right_producer, is_compressed};
use bytes::Bytes;
use eos_wire::{crc32c, write_i8, write_i16, write_i32, write_i64, write_u32};
use std::alloc::{AllocError, Global};

/// The most bytes that a segment has, and so a batch.
const LIMIT: usize = 1 << 30;

/// The bytes of a batch before its records.
const HEADER: usize = 61;

/// Those before what the checksum covers.
const UNCOVERED: usize = 21;

/// Those of them that stand after the length, which counts them: the leader epoch, the magic and the checksum.
const AFTER_LENGTH: usize = 9;

const MAGIC: i8 = 2;

/// There is a record, the count fits its field, and every offset lies from 0 to the greatest i64.
fn is_counted(batch: &Batch) -> bool
    ensures { result ≡ is_counted batch.now }
{
    let count = batch.records.as_slice().len();
    if count == 0 || count > i32::MAX as usize || batch.base_offset < 0 {
        return false;
    }
    batch.base_offset - 1 <= i64::MAX - count as i64
}

/// The text takes no more bytes than a segment has.
fn is_short(batch: &Batch) -> bool
    ensures { result ≡ is_short batch.now }
{
    records_size(batch.records.as_slice()) <= LIMIT - HEADER
}

/// The tests, in the order of the refusals.
#[tactic(auto, unfolding(crate::specs::Encoding::tested))]
fn test(batch: &Batch) -> Result<(), BatchFault>
    ensures { result ≡ tested batch.now }
{
    if is_compressed(batch.attributes) {
        return Err(BatchFault::Compressed);
    }
    if !is_counted(batch) {
        return Err(BatchFault::Count);
    }
    if !has_right_control(batch) {
        return Err(BatchFault::Control);
    }
    if !has_right_producer(batch) {
        return Err(BatchFault::Producer);
    }
    if !is_short(batch) {
        return Err(BatchFault::Length);
    }
    Ok(())
}

/// What the checksum covers: from the attributes to the end.
fn write_covered(out: &mut Vec<u8>, batch: &Batch) -> Result<(), AllocError>
    requires some { 1 ≤ length batch.now.records }
    requires count { length batch.now.records < 2 ^ 31 }
    requires size { length (records_text 0 batch.now.records) ≤ 2 ^ 30 }
    ensures text { OnOk result (out.new.items ≡ out.old.items ++ covered_text batch.now) }
    ensures widths { OnOk result (HasCoveredWidths batch.now) }
{
    let records = batch.records.as_slice();
    write_i16(out, batch.attributes)?;
    write_i32(out, (records.len() - 1) as i32)?;
    write_i64(out, batch.base_timestamp)?;
    write_i64(out, batch.max_timestamp)?;
    write_i64(out, batch.producer)?;
    write_i16(out, batch.epoch)?;
    write_i32(out, batch.sequence)?;
    write_i32(out, records.len() as i32)?;
    write_records(out, records)
}

/// The whole batch, with its length and the checksum of what is covered.
#[tactic(auto, unfolding(crate::specs::Encoding::text_with))]
fn sealed(alloc: Global, batch: &Batch, covered: &[u8]) -> Result<Vec<u8>, AllocError>
    requires { length covered.now ≤ 2 ^ 30 }
    ensures text { IfOk result (λ v. v.items ≡ text_with batch.now covered.now) }
    ensures base_offset { OnOk result (FitsSigned w64 batch.now.base_offset) }
    ensures leader_epoch { OnOk result (FitsSigned w32 batch.now.leader_epoch) }
    ensures checksum { OnOk result (crc32c_of covered.now < 2 ^ 32) }
{
    let mut out = Vec::with_capacity(alloc, UNCOVERED + covered.len())?;
    write_i64(&mut out, batch.base_offset)?;
    write_i32(&mut out, (AFTER_LENGTH + covered.len()) as i32)?;
    write_i32(&mut out, batch.leader_epoch)?;
    write_i8(&mut out, MAGIC)?;
    write_u32(&mut out, crc32c(covered))?;
    out.extend_from_slice(covered)?;
    Ok(out)
}

/// The text of a batch that passes all tests.
fn write(alloc: Global, batch: &Batch) -> Result<Bytes, AllocError>
    requires { tested batch.now ≡ Ok tt }
    ensures value { IfOk result (λ text. text ≡ batch_text_of batch.now) }
    ensures text { IfOk result (λ text. IsBatchText text batch.now) }
{
    let mut covered = Vec::new(alloc);
    write_covered(&mut covered, batch)?;
    let text = sealed(alloc, batch, covered.as_slice())?;
    Ok(Bytes::from_vec(text)?)
}

/// The text of a batch, in the fewest bytes that such a text can have.
///
/// # Errors
/// The first test that the batch fails: Compressed, Count, Control, Producer, or Length where the text takes more than
/// 2^30 bytes. OutOfMemory comes only after all of these.
pub fn encode_batch(alloc: Global, batch: &Batch) -> Result<Bytes, BatchFault>
    ensures answer { IsWritten (encoding_of batch.now) result }
    ensures shortest { IfOk result (λ text. IsShortest IsBatchText text batch.now) }
    ensures reads_back { IfOk result (λ text. (rest : List ℕ) → batch_at (text ++ rest) ≡ Ok (batch.now, length text)) }
    ensures refused { IfErr result (λ fault. (fault ≡ BatchFault.OutOfMemory) ⊎ HasNoText batch.now) }
{
    test(batch)?;
    Ok(write(alloc, batch)?)
}
