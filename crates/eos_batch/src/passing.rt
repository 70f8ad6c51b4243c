//! Passing over the records of a batch without making them.

ghost use Rattle.std.specs.Prelude.{◌≡◌, ◌≤◌, ◌<◌, length, slice_range, IfOk, IfErr};
ghost use Rattle.eos_batch.specs.Answers.{Fails};
ghost use Rattle.eos_batch.specs.Real.{IsReal};
ghost use Rattle.eos_batch.specs.Reading.{headers_at, record_at};
ghost use Rattle.eos_batch.specs.Places.{IsAt, records_in};
ghost use Rattle.eos_batch.specs.steps.Reading.{Passes, PassesFrom};

use crate::fault::BatchFault;
use crate::view::{header_of, lend_record};
use bytes::Bytes;
use eos_wire::Cursor;

#[inline(always)]
pub(crate) fn pass_headers(rest: &mut Cursor, count: u32) -> Result<(), BatchFault>
    ensures passes { PassesFrom result rest.new (headers_at count rest.old) }
    ensures real { IfErr result IsReal }
{
    for _ in 0..count {
        let _header = header_of(rest)?;
    }
    Ok(())
}

/// Reads over the record at this place of its batch, whose length stands at `from`, and gives the byte after it. The
/// batch's bytes end at `end`.
///
/// # Errors
/// The first test of the record that fails. It takes no memory.
#[inline(always)]
pub fn pass_record(bytes: &Bytes, from: usize, end: usize, place: u32) -> Result<usize, BatchFault>
    requires inside { from ≤ end }
    requires end { end ≤ length bytes.now }
    ensures found { IfOk result (IsAt bytes.now place from end) }
    ensures fault { IfErr result (λ e. Fails e (record_at place (slice_range bytes.now from end))) }
    ensures real { IfErr result IsReal }
{
    let (_record, next) = lend_record(bytes, from, end, place)?;
    Ok(next)
}

/// Reads over the records of a batch, which take the bytes from `begin` to `end`.
///
/// # Errors
/// The first test of the records that fails, and Trailing where bytes are left after them. It takes no memory.
pub fn pass_records(bytes: &Bytes, begin: usize, end: usize, count: u32) -> Result<(), BatchFault>
    requires { (begin ≤ end) × (end ≤ length bytes.now) }
    ensures passes { Passes result (records_in bytes.now begin end count) }
    ensures real { IfErr result IsReal }
{
    let mut from = begin;
    for place in 0..count {
        from = pass_record(bytes, from, end, place)?;
    }
    if from != end {
        return Err(BatchFault::Trailing);
    }
    Ok(())
}
