//! When a record was written.

ghost use Rattle.std.specs.Prelude.{◌≡◌, ◌-◌, Some, slice_get};
ghost use Rattle.eos_sought.specs.Times.{record_time, time_of_one, time_in_batch};

use crate::partition::Placed;
use eos_batch::{Batch, Record};

/// Bit 3 of a batch's attributes: its time is the broker's.
const LOG_APPEND_TIME: i16 = 0x08;

fn record_time(batch: &Batch, one: &Record) -> i64
    ensures { result ≡ record_time batch.now one.now }
{
    if batch.attributes & LOG_APPEND_TIME != 0 {
        batch.max_timestamp
    } else {
        batch.base_timestamp.wrapping_add(one.timestamp_delta)
    }
}

/// The time of the record of this number in a batch, in milliseconds since 1970-01-01T00:00Z, as the batch says it; None where it
/// has no such record.
pub fn time_of_number(batch: &Batch, number: u64) -> Option<i64>
    ensures { result ≡ time_of_one batch.now (slice_get batch.now.records number) }
{
    let records = batch.records.as_slice();
    if number >= records.len() as u64 {
        return None;
    }
    Some(record_time(batch, &records[number as usize]))
}

/// The time of the record of this offset in the batch that stands there, in milliseconds since 1970-01-01T00:00Z, as the batch says
/// it: clocks lie.
pub fn time_of(batch: &Batch, placed: Placed, offset: u64) -> Option<i64>
    ensures { result ≡ time_in_batch (Some batch.now) (offset - placed.standing.head.offset) }
{
    time_of_number(batch, offset.saturating_sub(placed.standing.head.offset))
}
