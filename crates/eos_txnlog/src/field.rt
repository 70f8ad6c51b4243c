//! What a value of the transaction log has of its own: a status, and the numbers of partitions.
//!
//! | Field | Width | Kafka's name |
//! |---|---|---|
//! | status | INT8, 0 to 7 | `TransactionStatus` |
//! | numbers | list, not null, of INT32 | `PartitionIds` |
//!
//! None of these takes memory. After a fault nothing is said of what is left.

ghost use Rattle.eos_base.specs.Records.{Parses, skipped};
ghost use Rattle.eos_wire.specs.Reading.{many_from};
ghost use Rattle.eos_txnlog.specs.Reading.{status_from, number_from, not_null_count_from, numbers_from};

use crate::status::Status;
use eos_base::RecordFault;
use eos_wire::{Cursor, Form, read_count};

#[tactic(auto, unfolding(crate::specs::Reading::status_from))]
pub(crate) fn read_status(rest: &mut Cursor<'_>) -> Result<Status, RecordFault>
    ensures { Parses result rest.new (status_from rest.old) }
{
    match rest.i8() {
        Some(number) => Status::from_number(number).ok_or(RecordFault::Status),
        None => Err(RecordFault::Short),
    }
}

/// The number of a partition.
pub(crate) fn read_number(rest: &mut Cursor<'_>) -> Result<i32, RecordFault>
    ensures { Parses result rest.new (number_from rest.old) }
{
    rest.i32().ok_or(RecordFault::Short)
}

/// The count of a topic's numbers, a list that may not be null.
#[tactic(auto, unfolding(crate::specs::Reading::not_null_count_from))]
pub(crate) fn read_numbers_count(rest: &mut Cursor<'_>, form: Form) -> Result<u32, RecordFault>
    ensures { Parses result rest.new (not_null_count_from form rest.old) }
{
    let count = read_count(rest, form)?;
    count.ok_or(RecordFault::Length)
}

fn skip_many_numbers(rest: &mut Cursor<'_>, count: u32) -> Result<(), RecordFault>
    ensures { Parses result rest.new (skipped (many_from number_from count rest.old)) }
{
    for _ in 0..count {
        read_number(rest)?;
    }
    Ok(())
}

/// Passes over the numbers of a topic's partitions.
#[tactic(auto, unfolding(crate::specs::Reading::numbers_from))]
pub(crate) fn skip_numbers(rest: &mut Cursor<'_>, form: Form) -> Result<(), RecordFault>
    ensures { Parses result rest.new (skipped (numbers_from form rest.old)) }
{
    let count = read_numbers_count(rest, form)?;
    skip_many_numbers(rest, count)
}
