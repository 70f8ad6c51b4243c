//! A value, read from its bytes.
//!
//! | Field | Width | Kafka's name |
//! |---|---|---|
//! | version | INT16 | 0 plain, 1 flexible |
//! | producer | INT64 | `ProducerId` |
//! | epoch | INT16 | `ProducerEpoch` |
//! | timeout | INT32 | `TransactionTimeoutMs` |
//! | status | INT8 | `TransactionStatus` |
//! | partitions | list, may be null | `TransactionPartitions`: each `Topic`, `PartitionIds` (INT32), section |
//! | last_update | INT64 | `TransactionLastUpdateTimestampMs` |
//! | start | INT64 | `TransactionStartTimestampMs` |
//! | section | tagged fields | skipped |
//!
//! The source is Kafka's schema `TransactionLogValue`. The partitions are walked twice: before
//! any memory is taken all bytes are looked at, and then the topics are collected. Texts are shared with the input, and
//! nothing is reserved by a count.

ghost use Rattle.std.specs.Prelude.{Ok, IfOk};
ghost use Rattle.eos_base.specs.Records.{Parses, Settles, skipped};
ghost use Rattle.eos_base.specs.steps.Records.{Gives};
ghost use Rattle.eos_txnlog.specs.declared.value.TxnValue.{TxnValue};
ghost use Rattle.eos_txnlog.specs.Text.{IsValueText};
ghost use Rattle.eos_wire.specs.Reading.{many_from};
ghost use Rattle.eos_txnlog.specs.Reading.{number_from, numbers_from, topic_from, partitions_from, body_from, whole_body, read_value};

use crate::field::{read_number, read_numbers_count, read_status, skip_numbers};
use crate::form::form_of;
use crate::partitions::{Numbers, Partitions, TopicPartitions};
use crate::value::TxnValue;
use bytes::Bytes;
use eos_base::{Listed, RecordFault};
use eos_wire::{Cursor, Form, are_bytes, read_count, read_text, skip_section};
use std::alloc::Global;

// ---- the partitions, without memory

#[tactic(auto, unfolding(crate::specs::Reading::topic_from))]
fn skip_topic(rest: &mut Cursor<'_>, form: Form) -> Result<(), RecordFault>
    ensures { Parses result rest.new (skipped (topic_from form rest.old)) }
{
    read_text(rest, form)?;
    skip_numbers(rest, form)?;
    skip_section(rest, form)
}

fn skip_topics(rest: &mut Cursor<'_>, form: Form, count: u32) -> Result<(), RecordFault>
    ensures { Parses result rest.new (skipped (many_from (topic_from form) count rest.old)) }
{
    for _ in 0..count {
        skip_topic(rest, form)?;
    }
    Ok(())
}

/// Passes over the partitions.
#[tactic(auto, unfolding(crate::specs::Reading::partitions_from))]
fn skip_partitions(rest: &mut Cursor<'_>, form: Form) -> Result<(), RecordFault>
    ensures { Parses result rest.new (skipped (partitions_from form rest.old)) }
{
    let count = read_count(rest, form)?.unwrap_or(0);
    skip_topics(rest, form, count)
}

// ---- the partitions, collected

/// So many numbers. Their list grows as they are read, so a count that the bytes don't bear out reserves nothing.
fn read_many_numbers(
    alloc: Global,
    rest: &mut Cursor<'_>,
    count: u32,
) -> Result<Numbers, RecordFault>
    ensures { Gives result rest.new (many_from number_from count rest.old) }
{
    let mut numbers = Listed::new(Vec::new(alloc));
    for _ in 0..count {
        let number = read_number(rest)?;
        numbers.push(number)?;
    }
    Ok(numbers)
}

#[tactic(auto, unfolding(crate::specs::Reading::numbers_from))]
fn read_numbers(alloc: Global, rest: &mut Cursor<'_>, form: Form) -> Result<Numbers, RecordFault>
    ensures { Gives result rest.new (numbers_from form rest.old) }
{
    let count = read_numbers_count(rest, form)?;
    read_many_numbers(alloc, rest, count)
}

#[tactic(auto, unfolding(crate::specs::Reading::topic_from))]
fn read_topic(
    alloc: Global,
    rest: &mut Cursor<'_>,
    form: Form,
) -> Result<TopicPartitions, RecordFault>
    ensures { Gives result rest.new (topic_from form rest.old) }
{
    let topic = read_text(rest, form)?.share()?;
    let numbers = read_numbers(alloc, rest, form)?;
    skip_section(rest, form)?;
    Ok(TopicPartitions { topic, numbers })
}

/// So many topics. Their list grows as they are read, so a count that the bytes don't bear out reserves nothing.
fn read_topics(
    alloc: Global,
    rest: &mut Cursor<'_>,
    form: Form,
    count: u32,
) -> Result<Partitions, RecordFault>
    ensures { Gives result rest.new (many_from (topic_from form) count rest.old) }
{
    let mut topics = Listed::new(Vec::new(alloc));
    for _ in 0..count {
        let topic = read_topic(alloc, rest, form)?;
        topics.push(topic)?;
    }
    Ok(topics)
}

/// The partitions by topic; null is an empty list.
#[tactic(auto, unfolding(crate::specs::Reading::partitions_from))]
fn read_partitions(
    alloc: Global,
    rest: &mut Cursor<'_>,
    form: Form,
) -> Result<Partitions, RecordFault>
    ensures { Gives result rest.new (partitions_from form rest.old) }
{
    let count = read_count(rest, form)?.unwrap_or(0);
    read_topics(alloc, rest, form, count)
}

// ---- values

/// The fields after the version, which are all that is left.
#[tactic(auto, unfolding(crate::specs::Reading::body_from))]
fn read_body(alloc: Global, mut rest: Cursor<'_>, form: Form) -> Result<TxnValue, RecordFault>
    ensures { Settles result (whole_body form rest.entry) }
{
    let (Some(producer), Some(epoch), Some(timeout)) = (rest.i64(), rest.i16(), rest.i32()) else {
        return Err(RecordFault::Short);
    };
    let status = read_status(&mut rest)?;
    let mut listed = rest.fork();
    skip_partitions(&mut rest, form)?;
    let (Some(last_update), Some(start)) = (rest.i64(), rest.i64()) else {
        return Err(RecordFault::Short);
    };
    skip_section(&mut rest, form)?;
    if !rest.is_empty() {
        return Err(RecordFault::Trailing);
    }
    let partitions = read_partitions(alloc, &mut listed, form)?;
    Ok(TxnValue {
        producer,
        epoch,
        timeout,
        status,
        partitions,
        last_update,
        start,
    })
}

#[tactic(auto, unfolding(crate::specs::Reading::read_value))]
fn read_value(alloc: Global, mut rest: Cursor<'_>) -> Result<TxnValue, RecordFault>
    ensures { Settles result (read_value rest.entry) }
{
    let Some(version) = rest.i16() else {
        return Err(RecordFault::Short);
    };
    let Some(form) = form_of(version) else {
        return Err(RecordFault::Version);
    };
    read_body(alloc, rest, form)
}

/// Reads a value of the log.
///
/// # Errors
/// The first fault in field order: Short where the bytes run out, Version where it isn't 0 or 1, Status where it isn't 0
/// to 7, Length where a length or count may not stand there, Trailing where bytes are left. OutOfMemory comes only after
/// all of these.
pub fn decode_value(alloc: Global, bytes: &Bytes) -> Result<TxnValue, RecordFault>
    ensures answer { Settles result (read_value bytes.now) }
    ensures text { IfOk result (IsValueText bytes.now) }
    ensures each_text { (value : TxnValue) → IsValueText bytes.now value → Settles result (Ok value) }
{
    are_bytes(bytes.as_slice());
    read_value(alloc, Cursor::new(bytes))
}
