//! Reading the records of a batch, and their headers, in the order of the layout.
//!
//! | Field | Width | Meaning |
//! |---|---|---|
//! | length | varint | of the rest of the record |
//! | attributes | i8 | no bit means anything |
//! | timestampDelta | varlong | to the batch's base timestamp |
//! | offsetDelta | varint | to the batch's base offset: the record's place |
//! | keyLength, key | varint, bytes | -1: null |
//! | valueLength, value | varint, bytes | -1: null |
//! | header count, headers | varint, headers | |
//! | headerKeyLength, key | varint, bytes | of each header |
//! | headerValueLength, value | varint, bytes | of each header; -1: null |
//!
//! The source is "Record" and "Record Header" of the Message Format in Kafka's documentation. A length
//! is believed only where its bytes stand there, and nothing is reserved for a count.

ghost use Rattle.std.specs.Prelude.{◌≡◌, IfOk};
ghost use Rattle.eos_batch.specs.steps.Answers.{Gives};
ghost use Rattle.eos_batch.specs.steps.Places.{whole_from};
ghost use Rattle.eos_batch.specs.steps.Reading.{PushesFrom};
ghost use Rattle.eos_batch.specs.Answers.{Answers};
ghost use Rattle.eos_batch.specs.Reading.{header_at, headers_at, record_at, records_at};

use crate::fault::BatchFault;
use crate::field::{read_bytes, read_optional};
use crate::record::{Header, Headers, Record, Records};
use crate::view::{Parts, parts_of};
use bytes::Bytes;
use eos_wire::Cursor;
use std::alloc::{AllocError, Global};

/// Owns these bytes too, if there are any.
#[inline(always)]
pub(crate) fn shared(bytes: Option<Cursor>) -> Result<Option<Bytes>, AllocError>
    ensures { IfOk result (λ owned. owned ≡ bytes.entry) }
{
    match bytes {
        Some(bytes) => Ok(Some(bytes.share()?)),
        None => Ok(None),
    }
}

#[tactic(auto, unfolding(crate::specs::Reading::header_at))]
fn header_of(rest: &mut Cursor) -> Result<Header, BatchFault>
    ensures { Gives result rest.new (header_at rest.old) }
{
    let key = read_bytes(rest)?;
    let value = read_optional(rest)?;
    Ok(Header {
        key: key.share()?,
        value: shared(value)?,
    })
}

#[inline(always)]
pub(crate) fn headers_of(
    alloc: Global,
    rest: &mut Cursor,
    count: u32,
) -> Result<Headers, BatchFault>
    ensures { Gives result rest.new (headers_at count rest.old) }
{
    let mut headers = Vec::new(alloc);
    for _ in 0..count {
        let header = header_of(rest)?;
        headers.push(header)?;
    }
    Ok(Headers::new(headers))
}

/// The record of these fields, whose headers take all bytes that are left.
#[inline(always)]
fn own_parts(alloc: Global, parts: Parts) -> Result<Record, BatchFault>
    ensures { Answers result (whole_from parts.entry) }
{
    let Parts {
        attributes,
        timestamp_delta,
        key,
        value,
        count,
        mut rest,
        ..
    } = parts;
    let headers = headers_of(alloc, &mut rest, count)?;
    if !rest.is_empty() {
        return Err(BatchFault::Record);
    }
    Ok(Record {
        attributes,
        timestamp_delta,
        key: shared(key)?,
        value: shared(value)?,
        headers,
    })
}

/// Reads the record at this place of its batch into the list.
#[inline(always)]
#[tactic(auto, unfolding(crate::specs::Reading::record_at))]
fn push_record(
    alloc: Global,
    records: &mut Vec<Record>,
    rest: &mut Cursor,
    place: u32,
) -> Result<(), BatchFault>
    ensures { PushesFrom result records.old.items records.new.items rest.new (record_at place rest.old) }
{
    let text = read_bytes(rest)?;
    let parts = parts_of(text)?;
    let delta = parts.delta;
    let record = own_parts(alloc, parts)?;
    if i64::from(delta) != i64::from(place) {
        return Err(BatchFault::Delta);
    }
    records.push(record)?;
    Ok(())
}

/// So many records from the batch's first on.
pub(crate) fn records_of(
    alloc: Global,
    rest: &mut Cursor,
    count: u32,
) -> Result<Records, BatchFault>
    ensures { Gives result rest.new (records_at count 0 rest.old) }
{
    let mut records = Vec::new(alloc);
    for place in 0..count {
        push_record(alloc, &mut records, rest, place)?;
    }
    Ok(Records::new(records))
}
