//! The value of an offset commit: the offset at which the group goes on.
//!
//! | Field | Type | Versions | Meaning |
//! |---|---|---|---|
//! | version | INT16 | all | 0 to 3 |
//! | offset | INT64 | all | the offset of the next record to read |
//! | leaderEpoch | INT32 | 3 | the leader epoch of the last record read, -1 for none (KIP-320) |
//! | metadata | STRING | all | a note of the client's; the length -1 is read as empty |
//! | commitTimestamp | INT64 | all | when the offset was committed |
//! | expireTimestamp | INT64 | 1 | when the commit expires (not written since KIP-211) |
//!
//! Numbers are big-endian. A STRING is an INT16, the number of its bytes, and the bytes. Only the offset counts here.
//! Source: Kafka's schema `OffsetCommitValue`.

ghost use Rattle.std.specs.Prelude.{◌≡◌, ◌↔◌, ◌++◌, ℤ, OnOk, IfOk, IfErr};
ghost use Rattle.eos_base.specs.Records.{Settles};
ghost use Rattle.eos_offsets.specs.Text.{IsValueText};
ghost use Rattle.eos_offsets.specs.Reading.{IsNotStatus, IsOfBytes, after_metadata, is_value_version, value_fields_of, read_value};
ghost use Rattle.eos_offsets.specs.steps.Reading.{Passes};
ghost use Rattle.eos_offsets.specs.Writing.{leader_epoch_text, expire_timestamp_text, value_bytes, write_value};

use bytes::{BufMut, Bytes, BytesMut};
use eos_base::RecordFault;
use eos_wire::{Fields, are_bytes};
use std::alloc::{AllocError, Global};

/// The last version that is read and written.
const LAST_VERSION: i16 = 3;

/// The version with a leader epoch.
pub(crate) const LEADER_EPOCH_VERSION: i16 = 3;

/// The version with an expiry.
const EXPIRE_TIMESTAMP_VERSION: i16 = 1;

/// What is written where a commit has no leader epoch.
pub(crate) const NO_LEADER_EPOCH: i32 = -1;

/// The length of empty metadata.
const NO_METADATA: i16 = 0;

/// What is written for a time.
const NO_TIMESTAMP: i64 = 0;

/// What a group commits: up to where it has read a partition.
#[derive(Clone, Drop)]
pub struct Commit {
    pub group: Bytes,
    pub topic: Bytes,
    pub partition: i32,
    pub offset: i64,
}

fn is_known(version: i16) -> bool
    ensures { result ≡ is_value_version version }
{
    0 <= version && version <= LAST_VERSION
}

/// Goes past the metadata.
#[tactic(auto, unfolding(crate::specs::Reading::after_metadata))]
fn skip_metadata(fields: &mut Fields<'_>) -> Result<(), RecordFault>
    ensures reading { Passes result fields.new (after_metadata fields.old) }
    ensures faults { IfErr result IsOfBytes }
{
    let Some(len) = fields.i16() else {
        return Err(RecordFault::Short);
    };
    if len == -1 {
        return Ok(());
    }
    if len < 0 {
        return Err(RecordFault::Length);
    }
    match fields.take(len as usize) {
        Some(_) => Ok(()),
        None => Err(RecordFault::Short),
    }
}

/// Reads the fields after the version, which are all that is left.
#[tactic(auto, unfolding(crate::specs::Reading::value_fields_of))]
fn read_fields(mut fields: Fields<'_>, version: i16) -> Result<i64, RecordFault>
    ensures reading { result ≡ value_fields_of version fields.entry }
    ensures faults { IfErr result IsOfBytes }
{
    let Some(offset) = fields.i64() else {
        return Err(RecordFault::Short);
    };
    if version == LEADER_EPOCH_VERSION && fields.i32().is_none() {
        return Err(RecordFault::Short);
    }
    skip_metadata(&mut fields)?;
    if fields.i64().is_none() {
        return Err(RecordFault::Short);
    }
    if version == EXPIRE_TIMESTAMP_VERSION && fields.i64().is_none() {
        return Err(RecordFault::Short);
    }
    if fields.left() > 0 {
        return Err(RecordFault::Trailing);
    }
    Ok(offset)
}

#[tactic(auto, unfolding(crate::specs::Reading::read_value))]
pub(crate) fn read_value(mut fields: Fields<'_>) -> Result<i64, RecordFault>
    ensures reading { result ≡ read_value fields.entry }
    ensures faults { IfErr result IsOfBytes }
{
    let Some(version) = fields.i16() else {
        return Err(RecordFault::Short);
    };
    if !is_known(version) {
        return Err(RecordFault::Version);
    }
    read_fields(fields, version)
}

/// The offset that a value commits. It takes no memory.
///
/// # Errors
/// The first fault in field order: Short where the bytes run out, Version where it isn't 0 to 3, Length where the
/// metadata's length is below -1, Trailing where bytes are left.
pub fn decode_value(bytes: &Bytes) -> Result<i64, RecordFault>
    ensures answer { result ≡ read_value bytes.now }
    ensures texts { (offset : ℤ) → (result ≡ Ok offset) ↔ IsValueText bytes.now offset }
    ensures faults { IfErr result IsOfBytes }
{
    are_bytes(bytes.as_slice());
    read_value(Fields::new(bytes.as_slice()))
}

/// Writes the leader epoch of a version that has one: none.
#[tactic(auto, unfolding(eos_wire::specs::Numbers::i32_text))]
fn put_leader_epoch(out: &mut BytesMut, version: i16) -> Result<(), AllocError>
    ensures { OnOk result (out.new.items ≡ out.old.items ++ leader_epoch_text version) }
{
    if version == LEADER_EPOCH_VERSION {
        out.put_i32(NO_LEADER_EPOCH)?;
    }
    Ok(())
}

/// Writes the expiry of a version that has one.
#[tactic(auto, unfolding(eos_wire::specs::Numbers::i64_text))]
fn put_expire_timestamp(out: &mut BytesMut, version: i16) -> Result<(), AllocError>
    ensures { OnOk result (out.new.items ≡ out.old.items ++ expire_timestamp_text version) }
{
    if version == EXPIRE_TIMESTAMP_VERSION {
        out.put_i64(NO_TIMESTAMP)?;
    }
    Ok(())
}

/// Writes a value, field after field.
#[tactic(auto, unfolding(crate::specs::Writing::value_bytes, eos_wire::specs::Numbers::i16_text, eos_wire::specs::Numbers::i64_text))]
fn write_value(alloc: Global, offset: i64, version: i16) -> Result<Bytes, AllocError>
    ensures { IfOk result (λ bytes. bytes ≡ value_bytes offset version) }
{
    let mut out = BytesMut::new(alloc);
    out.put_i16(version)?;
    out.put_i64(offset)?;
    put_leader_epoch(&mut out, version)?;
    out.put_i16(NO_METADATA)?;
    out.put_i64(NO_TIMESTAMP)?;
    put_expire_timestamp(&mut out, version)?;
    Ok(out.freeze()?)
}

/// The bytes of a value in this version, with leader epoch -1, empty metadata and timestamps of 0.
///
/// # Errors
/// Version where it isn't 0 to 3. OutOfMemory comes only after it.
pub fn encode_value(alloc: Global, commit: &Commit, version: i16) -> Result<Bytes, RecordFault>
    ensures answer { Settles result (write_value commit.now version) }
    ensures text { IfOk result (λ bytes. IsValueText bytes commit.now.offset) }
    ensures reads_back { IfOk result (λ bytes. read_value bytes ≡ Ok commit.now.offset) }
    ensures faults { IfErr result IsNotStatus }
{
    if !is_known(version) {
        return Err(RecordFault::Version);
    }
    Ok(write_value(alloc, commit.offset, version)?)
}
