//! The keys, values and headers of a cluster's records.

ghost use Rattle.std.specs.Prelude.{◌≡◌, ◌++◌, ◌∷◌, [], ◌+◌, List, length, ◌≤◌, ◌<◌, ◌^◌, Ok, IfOk, OnOk, pos};
ghost use Rattle.eos_wire.specs.Numbers.{i32_text, i64_text, i16_text};
ghost use Rattle.eos_txnlog.specs.Reading.{read_value};
ghost use Rattle.eos_txnlog.specs.Writing as txnlog;
ghost use Rattle.eos_offsets.specs.Writing as offsets;
ghost use Rattle.eos_machine.specs.LogIndexes.{IsConfig, log_count, final_topic, input_topic, output_topic};
ghost use Rattle.eos_machine.specs.Rest.{status_of, by_topic, value_of, with_number};
ghost use Rattle.eos_txnlog.specs.declared.partitions.TopicPartitions.{TopicPartitions};
ghost use Rattle.eos_log_writer.specs.steps.Grouping.{starts_with};
ghost use Rattle.std.specs.Int.{w64, cast_signed};
ghost use Rattle.std.specs.List.{All};
ghost use Rattle.eos_base.specs.declared.record_fault.RecordFault.{RecordFault};
ghost use Rattle.eos_machine.specs.Fitting.{AreAllThere};
ghost use Rattle.eos_machine.specs.Batches.{group, second_group, transactional_id, bytes_of, header, claim_headers, headers_of, source_key, commit_of, commit_value, control_type};

use crate::log_names::{number_of, topic_of};
use crate::writer::{as_i16, as_i32, as_i64, producer_id};
use bytes::Bytes;
use eos_base::{Listed, RecordFault};
use eos_batch::{Header, Kind};
use eos_machine::{Claim, Config, Entry, Status};
use eos_offsets::{Commit, OffsetKey};
use eos_txnlog::{Partitions, TopicPartitions, TxnValue};
use eos_wire::{write_i16, write_i32, write_i64};
use std::alloc::{AllocError, Global};

/// The timeout of every transaction, in milliseconds.
const TIMEOUT: i32 = 60000;

/// The version of a transaction's value.
const TXN_VALUE_VERSION: i16 = 1;

/// The version of a commit's value.
const COMMIT_VALUE_VERSION: i16 = 3;

/// The group that reads `in`.
fn group() -> Bytes
    ensures { result ≡ group }
{
    Bytes::from_static(b"g".as_slice())
}

/// The group that reads `out`.
fn second_group() -> Bytes
    ensures { result ≡ second_group }
{
    Bytes::from_static(b"h".as_slice())
}

pub(crate) fn final_topic() -> Bytes
    ensures { result ≡ final_topic }
{
    Bytes::from_static(b"fin".as_slice())
}

pub(crate) fn input_topic() -> Bytes
    ensures { result ≡ input_topic }
{
    Bytes::from_static(b"in".as_slice())
}

pub(crate) fn output_topic() -> Bytes
    ensures { result ≡ output_topic }
{
    Bytes::from_static(b"out".as_slice())
}

pub(crate) fn i32_bytes(alloc: Global, number: i32) -> Result<Bytes, AllocError>
    ensures { IfOk result (λ b. b ≡ i32_text number) }
{
    let mut out = Vec::new(alloc);
    write_i32(&mut out, number)?;
    Ok(Bytes::from_vec(out)?)
}

pub(crate) fn i64_bytes(alloc: Global, number: i64) -> Result<Bytes, AllocError>
    ensures { IfOk result (λ b. b ≡ i64_text number) }
{
    let mut out = Vec::new(alloc);
    write_i64(&mut out, number)?;
    Ok(Bytes::from_vec(out)?)
}

/// Want of memory, the one refusal that writing has here.
fn of_memory(_fault: RecordFault) -> AllocError
    requires { _fault ≡ RecordFault.OutOfMemory }
{
    AllocError
}

/// The transactional id of an application.
fn transactional_id(alloc: Global, application: usize) -> Result<Bytes, AllocError>
    requires { application ≤ 8 }
    ensures { IfOk result (λ b. b ≡ transactional_id application) }
{
    let mut id = Vec::from_slice(alloc, b"app-".as_slice())?;
    id.push(48 + application as u8)?;
    Ok(Bytes::from_vec(id)?)
}

/// The key of an application's transaction records.
pub(crate) fn transaction_key(alloc: Global, application: usize) -> Result<Bytes, AllocError>
    requires { application ≤ 8 }
    ensures { IfOk result (λ b. b ≡ bytes_of (txnlog.write_key (transactional_id application))) }
{
    let id = transactional_id(alloc, application)?;
    match eos_txnlog::encode_key(alloc, &id) {
        Ok(key) => Ok(key),
        Err(fault) => Err(of_memory(fault)),
    }
}

/// The status under which a state is written.
fn txn_status(status: Status) -> eos_txnlog::Status
    ensures { result ≡ status_of status }
{
    match status {
        Status::Empty => eos_txnlog::Status::Empty,
        Status::Ongoing => eos_txnlog::Status::Ongoing,
        Status::Prepare(Kind::Commit) => eos_txnlog::Status::PrepareCommit,
        Status::Prepare(Kind::Abort) => eos_txnlog::Status::PrepareAbort,
        Status::Complete(Kind::Commit) => eos_txnlog::Status::CompleteCommit,
        Status::Complete(Kind::Abort) => eos_txnlog::Status::CompleteAbort,
    }
}

/// A topic with one partition.
fn one_number(alloc: Global, topic: Bytes, number: i32) -> Result<TopicPartitions, AllocError>
    ensures { IfOk result (λ t. t ≡ record { topic = topic; numbers = number ∷ [] }) }
{
    let mut numbers = Vec::new(alloc);
    numbers.push(number)?;
    Ok(TopicPartitions {
        topic,
        numbers: Listed::new(numbers),
    })
}

/// Whether the first topic of a list is this one.
fn starts_with(groups: &[TopicPartitions], topic: &Bytes) -> bool
    ensures { result ≡ starts_with topic.now groups.now }
{
    match groups {
        [] => false,
        [first, ..] => *topic == first.topic,
    }
}

/// Puts a number in front of those of the first topic.
fn join_first(groups: &mut Vec<TopicPartitions>, number: i32) -> Result<(), AllocError>
    requires { 1 ≤ length groups.old.items }
    ensures { OnOk result ((g : TopicPartitions) (gs : List TopicPartitions) → groups.old.items ≡ g ∷ gs → groups.new.items ≡ record { topic = g.topic; numbers = number ∷ g.numbers } ∷ gs) }
{
    let first = &mut groups[0];
    first.numbers.insert(0, number)?;
    Ok(())
}

/// Puts a partition in front of a list by topic.
#[tactic(auto, using(crate::proofs::Grouping::joined, crate::proofs::Grouping::separate))]
fn put_in_front(
    alloc: Global,
    groups: &mut Vec<TopicPartitions>,
    topic: Bytes,
    number: usize,
) -> Result<(), AllocError>
    requires { number < 2 ^ 31 }
    ensures { OnOk result (groups.new.items ≡ with_number topic number groups.old.items) }
{
    let signed = as_i32(number);
    if starts_with(groups.as_slice(), &topic) {
        return join_first(groups, signed);
    }
    let one = one_number(alloc, topic, signed)?;
    groups.insert(0, one)?;
    Ok(())
}

/// The partitions at these places, by topic.
fn by_topic(alloc: Global, config: Config, places: &[usize]) -> Result<Partitions, AllocError>
    requires config { IsConfig config }
    requires places { All (λ p. p < log_count config) places.now }
    ensures { IfOk result (λ p. p ≡ by_topic config places.now) }
{
    let mut groups = Vec::new(alloc);
    for i in (0..places.len()).rev() {
        let place = places[i];
        put_in_front(
            alloc,
            &mut groups,
            topic_of(config, place),
            number_of(config, place),
        )?;
    }
    Ok(Listed::new(groups))
}

/// What a transaction record says.
fn txn_value(
    alloc: Global,
    config: Config,
    application: usize,
    entry: &Entry,
    event: u64,
) -> Result<TxnValue, AllocError>
    requires config { IsConfig config }
    requires application { application ≤ 8 }
    requires epoch { entry.now.epoch < 2 ^ 15 }
    requires partitions { AreAllThere config entry.now.partitions }
    requires event { event < 2 ^ 63 }
    ensures { IfOk result (λ v. v ≡ value_of config application entry.now event) }
{
    Ok(TxnValue {
        producer: producer_id(application),
        epoch: as_i16(entry.epoch),
        timeout: TIMEOUT,
        status: txn_status(entry.status),
        partitions: by_topic(alloc, config, entry.partitions.as_slice())?,
        last_update: as_i64(event),
        start: as_i64(event),
    })
}

/// The value of a transaction record.
pub(crate) fn transaction_value(
    alloc: Global,
    config: Config,
    application: usize,
    entry: &Entry,
    event: u64,
) -> Result<Bytes, AllocError>
    requires config { IsConfig config }
    requires application { application ≤ 8 }
    requires epoch { entry.now.epoch < 2 ^ 15 }
    requires partitions { AreAllThere config entry.now.partitions }
    requires event { event < 2 ^ 63 }
    ensures value { IfOk result (λ b. b ≡ bytes_of (txnlog.write_value (pos 1) (value_of config application entry.now event))) }
    ensures reads { OnOk result (read_value (bytes_of (txnlog.write_value (pos 1) (value_of config application entry.now event))) ≡ Ok (value_of config application entry.now event)) }
{
    let value = txn_value(alloc, config, application, entry, event)?;
    match eos_txnlog::encode_value(alloc, &value, TXN_VALUE_VERSION) {
        Ok(bytes) => Ok(bytes),
        Err(fault) => Err(of_memory(fault)),
    }
}

/// The key of a source: of a partition of `in`, or after them one of `out`, each of the group that reads it.
fn source_key(config: Config, source: usize) -> OffsetKey
    requires config { IsConfig config }
    requires source { source < config.inputs + config.outputs }
    ensures { result ≡ source_key config source }
{
    if source < config.inputs {
        OffsetKey {
            group: group(),
            topic: input_topic(),
            partition: as_i32(source),
        }
    } else {
        OffsetKey {
            group: second_group(),
            topic: output_topic(),
            partition: as_i32(source - config.inputs),
        }
    }
}

/// The key of a commit of a group's offset in its source.
pub(crate) fn commit_key(alloc: Global, config: Config, source: usize) -> Result<Bytes, AllocError>
    requires config { IsConfig config }
    requires source { source < config.inputs + config.outputs }
    ensures { IfOk result (λ b. b ≡ bytes_of (offsets.write_key (source_key config source))) }
{
    let key = source_key(config, source);
    match eos_offsets::encode_key(alloc, &key) {
        Ok(bytes) => Ok(bytes),
        Err(fault) => Err(of_memory(fault)),
    }
}

/// A commit of an offset, with the eight bytes that it has.
fn commit_of(config: Config, source: usize, offset: u64) -> Commit
    requires config { IsConfig config }
    requires source { source < config.inputs + config.outputs }
    ensures { result ≡ commit_of (source_key config source) (cast_signed w64 offset) }
{
    let OffsetKey {
        group,
        topic,
        partition,
    } = source_key(config, source);
    Commit {
        group,
        topic,
        partition,
        offset: offset.cast_signed(),
    }
}

/// The value of a commit of an offset. It has the offset's eight bytes, whichever sign they have as an i64.
fn offset_value(
    alloc: Global,
    config: Config,
    source: usize,
    offset: u64,
) -> Result<Bytes, AllocError>
    requires config { IsConfig config }
    requires source { source < config.inputs + config.outputs }
    ensures { IfOk result (λ b. b ≡ bytes_of (offsets.write_value (commit_of (source_key config source) (pos offset)) (pos 3))) }
{
    let commit = commit_of(config, source, offset);
    match eos_offsets::encode_value(alloc, &commit, COMMIT_VALUE_VERSION) {
        Ok(bytes) => Ok(bytes),
        Err(fault) => Err(of_memory(fault)),
    }
}

/// The value of a commit, where it has one: a commit that deletes the offset is a tombstone.
pub(crate) fn commit_value(
    alloc: Global,
    config: Config,
    source: usize,
    offset: Option<u64>,
) -> Result<Option<Bytes>, AllocError>
    requires config { IsConfig config }
    requires source { source < config.inputs + config.outputs }
    ensures { IfOk result (λ b. b ≡ commit_value (source_key config source) offset) }
{
    match offset {
        Some(offset) => Ok(Some(offset_value(alloc, config, source, offset)?)),
        None => Ok(None),
    }
}

fn header(key: &'static [u8], value: Bytes) -> Header
    ensures { result ≡ header key.now value }
{
    Header {
        key: Bytes::from_static(key),
        value: Some(value),
    }
}

/// The five lineage headers.
fn claim_headers(alloc: Global, claim: &Claim) -> Result<Vec<Header>, AllocError>
    ensures { IfOk result (λ h. h.items ≡ claim_headers claim.now) }
{
    let mut headers = Vec::new(alloc);
    headers.push(header(b"eo.topic".as_slice(), claim.topic.clone()?))?;
    headers.push(header(
        b"eo.partition".as_slice(),
        i32_bytes(alloc, claim.partition)?,
    ))?;
    headers.push(header(b"eo.offset".as_slice(), i64_bytes(alloc, claim.offset)?))?;
    headers.push(header(b"eo.output".as_slice(), i32_bytes(alloc, claim.output)?))?;
    headers.push(header(b"eo.of".as_slice(), i32_bytes(alloc, claim.of)?))?;
    Ok(headers)
}

/// The headers of an output record: a record without a claim has none.
pub(crate) fn headers_of(alloc: Global, claim: &Option<Claim>) -> Result<Vec<Header>, AllocError>
    ensures { IfOk result (λ h. h.items ≡ headers_of claim.now) }
{
    match claim {
        Some(claim) => claim_headers(alloc, claim),
        None => Ok(Vec::new(alloc)),
    }
}

/// The number of a kind of control record.
fn control_type(kind: Kind) -> i16
    ensures { result ≡ control_type kind }
{
    match kind {
        Kind::Abort => 0,
        Kind::Commit => 1,
    }
}

/// The key of an end marker.
pub(crate) fn marker_key(alloc: Global, kind: Kind) -> Result<Bytes, AllocError>
    ensures { IfOk result (λ b. b ≡ i16_text (pos 0) ++ i16_text (control_type kind)) }
{
    let mut out = Vec::new(alloc);
    write_i16(&mut out, 0)?;
    write_i16(&mut out, control_type(kind))?;
    Ok(Bytes::from_vec(out)?)
}

/// The value of an end marker.
pub(crate) fn marker_value(alloc: Global) -> Result<Bytes, AllocError>
    ensures { IfOk result (λ b. b ≡ i16_text (pos 0) ++ i32_text (pos 0)) }
{
    let mut out = Vec::new(alloc);
    write_i16(&mut out, 0)?;
    write_i32(&mut out, 0)?;
    Ok(Bytes::from_vec(out)?)
}
