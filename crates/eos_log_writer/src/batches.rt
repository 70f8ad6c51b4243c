//! The batches of a cluster's logs, and their bytes.

ghost use Rattle.std.specs.Prelude.{◌≡◌, ◌<◌, ◌≤◌, ◌+◌, ◌-◌, ◌-ℤ◌, ◌^◌, ◌∷◌, pos, None, Some, length, map, slice_index_or, IfOk, OnOk};
ghost use Rattle.eos_machine.specs.LogIndexes.{IsConfig};
ghost use Rattle.eos_batch.specs.Encoding.{batch_text_of};
ghost use Rattle.eos_batch.specs.declared.fault.BatchFault.{BatchFault};
ghost use Rattle.std.specs.List.{All};
ghost use Rattle.eos_machine.specs.Fitting.{AreAllThere, IsFit};
ghost use Rattle.eos_machine.specs.steps.Joined.{AreJoined};
ghost use Rattle.eos_log_writer.specs.steps.Writers.{HasWriter, based};
ghost use Rattle.eos_machine.specs.Batches.{record_of, fed_record, state_record, output_record, offset_record, marker_record, event_of, item_writer, item_record, record_after, last_or, batches_from, led, texts_of, AreTexts};
ghost use Rattle.eos_batch.specs.Text.{IsBatchText};

use crate::joining::joining;
use crate::leaders::{Base, Leaders, base_at};
use crate::values;
use crate::writer::{self, as_i64, sequence_as_i32};
use bytes::Bytes;
use eos_base::Listed;
use eos_batch::{Batch, BatchFault, Header, Kind, Record, encode_batch};
use eos_machine::{Claim, Config, Entry, Item, Writer};
use std::alloc::{AllocError, Global};

fn record_of(key: Option<Bytes>, value: Option<Bytes>, headers: Vec<Header>) -> Record
    ensures { result ≡ record_of key value headers.items }
{
    Record {
        attributes: 0,
        timestamp_delta: 0,
        key,
        value,
        headers: Listed::new(headers),
    }
}

fn fed_record(alloc: Global, event: u64) -> Result<Record, AllocError>
    requires { event < 2 ^ 63 }
    ensures { IfOk result (λ r. r ≡ fed_record event) }
{
    let value = values::i64_bytes(alloc, as_i64(event))?;
    Ok(record_of(None, Some(value), Vec::new(alloc)))
}

fn state_record(
    alloc: Global,
    config: Config,
    application: usize,
    entry: &Entry,
    event: u64,
) -> Result<Record, AllocError>
    requires config { IsConfig config }
    requires application { application ≤ 8 }
    requires epoch { entry.now.epoch < 2 ^ 15 }
    requires partitions { AreAllThere config entry.now.partitions }
    requires event { event < 2 ^ 63 }
    ensures { IfOk result (λ r. r ≡ state_record config application entry.now event) }
{
    let key = values::transaction_key(alloc, application)?;
    let value = values::transaction_value(alloc, config, application, entry, event)?;
    Ok(record_of(Some(key), Some(value), Vec::new(alloc)))
}

fn output_record(alloc: Global, claim: &Option<Claim>, value: u64) -> Result<Record, AllocError>
    requires { value < 2 ^ 63 }
    ensures { IfOk result (λ r. r ≡ output_record claim.now value) }
{
    let value = values::i64_bytes(alloc, as_i64(value))?;
    let headers = values::headers_of(alloc, claim)?;
    Ok(record_of(None, Some(value), headers))
}

fn offset_record(
    alloc: Global,
    config: Config,
    source: usize,
    offset: Option<u64>,
) -> Result<Record, AllocError>
    requires config { IsConfig config }
    requires source { source < config.inputs + config.outputs }
    ensures { IfOk result (λ r. r ≡ offset_record config source offset) }
{
    let key = values::commit_key(alloc, config, source)?;
    let value = values::commit_value(alloc, config, source, offset)?;
    Ok(record_of(Some(key), value, Vec::new(alloc)))
}

fn marker_record(alloc: Global, kind: Kind) -> Result<Record, AllocError>
    ensures { IfOk result (λ r. r ≡ marker_record kind) }
{
    let key = values::marker_key(alloc, kind)?;
    let value = values::marker_value(alloc)?;
    Ok(record_of(Some(key), Some(value), Vec::new(alloc)))
}

/// The number of the event that appended an item.
fn event_of(item: &Item) -> u64
    ensures { result ≡ event_of item.now }
{
    match item {
        Item::Fed { event } => *event,
        Item::State { event, .. } => *event,
        Item::Output { event, .. } => *event,
        Item::Offset { event, .. } => *event,
        Item::Marker { event, .. } => *event,
    }
}

/// By whom an item's batch is written.
fn item_writer(item: &Item) -> Writer
    requires { HasWriter item.now }
    ensures { result ≡ item_writer item.now }
{
    match item {
        Item::Fed { .. } => writer::plain(),
        Item::State { .. } => writer::plain(),
        Item::Output {
            application,
            epoch,
            sequence,
            ..
        } => writer::transactional(*application, *epoch, sequence_as_i32(*sequence)),
        Item::Offset {
            application,
            epoch,
            ..
        } => writer::transactional(*application, *epoch, -1),
        Item::Marker {
            application,
            epoch,
            ..
        } => writer::control(*application, *epoch),
    }
}

/// The record of an item, as it is in a batch of its own.
#[tactic(auto, using(crate::proofs::Refusals::few_of))]
fn item_record(alloc: Global, config: Config, item: &Item) -> Result<Record, AllocError>
    requires config { IsConfig config }
    requires fits { IsFit config item.now }
    ensures { IfOk result (λ r. r ≡ item_record config item.now) }
{
    match item {
        Item::Fed { event } => fed_record(alloc, *event),
        Item::State {
            application,
            entry,
            event,
        } => state_record(alloc, config, *application, entry, *event),
        Item::Output { claim, value, .. } => output_record(alloc, claim, *value),
        Item::Offset { source, offset, .. } => offset_record(alloc, config, *source, *offset),
        Item::Marker { kind, .. } => marker_record(alloc, *kind),
    }
}

/// The milliseconds from one event to another.
fn delay(from: u64, to: u64) -> i64
    requires from { from < 2 ^ 63 }
    requires to { to < 2 ^ 63 }
    ensures { result ≡ pos to -ℤ pos from }
{
    as_i64(to) - as_i64(from)
}

/// The record of an item in a batch that begins at the time of this event.
#[tactic(auto, using(eos_machine::proofs::FittingTests::fit_event))]
fn record_after(
    alloc: Global,
    config: Config,
    start: u64,
    item: &Item,
) -> Result<Record, AllocError>
    requires config { IsConfig config }
    requires start { start < 2 ^ 63 }
    requires fits { IsFit config item.now }
    ensures { IfOk result (λ r. r ≡ record_after config start item.now) }
{
    let mut record = item_record(alloc, config, item)?;
    record.timestamp_delta = delay(start, event_of(item));
    Ok(record)
}

/// The records of a batch of an item and those that stand behind it.
#[tactic(auto, using(eos_machine::proofs::FittingTests::fit_event))]
fn records_of(
    alloc: Global,
    config: Config,
    first: &Item,
    behind: &[Item],
) -> Result<Vec<Record>, AllocError>
    requires config { IsConfig config }
    requires fits { All (IsFit config) (first.now ∷ behind.now) }
    ensures { IfOk result (λ r. r.items ≡ map (record_after config (event_of first.now)) (first.now ∷ behind.now)) }
{
    let start = event_of(first);
    let mut records = Vec::new(alloc);
    records.push(record_after(alloc, config, start, first)?)?;
    for i in 0..behind.len() {
        records.push(record_after(alloc, config, start, &behind[i])?)?;
    }
    Ok(records)
}

/// The last of these, or the one before them where there is none.
fn last_or<'a>(first: &'a Item, behind: &'a [Item]) -> &'a Item
    ensures { result.now ≡ last_or first.now behind.now }
{
    match behind.len() {
        0 => first,
        count => &behind[count - 1],
    }
}

/// The batch that begins here, of an item and those that stand behind it.
#[tactic(auto, using(crate::proofs::Refusals::fit_writer, eos_machine::proofs::FittingTests::fit_event))]
fn batch_of(
    alloc: Global,
    config: Config,
    base: Base,
    first: &Item,
    behind: &[Item],
) -> Result<Batch, AllocError>
    requires config { IsConfig config }
    requires offset { base.offset < 2 ^ 63 }
    requires fits { All (IsFit config) (first.now ∷ behind.now) }
    ensures { IfOk result (λ b. b ≡ based config base first.now behind.now) }
{
    let records = records_of(alloc, config, first, behind)?;
    let writer = item_writer(first);
    Ok(Batch {
        base_offset: as_i64(base.offset as u64),
        leader_epoch: i32::from(base.leader_epoch),
        attributes: writer.attributes,
        base_timestamp: as_i64(event_of(first)),
        max_timestamp: as_i64(event_of(last_or(first, behind))),
        producer: writer.producer,
        epoch: writer.epoch,
        sequence: writer.sequence,
        records: Listed::new(records),
    })
}

/// Want of memory, the one refusal that writing a batch has here.
fn of_memory(_fault: BatchFault) -> AllocError
    requires { _fault ≡ BatchFault.OutOfMemory }
{
    AllocError
}

/// The bytes of a batch of an item and those that stand behind it.
#[tactic(auto, using(crate::proofs::Texts::written_text, crate::proofs::Texts::is_written))]
fn batch_text(
    alloc: Global,
    config: Config,
    base: Base,
    first: &Item,
    behind: &[Item],
) -> Result<Bytes, AllocError>
    requires config { IsConfig config }
    requires offset { base.offset + length behind.now < 2 ^ 63 }
    requires few { length behind.now < 1000 }
    requires joined { AreJoined first.now behind.now }
    requires fits { All (IsFit config) (first.now ∷ behind.now) }
    ensures text { IfOk result (λ t. t ≡ batch_text_of (based config base first.now behind.now)) }
    ensures written { OnOk result (IsBatchText (batch_text_of (based config base first.now behind.now)) (based config base first.now behind.now)) }
{
    let batch = batch_of(alloc, config, base, first, behind)?;
    match encode_batch(alloc, &batch) {
        Ok(text) => Ok(text),
        Err(fault) => Err(of_memory(fault)),
    }
}

/// The bytes of items one after the other, the first of them at this offset, under these leaders.
pub(crate) fn items_text(
    alloc: Global,
    config: Config,
    leaders: Leaders<'_>,
    offset: usize,
    items: &[Item],
) -> Result<Bytes, AllocError>
    requires config { IsConfig config }
    requires offset { offset + length items.now < 2 ^ 63 }
    requires fits { All (IsFit config) items.now }
    ensures text { IfOk result (λ t. t ≡ texts_of (map (led leaders.entry.place leaders.entry.elections.now) (batches_from config offset items.now))) }
    ensures written { OnOk result (AreTexts (map (led leaders.entry.place leaders.entry.elections.now) (batches_from config offset items.now))) }
{
    let mut out = Vec::new(alloc);
    let mut base = offset;
    let mut rest = items;
    while let Some((first, more)) = rest.split_first() {
        let count = joining(config.batch_records - 1, first, more);
        let (behind, others) = more.split_at(count);
        let text = batch_text(alloc, config, base_at(leaders, base), first, behind)?;
        out.extend_from_slice(text.as_slice())?;
        base += 1 + count;
        rest = others;
    }
    Ok(Bytes::from_vec(out)?)
}
