//! Which partitions the transaction log lists.

ghost use Rattle.std.specs.Prelude.{◌≡◌, ◌++◌, IfOk, OnOk, flat_map};
ghost use Rattle.eos_txnlog.specs.Reading.{read_key, read_value};
ghost use Rattle.eos_manifest.specs.Listing.{names_said, names_under, names_in_record, names_in_batch, IsListing};

use bytes::Bytes;
use eos_base::PartitionName;
use eos_batch::{Batch, Record, decode_segment};
use eos_txnlog::{push_names, read_id, read_state};
use std::alloc::{AllocError, Global};

/// The partitions that the records of a segment of the transaction log list, as often as they list them: those of its batches up
/// to its end or its first fault.
///
/// # Errors
/// A growth of memory was refused.
pub fn listed_in(alloc: Global, bytes: &Bytes) -> Result<Vec<PartitionName>, AllocError>
    ensures { IfOk result (λ names. IsListing bytes.now names.items) }
{
    let text = decode_segment(alloc, bytes)?;
    let mut names = Vec::new(alloc);
    push_of_batches(alloc, &mut names, text.batches.as_slice())?;
    Ok(names)
}

fn push_of_batches(
    alloc: Global,
    names: &mut Vec<PartitionName>,
    batches: &[Batch],
) -> Result<(), AllocError>
    ensures { OnOk result (names.new.items ≡ names.old.items ++ flat_map names_in_batch batches.now) }
{
    for batch in batches {
        push_of_batch(alloc, names, batch)?;
    }
    Ok(())
}

fn push_of_batch(
    alloc: Global,
    names: &mut Vec<PartitionName>,
    batch: &Batch,
) -> Result<(), AllocError>
    ensures { OnOk result (names.new.items ≡ names.old.items ++ names_in_batch batch.now) }
{
    if batch.is_control() {
        return Ok(());
    }
    push_of_records(alloc, names, batch.records.as_slice())
}

fn push_of_records(
    alloc: Global,
    names: &mut Vec<PartitionName>,
    records: &[Record],
) -> Result<(), AllocError>
    ensures { OnOk result (names.new.items ≡ names.old.items ++ flat_map names_in_record records.now) }
{
    for item in records {
        push_of_record(alloc, names, item)?;
    }
    Ok(())
}

fn push_of_record(
    alloc: Global,
    names: &mut Vec<PartitionName>,
    one: &Record,
) -> Result<(), AllocError>
    ensures { OnOk result (names.new.items ≡ names.old.items ++ names_in_record one.now) }
{
    let Some(key) = &one.key else {
        return Ok(());
    };
    let Some(value) = &one.value else {
        return Ok(());
    };
    push_of_value(alloc, names, key, value)
}

fn push_of_value(
    alloc: Global,
    names: &mut Vec<PartitionName>,
    key: &Bytes,
    value: &Bytes,
) -> Result<(), AllocError>
    ensures { OnOk result (names.new.items ≡ names.old.items ++ names_under (read_key key.now) value.now) }
{
    match read_id(alloc, key)? {
        Ok(Some(_)) => push_of_state(alloc, names, value),
        Ok(None) => Ok(()),
        Err(_) => Ok(()),
    }
}

fn push_of_state(
    alloc: Global,
    names: &mut Vec<PartitionName>,
    value: &Bytes,
) -> Result<(), AllocError>
    ensures { OnOk result (names.new.items ≡ names.old.items ++ names_said (read_value value.now)) }
{
    match read_state(alloc, value)? {
        Ok(state) => push_names(names, state.partitions.as_slice()),
        Err(_) => Ok(()),
    }
}
