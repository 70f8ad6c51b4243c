//! The transactions: those that the transaction log decided, in its order, and those that it didn't.

ghost use Rattle.std.specs.Prelude.{◌≡◌, ◌++◌, map, IfOk, OnOk, IsSorted};
ghost use Rattle.std.specs.List.{flat_map};
ghost use Rattle.std.specs.Option.{option_copied};
ghost use Rattle.eos_table.specs.TransactionLog.{content_of, next_state, state_of, step_at, steps_of, all_steps, transaction_parts};
ghost use Rattle.eos_table.specs.declared.content.Content.TheVariants.{Of};
ghost use Rattle.eos_table.specs.steps.Keys.{pair_cmp};
ghost use Rattle.eos_picture.specs.Transactions.{column_between, column_at, undecided_column, AreColumns};

use crate::growing::put;
use crate::mark::{Column, Decided};
use bytes::Bytes;
use eos_base::{holds, in_order};
use eos_kept::{ItemRef, Part};
use eos_table::{
    Content, LastValues, is_of_transaction_log, kind_of_status, last_value, read_content,
};
use eos_txnlog::{TxnValue, is_skipped};
use std::alloc::{AllocError, Global};
use std::collections::BTreeMap;

/// A place in the transaction log.
#[derive(Clone, Copy)]
struct TxnPlace {
    partition: i32,
    offset: u64,
}

/// Puts the transaction at the end that a record decides, if it decides one.
fn push_decided(
    columns: &mut Vec<Column>,
    place: TxnPlace,
    id: &Bytes,
    before: Option<&TxnValue>,
    value: Option<&TxnValue>,
) -> Result<(), AllocError>
    ensures { OnOk result (columns.new.items ≡ columns.old.items ++ column_between place.partition place.offset id.now (option_copied before.entry) (option_copied value.entry)) }
{
    let (Some(before), Some(value)) = (before, value) else {
        return Ok(());
    };
    let Some(kind) = kind_of_status(value.status) else {
        return Ok(());
    };
    let decided = Decided {
        id: id.clone()?,
        partition: place.partition,
        offset: place.offset,
        kind,
        marker_epoch: value.epoch,
    };
    let column = Column {
        producer: value.producer,
        epoch: before.epoch,
        decided: Some(decided),
    };
    put(columns, column)
}

/// What a record says of a transactional id.
#[derive(Drop)]
struct State {
    id: Bytes,
    /// None is a tombstone.
    value: Option<TxnValue>,
}

/// Takes up a record of a transactional id, unless it is skipped.
fn take_value(
    alloc: Global,
    columns: &mut Vec<Column>,
    last: &mut LastValues,
    place: TxnPlace,
    state: State,
) -> Result<(), AllocError>
    ensures columns { OnOk result (columns.new.items ≡ columns.old.items ++ flat_map column_at (step_at (state_of last.old) place.partition place.offset (Of state.id state.value))) }
    ensures last { OnOk result (state_of last.new ≡ next_state (state_of last.old) (Of state.id state.value)) }
{
    let State { id, value } = state;
    let before = last_value(last, &id);
    let next = value.as_ref();
    if is_skipped(alloc, before, next)? {
        return Ok(());
    }
    push_decided(columns, place, &id, before.flatten(), next)?;
    last.insert(id, value)?;
    Ok(())
}

fn take_record(
    alloc: Global,
    columns: &mut Vec<Column>,
    last: &mut LastValues,
    part: &Part,
    item: &ItemRef<'_>,
) -> Result<(), AllocError>
    ensures columns { OnOk result (columns.new.items ≡ columns.old.items ++ flat_map column_at (step_at (state_of last.old) part.now.number item.now.offset (content_of item.now))) }
    ensures last { OnOk result (state_of last.new ≡ next_state (state_of last.old) (content_of item.now)) }
{
    let place = TxnPlace {
        partition: part.partition(),
        offset: item.offset(),
    };
    match read_content(alloc, item)? {
        Content::Unreadable(_) | Content::Other => Ok(()),
        Content::Of(id, value) => take_value(alloc, columns, last, place, State { id, value }),
    }
}

fn take_records(alloc: Global, columns: &mut Vec<Column>, part: &Part) -> Result<(), AllocError>
    ensures { OnOk result (columns.new.items ≡ columns.old.items ++ flat_map column_at (steps_of part.now)) }
{
    let mut last = BTreeMap::new(alloc);
    let mut items = part.items().cursor();
    while let Some(item) = items.next() {
        take_record(alloc, columns, &mut last, part, &item)?;
    }
    Ok(())
}

/// The transactions that the transaction log decided, in its order, whether or not it keeps its own rule.
fn decided(alloc: Global, logs: &[Part]) -> Result<Vec<Column>, AllocError>
    ensures { IfOk result (λ columns. columns.items ≡ flat_map column_at (all_steps (transaction_parts logs.now))) }
{
    let mut columns = Vec::new(alloc);
    for part in logs {
        if is_of_transaction_log(part) {
            take_records(alloc, &mut columns, part)?;
        }
    }
    Ok(columns)
}

// ---- those without a decision

fn keys_of(alloc: Global, columns: &[Column]) -> Result<Vec<(i64, i16)>, AllocError>
    ensures sorted { IfOk result (λ keys. IsSorted pair_cmp keys.items) }
{
    let mut keys = Vec::new(alloc);
    for column in columns {
        keys.push((column.producer, column.epoch))?;
    }
    Ok(in_order(keys))
}

fn push_undecided(
    found: &mut Vec<(i64, i16)>,
    keys: &[(i64, i16)],
    part: &Part,
) -> Result<(), AllocError>
    requires { IsSorted pair_cmp keys.now }
{
    let mut items = part.items().cursor();
    let mut last = None;
    while let Some(item) = items.next() {
        if item.writer() == last {
            continue;
        }
        last = item.writer();
        if let Some(writer) = last {
            if !holds(keys, &writer) {
                found.push(writer)?;
            }
        }
    }
    Ok(())
}

/// The producer ids and epochs of transactional data of which there is no decision, in ascending order, each once.
fn undecided(
    alloc: Global,
    logs: &[Part],
    columns: &[Column],
) -> Result<Vec<(i64, i16)>, AllocError> {
    let keys = keys_of(alloc, columns)?;
    let mut found = Vec::new(alloc);
    for part in logs {
        push_undecided(&mut found, keys.as_slice(), part)?;
    }
    found.sort_unstable();
    found.dedup();
    Ok(found)
}

/// All transactions: those that were decided, in the order of their Prepare records, and then those without one, by producer id and
/// epoch. A partition whose log has a fault counts as far as its front goes.
///
/// # Errors
/// Only want of memory.
pub fn columns_of(alloc: Global, logs: &[Part]) -> Result<Vec<Column>, AllocError>
    ensures { IfOk result (λ columns. AreColumns logs.now columns.items) }
{
    let mut columns = decided(alloc, logs)?;
    let others = undecided(alloc, logs, columns.as_slice())?;
    push_undecided_columns(&mut columns, others.as_slice())?;
    Ok(columns)
}

fn push_undecided_columns(
    columns: &mut Vec<Column>,
    others: &[(i64, i16)],
) -> Result<(), AllocError>
    ensures { OnOk result (columns.new.items ≡ columns.old.items ++ map undecided_column others.now) }
{
    for writer in others {
        let column = Column {
            producer: writer.0,
            epoch: writer.1,
            decided: None,
        };
        put(columns, column)?;
    }
    Ok(())
}
