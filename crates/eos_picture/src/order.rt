//! Where transactions stand in a partition, and their order there.

ghost use Rattle.std.specs.Prelude.{◌≡◌, ◌<◌, ℕ, ℤ, List, Some, None, length, slice_get, IfOk, OnOk, IfSome};
ghost use Rattle.std.specs.BTreeMap.{get};
ghost use Rattle.std.specs.Option.{option_or};
ghost use Rattle.eos_picture.specs.Order.{is_writer as is_writer_of, offset_if, last_of as last_in_items, prepared_in as prepared_in_part, stands_at, standings, IsOrderOf};
ghost use Rattle.eos_picture.specs.Window.{IsAtPlace};
ghost use Rattle.eos_picture.specs.steps.Standing.{by_writer};

use crate::ends::is_writer;
use crate::mark::Column;
use eos_base::in_order;
use eos_kept::{ItemRef, Part};
use eos_table::is_of_transaction_log;
use std::alloc::{AllocError, Global};
use std::collections::BTreeMap;

// ---- one transaction

fn offset_by(item: &ItemRef<'_>, writer: (i64, i16)) -> Option<u64>
    ensures { result ≡ offset_if (is_writer_of item.now.writer writer) item.now.offset }
{
    if is_writer(item.writer(), writer) {
        Some(item.offset())
    } else {
        None
    }
}

/// The offset of the last data record of this producer id and epoch.
fn last_of(part: &Part, writer: (i64, i16)) -> Option<u64>
    ensures { result ≡ last_in_items part.now.items writer }
{
    let mut last = None;
    let mut items = part.items().cursor();
    while let Some(item) = items.next() {
        last = offset_by(&item, writer).or(last);
    }
    last
}

/// The offset of the Prepare record, if it is in this partition of the transaction log.
fn prepared_in(column: &Column, partition: i32) -> Option<u64>
    ensures { result ≡ prepared_in_part partition column.now.decided }
{
    match &column.decided {
        None => None,
        Some(decided) => {
            if decided.partition == partition {
                Some(decided.offset)
            } else {
                None
            }
        }
    }
}

/// Where a transaction stands in a partition.
pub(crate) fn stand_of(part: &Part, column: &Column) -> Option<u64>
    ensures { result ≡ stands_at part.now column.now }
{
    if is_of_transaction_log(part) {
        return prepared_in(column, part.partition());
    }
    last_of(part, (column.producer, column.epoch))
}

// ---- all of them

/// The offset of the last data record of each producer id and epoch.
type Lasts = BTreeMap<(i64, i16), u64>;

fn take_last(lasts: &mut Lasts, item: &ItemRef<'_>) -> Result<(), AllocError>
    ensures { OnOk result ((w : ℤ × ℤ) → get by_writer lasts.new w ≡ option_or (offset_if (is_writer_of item.now.writer w) item.now.offset) (get by_writer lasts.old w)) }
{
    if let Some(writer) = item.writer() {
        lasts.insert(writer, item.offset())?;
    }
    Ok(())
}

fn lasts_of(alloc: Global, part: &Part) -> Result<Lasts, AllocError>
    ensures { IfOk result (λ lasts. (w : ℤ × ℤ) → get by_writer lasts w ≡ last_in_items part.now.items w) }
{
    let mut lasts = BTreeMap::new(alloc);
    let mut items = part.items().cursor();
    while let Some(item) = items.next() {
        take_last(&mut lasts, &item)?;
    }
    Ok(lasts)
}

/// The offset of the last data record of this producer id and epoch, in a partition of which these are the last data records.
fn last_in(lasts: &Lasts, part: &Part, writer: (i64, i16)) -> Option<u64>
    requires { (w : ℤ × ℤ) → get by_writer lasts.now w ≡ last_in_items part.now.items w }
    ensures { result ≡ last_in_items part.now.items writer }
{
    lasts.get(&writer).copied()
}

/// Where a transaction stands in a partition, of which these are the last data records.
fn stand_by(lasts: &Lasts, part: &Part, column: &Column) -> Option<u64>
    requires { (w : ℤ × ℤ) → get by_writer lasts.now w ≡ last_in_items part.now.items w }
    ensures { result ≡ stands_at part.now column.now }
{
    if is_of_transaction_log(part) {
        return prepared_in(column, part.partition());
    }
    last_in(lasts, part, (column.producer, column.epoch))
}

/// Where each transaction that stands in a partition does, and its place among all.
fn stands_of(
    alloc: Global,
    columns: &[Column],
    part: &Part,
) -> Result<Vec<(u64, usize)>, AllocError>
    ensures { IfOk result (λ stands. stands.items ≡ standings part.now 0 columns.now) }
{
    let lasts = lasts_of(alloc, part)?;
    let mut stands = Vec::new(alloc);
    for i in 0..columns.len() {
        if let Some(offset) = stand_by(&lasts, part, &columns[i]) {
            stands.push((offset, i))?;
        }
    }
    Ok(stands)
}

/// The transactions that stand in a partition, in the order in which they do: where each does, and its place among all.
///
/// # Errors
/// Only want of memory.
pub(crate) fn order_of(
    alloc: Global,
    columns: &[Column],
    part: &Part,
) -> Result<Vec<(u64, usize)>, AllocError>
    ensures { IfOk result (λ order. IsOrderOf part.now columns.now order.items) }
{
    let stands = stands_of(alloc, columns, part)?;
    Ok(in_order(stands))
}

/// Where the transaction of this place among all stands in an order.
pub(crate) fn position_of(order: &[(u64, usize)], place: usize) -> Option<usize>
    ensures inside { IfSome result (λ k. k < length order.now) }
    ensures at { IfSome result (λ k. IsAtPlace order.now k place) }
    ensures none { result ≡ None → (k : ℕ) → IsAtPlace order.now k place → ⊥ }
{
    for i in 0..order.len() {
        if order[i].1 == place {
            return Some(i);
        }
    }
    None
}
