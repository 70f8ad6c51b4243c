//! Which transaction a fault is of.

ghost use Rattle.std.specs.Prelude.{◌≡◌, ◌≢◌, ◌<◌, ◌⊎◌, ℤ, [], Some, None, true, false, length, IfSome};
ghost use Rattle.std.specs.Option.{option_or};
ghost use Rattle.eos_base.specs.Members.{Has};
ghost use Rattle.eos_fold.specs.declared.item.Item.{Item};
ghost use Rattle.eos_claims.specs.declared.place.Place.{Place};
ghost use Rattle.eos_picture.specs.Window.{IsOfRecordAt};
ghost use Rattle.eos_picture.specs.steps.Found.{IsPlaceOf};
ghost use Rattle.eos_picture.specs.steps.Spots.{StartsAt, spot_at};

use crate::ends::{End, is_ended_by};
use crate::mark::Column;
use crate::named::is_named;
use crate::spots::{At, Spot};
use eos_base::PartitionName;
use eos_kept::{ItemRef, Part};
use eos_table::is_of_transaction_log;

/// Whether the transaction's data have this producer id and epoch.
pub(crate) fn is_written_by(column: &Column, writer: (i64, i16)) -> bool
    ensures yes { result ≡ true → writer ≡ (column.now.producer, column.now.epoch) }
    ensures no { result ≡ false → writer ≢ (column.now.producer, column.now.epoch) }
{
    column.producer == writer.0 && column.epoch == writer.1
}

/// The place of the transaction whose data have this producer id and epoch.
pub(crate) fn column_of(columns: &[Column], writer: (i64, i16)) -> Option<usize>
    ensures inside { IfSome result (λ i. i < length columns.now) }
    ensures place { IsPlaceOf columns.now writer result }
{
    for i in 0..columns.len() {
        if is_written_by(&columns[i], writer) {
            return Some(i);
        }
    }
    None
}

/// In a partition of the transaction log: the first transaction that was decided at this offset or behind it, or else the last of
/// the partition.
fn decided_near(columns: &[Column], partition: i32, offset: u64) -> Option<usize>
    ensures inside { IfSome result (λ m. m < length columns.now) }
{
    let mut near = None;
    for i in 0..columns.len() {
        if let Some(decided) = &columns[i].decided {
            if decided.partition == partition {
                near = Some(i);
                if offset <= decided.offset {
                    return near;
                }
            }
        }
    }
    near
}

/// The record's producer id and epoch, if it has some, and it is at this offset where that is asked; or else what was there before.
fn nearer(
    near: Option<(i64, i16)>,
    item: &ItemRef<'_>,
    offset: u64,
    exactly: bool,
) -> Option<(i64, i16)>
    ensures { (result ≡ option_or item.now.writer near) ⊎ ((result ≡ near) × (item.now.offset ≢ offset)) }
{
    if !exactly {
        return item.writer().or(near);
    }
    if item.offset() != offset {
        return near;
    }
    item.writer().or(near)
}

/// The producer id and epoch of the last transactional record of a partition up to this offset, or if that is asked, exactly there.
fn writer_near(part: &Part, offset: u64, exactly: bool) -> Option<(i64, i16)>
    ensures { (x : Item) (w : ℤ × ℤ) → Has part.now.items x → x.offset ≡ offset → x.writer ≡ Some w → result ≡ Some w }
{
    let mut near = None;
    let mut items = part.items().cursor();
    while let Some(item) = items.next() {
        if offset < item.offset() {
            return near;
        }
        near = nearer(near, &item, offset, exactly);
    }
    near
}

fn column_near(
    columns: &[Column],
    logs: &[Part],
    name: &PartitionName,
    offset: u64,
    exactly: bool,
) -> Option<usize>
    ensures inside { IfSome result (λ m. m < length columns.now) }
    ensures of { IsOfRecordAt logs.now columns.now result (record { partition = name.now; offset = offset }) }
{
    for part in logs {
        if is_named(part, name) {
            if is_of_transaction_log(part) {
                return decided_near(columns, name.partition, offset);
            }
            return match writer_near(part, offset, exactly) {
                Some(writer) => column_of(columns, writer),
                None => None,
            };
        }
    }
    None
}

/// The transaction that has the end marker, or else one whose data have its epoch.
fn column_of_end(columns: &[Column], end: End) -> Option<usize>
    ensures inside { IfSome result (λ m. m < length columns.now) }
{
    for i in 0..columns.len() {
        if is_ended_by(&columns[i], end.producer, end.epoch) {
            return Some(i);
        }
    }
    column_of(columns, (end.producer, end.epoch))
}

/// The transaction that did what stands at a place of the fault, or that was the last to do something in this partition before.
pub(crate) fn column_of_spot(columns: &[Column], logs: &[Part], spot: &Spot) -> Option<usize>
    ensures inside { IfSome result (λ m. m < length columns.now) }
    ensures of { (at : Place) → spot.now ≡ spot_at at → IsOfRecordAt logs.now columns.now result at }
{
    match spot.at {
        At::Offset(offset) => column_near(columns, logs, &spot.name, offset, true),
        At::Near(offset) => column_near(columns, logs, &spot.name, offset, false),
        At::Marker { end, .. } => column_of_end(columns, end),
        At::Transaction { producer, epoch } => column_of(columns, (producer, epoch)),
        At::Open { producer, epoch } => column_of(columns, (producer, epoch)),
        At::Passing(_) => None,
    }
}

/// The first place of a fault that is of a transaction, and that transaction's place.
pub(crate) fn middle_of(columns: &[Column], logs: &[Part], spots: &[Spot]) -> Option<usize>
    ensures inside { IfSome result (λ m. m < length columns.now) }
    ensures of { (at : Place) → StartsAt spots.now (Some at) → IsOfRecordAt logs.now columns.now result at }
    ensures none { spots.now ≡ [] → result ≡ None }
{
    for spot in spots {
        if let Some(middle) = column_of_spot(columns, logs, spot) {
            return Some(middle);
        }
    }
    None
}
