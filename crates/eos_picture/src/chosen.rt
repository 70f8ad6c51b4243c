//! Which transactions are shown: those that share a partition with the fault's, in the order of its log.

ghost use Rattle.std.specs.Prelude.{◌≡◌, ◌<◌, ◌≤◌, ◌++◌, ◌∷◌, [], ◌*◌, ℕ, map, take, drop, length, slice_get, IfOk, OnOk, IfSome};
ghost use Rattle.std.specs.List.{flat_map, range_with_len};
ghost use Rattle.std.specs.Option.{option_copied};
ghost use Rattle.eos_picture.specs.Order.{near_to};
ghost use Rattle.eos_picture.specs.Window.{at_place, around_in, named_by, AreAround, AreShown};
ghost use Rattle.eos_picture.specs.steps.Standing.{IsNearYet, AreNoNearer};

use crate::growing::put;
use crate::mark::{Column, Decided};
use crate::named::is_named_by;
use crate::order::{order_of, position_of, stand_of};
use eos_kept::Part;
use eos_table::is_of_transaction_log;
use eos_verdict::Fault;
use std::alloc::{AllocError, Global};

/// What is wanted beside the transaction in the middle.
#[derive(Clone, Copy)]
pub(crate) struct Wanted<'a> {
    /// The fault, if there is one, which may name a partition.
    pub fault: Option<&'a Fault>,
    /// How many on each side.
    pub around: usize,
}

// ---- the partition that is shared

/// How near a partition is to the fault: 0 where the transaction doesn't stand there.
fn nearness(part: &Part, fault: Option<&Fault>, column: &Column) -> u8
    ensures { result ≡ near_to (named_by (option_copied fault.entry)) column.now part.now }
{
    if stand_of(part, column).is_none() {
        return 0;
    }
    if is_named_by(fault, part) {
        return 3;
    }
    if is_of_transaction_log(part) { 1 } else { 2 }
}

/// The partition nearest to the fault in which the transaction stands.
fn nearest_of(logs: &[Part], fault: Option<&Fault>, column: &Column) -> Option<usize>
    ensures { (most : ℕ) × IsNearYet logs.now (named_by (option_copied fault.entry)) column.now result most × AreNoNearer logs.now (named_by (option_copied fault.entry)) column.now most }
{
    let mut nearest = None;
    let mut most = 0u8;
    for i in 0..logs.len() {
        let near = nearness(&logs[i], fault, column);
        if near <= most {
            continue;
        }
        most = near;
        nearest = Some(i);
    }
    nearest
}

// ---- columns

fn alone(alloc: Global, place: usize) -> Result<Vec<usize>, AllocError>
    ensures { IfOk result (λ places. places.items ≡ place ∷ []) }
{
    let mut places = Vec::new(alloc);
    places.push(place)?;
    Ok(places)
}

/// Those of an order around this one, so many on each side.
fn cut(
    alloc: Global,
    order: &[(u64, usize)],
    middle: usize,
    around: usize,
) -> Result<Vec<usize>, AllocError>
    requires { middle < length order.now }
    ensures { IfOk result (λ places. places.items ≡ map (λ (s : ℕ × ℕ). s.1) (around_in around middle order.now)) }
{
    let end = middle
        .saturating_add(around)
        .saturating_add(1)
        .min(order.len());
    let front = &order[..end];
    let shown = &front[middle.saturating_sub(around)..];
    let mut places = Vec::new(alloc);
    for stand in shown {
        places.push(stand.1)?;
    }
    Ok(places)
}

fn all_columns(alloc: Global, count: usize) -> Result<Vec<usize>, AllocError>
    ensures { IfOk result (λ places. places.items ≡ range_with_len 0 count) }
{
    let mut places = Vec::new(alloc);
    for i in 0..count {
        places.push(i)?;
    }
    Ok(places)
}

/// The first of so many, twice so many as on each side.
fn first_columns(alloc: Global, count: usize, around: usize) -> Result<Vec<usize>, AllocError>
    ensures { IfOk result (λ places. places.items ≡ take (2 * around) (range_with_len 0 count)) }
{
    let mut places = all_columns(alloc, count)?;
    let end = around.saturating_mul(2).min(places.len());
    places.truncate(end);
    Ok(places)
}

/// Those that share the nearest partition with the transaction at this column.
fn columns_around(
    alloc: Global,
    columns: &[Column],
    logs: &[Part],
    wanted: Wanted<'_>,
    middle: usize,
) -> Result<Vec<usize>, AllocError>
    requires { middle < length columns.now }
    ensures { IfOk result (λ places. AreAround logs.now columns.now (named_by (option_copied wanted.entry.fault)) middle (slice_get columns.now middle) wanted.entry.around places.items) }
{
    let Some(nearest) = nearest_of(logs, wanted.fault, &columns[middle]) else {
        return alone(alloc, middle);
    };
    let order = order_of(alloc, columns, &logs[nearest])?;
    match position_of(order.as_slice(), middle) {
        None => alone(alloc, middle),
        Some(at) => cut(alloc, order.as_slice(), at, wanted.around),
    }
}

/// The columns among all transactions of those that are shown around this one.
///
/// # Errors
/// Only want of memory.
pub(crate) fn columns_shown(
    alloc: Global,
    columns: &[Column],
    logs: &[Part],
    wanted: Wanted<'_>,
    middle: Option<usize>,
) -> Result<Vec<usize>, AllocError>
    requires { IfSome middle (λ m. m < length columns.now) }
    ensures { IfOk result (λ places. AreShown logs.now columns.now (named_by (option_copied wanted.entry.fault)) middle wanted.entry.around places.items) }
{
    match middle {
        None => first_columns(alloc, columns.len(), wanted.around),
        Some(middle) => columns_around(alloc, columns, logs, wanted, middle),
    }
}

// ---- the transactions there

fn copy_of_decided(decided: &Decided) -> Result<Decided, AllocError>
    ensures { IfOk result (λ copy. copy ≡ decided.now) }
{
    Ok(Decided {
        id: decided.id.clone()?,
        partition: decided.partition,
        offset: decided.offset,
        kind: decided.kind,
        marker_epoch: decided.marker_epoch,
    })
}

fn copy_of(column: &Column) -> Result<Column, AllocError>
    ensures { IfOk result (λ copy. copy ≡ column.now) }
{
    let decided = match &column.decided {
        None => None,
        Some(decided) => Some(copy_of_decided(decided)?),
    };
    Ok(Column {
        producer: column.producer,
        epoch: column.epoch,
        decided,
    })
}

/// Puts the transaction at this column at the end.
fn push_at(shown: &mut Vec<Column>, columns: &[Column], place: usize) -> Result<(), AllocError>
    ensures { OnOk result (shown.new.items ≡ shown.old.items ++ at_place columns.now place) }
{
    if place >= columns.len() {
        return Ok(());
    }
    put(shown, copy_of(&columns[place])?)
}

/// The transactions at these columns.
///
/// # Errors
/// Only want of memory.
pub(crate) fn columns_at(
    alloc: Global,
    columns: &[Column],
    places: &[usize],
) -> Result<Vec<Column>, AllocError>
    ensures { IfOk result (λ shown. shown.items ≡ flat_map (at_place columns.now) places.now) }
{
    let mut shown = Vec::new(alloc);
    for place in places {
        push_at(&mut shown, columns, *place)?;
    }
    Ok(shown)
}
