//! The times of rows. The partitions that have them are read once more, by threads, and no more of one is held than the batches of these
//! rows.

ghost use Rattle.std.specs.Prelude.{◌≡◌, true, drop, length, map, IfOk, IfErr, OnOk};
ghost use Rattle.std.specs.Option.{option_copied};
ghost use Rattle.eos_evidence.specs.Evidence.{segments_of};
ghost use Rattle.eos_evidence.specs.declared.partition.Partition.{Partition};
ghost use Rattle.eos_sought.specs.Partitions.{is_named};
ghost use Rattle.eos_source.specs.Said.{known_by};
ghost use Rattle.eos_source_check.specs.Picked.{batch_at, ArePickedOf};
ghost use Rattle.eos_source_check.specs.Refusals.{IsUnread};
ghost use Rattle.eos_explaining.specs.steps.Times.{name_if, timed_in, spot_of, time_by, is_timed_in, spot_in, time_put, times_put, first_known, known_times, ArePickedAt, AreRowTimes, TimesMore, TimesPut};

use crate::named::{is_same, names_timed};
use eos_base::PartitionName;
use eos_batch::Batch;
use eos_faults::Crew;
use eos_sought::{Placed, time_of};
use eos_source::Source;
use eos_source_check::{Picked, Pieces, Unlisted, batches_again};
use eos_story::Row;
use std::alloc::{AllocError, Global};
use std::thread;
use std::thread::Threads;

// ---- in a partition

/// The place of what a row is of, and the offset of its record, where it is of a record or a batch: of a batch that of its first.
fn spot_of(row: &Row) -> Option<(Placed, u64)>
    ensures { result ≡ spot_of row.now }
{
    match row {
        Row::Record { find, spot, .. } => match *spot {
            None => None,
            Some(placed) => Some((placed, find.item.offset)),
        },
        Row::Batch { placed, .. } => Some((*placed, placed.standing.head.offset)),
        Row::First { placed, .. } => match *placed {
            None => None,
            Some(placed) => Some((placed, placed.standing.head.offset)),
        },
        _ => None,
    }
}

/// The time of what a row is of, by the batch that stands there.
fn time_by(row: &Row, batch: Option<&Batch>) -> Option<i64>
    ensures { result ≡ time_by row.now (option_copied batch.entry) }
{
    match spot_of(row) {
        None => None,
        Some((placed, offset)) => match batch {
            None => None,
            Some(batch) => time_of(batch, placed, offset),
        },
    }
}

// ---- what is known

fn name_if(name: &PartitionName, spot: Option<Placed>) -> Option<&PartitionName>
    ensures { option_copied result ≡ name_if name.now spot }
{
    match spot {
        None => None,
        Some(_placed) => Some(name),
    }
}

/// The partition that has the time of a row, where it has one.
pub(crate) fn timed_in(row: &Row) -> Option<&PartitionName>
    ensures { option_copied result ≡ timed_in row.now }
{
    match row {
        Row::Record { find, spot, .. } => name_if(&find.partition, *spot),
        Row::Batch { partition, .. } => Some(partition),
        Row::First {
            partition,
            placed,
            ..
        } => name_if(partition, *placed),
        _ => None,
    }
}

/// What is known of the time of the row of this number.
fn known_at(found: &[Option<Option<i64>>], number: usize) -> Option<Option<i64>>
    ensures { result ≡ first_known (drop number found.now) }
{
    if number < found.len() {
        found[number]
    } else {
        None
    }
}

/// Whether a row is of a record or a batch of the partition of this name.
fn is_in(name: &PartitionName, row: &Row) -> bool
    ensures { result ≡ is_timed_in name.now row.now }
{
    match timed_in(row) {
        None => false,
        Some(own) => is_same(name, own),
    }
}

/// The place of what a row is of, where it is in the partition of this name.
fn spot_in(name: &PartitionName, row: &Row) -> Option<Placed>
    ensures { result ≡ spot_in name.now row.now }
{
    if !is_in(name, row) {
        return None;
    }
    match spot_of(row) {
        None => None,
        Some((placed, _offset)) => Some(placed),
    }
}

fn spots_in(
    alloc: Global,
    name: &PartitionName,
    rows: &[Row],
) -> Result<Vec<Option<Placed>>, AllocError>
    ensures { IfOk result (λ places. places.items ≡ map (spot_in name.now) rows.now) }
{
    let mut places = Vec::new(alloc);
    for row in rows {
        places.push(spot_in(name, row))?;
    }
    Ok(places)
}

/// What is known of the time of a row, once the batches of the partition of this name were read.
fn time_put(
    name: &PartitionName,
    row: &Row,
    was: Option<Option<i64>>,
    batch: Option<&Batch>,
) -> Option<Option<i64>>
    ensures { (p : Partition) → is_named name.now p ≡ true → option_copied batch.entry ≡ batch_at p (spot_in name.now row.now) → result ≡ time_put p row.now was }
{
    if is_in(name, row) {
        Some(time_by(row, batch))
    } else {
        was
    }
}

/// What is known of the times of these rows, once their batches in the partition of this name were read.
fn times_put(
    alloc: Global,
    name: &PartitionName,
    rows: &[Row],
    was: &[Option<Option<i64>>],
    picked: &Picked,
) -> Result<Vec<Option<Option<i64>>>, AllocError>
    ensures { (p : Partition) → is_named name.now p ≡ true → ArePickedOf p (map (spot_in name.now) rows.now) picked.now → IfOk result (λ found. found.items ≡ times_put p rows.now was.now) }
{
    let mut found = Vec::new(alloc);
    for i in 0..rows.len() {
        let one = time_put(name, &rows[i], known_at(was, i), picked.at(i));
        found.push(one)?;
    }
    Ok(found)
}

// ---- all

/// The batches of these rows in the partition of this number among those named, which is read for them.
fn picked_at<S: Source>(
    alloc: Global,
    pieces: &Pieces<'_, S>,
    rows: &[Row],
    names: &[PartitionName],
    number: usize,
) -> Result<Option<Picked>, Unlisted<S::Fault>>
    ensures picked { IfOk result (ArePickedAt (known_by (S.said pieces.now.source.now) (S.is_log pieces.now.source.now)) pieces.now.shape.now.partitions names.now number rows.now) }
    ensures unread { IfErr result (IsUnread (S.outcomes pieces.now.source.now) (length (segments_of pieces.now.shape.now.partitions))) }
{
    match names.get(number) {
        None => Ok(None),
        Some(name) => {
            let places = spots_in(alloc, name, rows)?;
            batches_again(alloc, pieces.source, pieces.shape, name, places.as_slice())
        }
    }
}

/// What is known of the times of these rows, once the partition of this name was read.
fn put_picked(
    alloc: Global,
    name: &PartitionName,
    rows: &[Row],
    found: &mut Vec<Option<Option<i64>>>,
    picked: Option<Picked>,
) -> Result<(), AllocError>
    ensures { OnOk result (TimesPut name.now rows.now picked found.old.items found.new.items) }
{
    match picked {
        None => Ok(()),
        Some(picked) => {
            *found = times_put(alloc, name, rows, found.as_slice(), &picked)?;
            Ok(())
        }
    }
}

/// Reads the partitions of these names for the times of the rows in them. Each may have a thread of its own.
fn time_each<S: Source, R: Threads + Sync>(
    crew: &Crew<'_, R>,
    pieces: &Pieces<'_, S>,
    rows: &[Row],
    found: &mut Vec<Option<Option<i64>>>,
    names: &[PartitionName],
) -> Result<(), Unlisted<S::Fault>>
    ensures times { OnOk result (TimesMore (known_by (S.said pieces.now.source.now) (S.is_log pieces.now.source.now)) pieces.now.shape.now rows.now names.now found.old.items found.new.items) }
    ensures unread { IfErr result (IsUnread (S.outcomes pieces.now.source.now) (length (segments_of pieces.now.shape.now.partitions))) }
{
    let alloc = crew.alloc;
    let fetched = thread::map_indices(
        crew.rt,
        alloc,
        names.len(),
        &|number|
            ensures picked { IfOk result (ArePickedAt (known_by (S.said pieces.entry.now.source.now) (S.is_log pieces.entry.now.source.now)) pieces.entry.now.shape.now.partitions names.entry.now number rows.entry.now) }
            ensures unread { IfErr result (IsUnread (S.outcomes pieces.entry.now.source.now) (length (segments_of pieces.entry.now.shape.now.partitions))) }
        { picked_at(alloc, pieces, rows, names, number) },
    )?;
    let mut number = 0;
    for picked in fetched {
        put_picked(alloc, &names[number], rows, found, picked?)?;
        number += 1;
    }
    Ok(())
}

/// The times of these rows, of which so much is known.
fn times_of(
    alloc: Global,
    rows: &[Row],
    found: &[Option<Option<i64>>],
) -> Result<Vec<Option<i64>>, AllocError>
    ensures { IfOk result (λ times. times.items ≡ known_times rows.now found.now) }
{
    let mut times = Vec::new(alloc);
    for i in 0..rows.len() {
        times.push(known_at(found, i).flatten())?;
    }
    Ok(times)
}

/// The times of these rows, where they have one. Each partition that has one is read once more, as many at a time as there are threads.
///
/// # Errors
/// A piece isn't there any more, is a fold, or can't be read; or want of memory.
pub(crate) fn row_times<S: Source, R: Threads + Sync>(
    crew: &Crew<'_, R>,
    pieces: &Pieces<'_, S>,
    rows: &[Row],
) -> Result<Vec<Option<i64>>, Unlisted<S::Fault>>
    ensures times { IfOk result (λ times. AreRowTimes (known_by (S.said pieces.now.source.now) (S.is_log pieces.now.source.now)) pieces.now.shape.now rows.now times.items) }
    ensures unread { IfErr result (IsUnread (S.outcomes pieces.now.source.now) (length (segments_of pieces.now.shape.now.partitions))) }
{
    let names = names_timed(crew.alloc, rows)?;
    let names = names.as_slice();
    let mut found = Vec::new(crew.alloc);
    let mut first = 0;
    while first < names.len() {
        let count = (crew.workers.get() as usize).min(names.len() - first);
        time_each(crew, pieces, rows, &mut found, &names[first..first + count])?;
        first += count;
    }
    let times = times_of(crew.alloc, rows, found.as_slice())?;
    Ok(times)
}
