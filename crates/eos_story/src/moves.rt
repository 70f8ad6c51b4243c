//! Commits that move a group's offsets back, stop at an input in place of behind it, or are owed and not there.

ghost use Rattle.std.specs.Prelude.{◌≡◌, IfOk, Some};
ghost use Rattle.std.specs.List.{list_any};
ghost use Rattle.std.specs.Option.{option_copied, option_map};
ghost use Rattle.eos_story.specs.GroupCommits.{is_passing, input_of, passes_before, was_past, is_back, commits_at, is_by_writer, is_last_for_next, is_decided_by, decides_in, is_owed_by, is_owed};

use crate::names::is_there;
use crate::signs::Told;
use crate::twins::is_same_writer;
use crate::{Row, epoch_after, is_of_offsets, lists};
use bytes::Bytes;
use eos_base::PartitionName;
use eos_claims::Place;
use eos_commits::is_visible;
use eos_offsets::view_value;
use eos_sought::{Find, Sought, Wanted, is_same};
use std::alloc::{AllocError, Global};

/// Whether these are commits of the group that go past the input.
pub(crate) fn is_passing(sought: &Sought) -> bool
    ensures { result ≡ is_passing sought.now }
{
    matches!(sought, Sought::Passing { .. })
}

/// The input, where these are commits of the group that don't go past it.
fn input_of(sought: &Sought) -> Option<&Place>
    ensures { option_copied result ≡ input_of sought.now }
{
    match sought {
        Sought::UpTo { place, .. } => Some(place),
        _ => None,
    }
}

fn passes_before(sought: &Sought, first: &Find, find: &Find) -> bool
    ensures { result ≡ passes_before sought.now first.now find.now }
{
    is_passing(sought)
        && is_visible(first.item.fate)
        && is_same(
            first.partition.topic.as_slice(),
            find.partition.topic.as_slice(),
        )
        && first.partition.partition == find.partition.partition
        && first.item.offset < find.item.offset
}

fn was_past(find: &Find, row: &Row) -> bool
    ensures { result ≡ was_past find.now row.now }
{
    match row {
        Row::Record {
            sought,
            find: first,
            ..
        } => passes_before(sought, first, find),
        _ => false,
    }
}

fn has_been_past(find: &Find, rows: &[Row]) -> bool
    ensures { result ≡ list_any (was_past find.now) rows.now }
{
    for row in rows {
        if was_past(find, row) {
            return true;
        }
    }
    false
}

/// Whether this is a visible commit that doesn't go past the input, behind one that does.
pub(crate) fn is_back(sought: &Sought, find: &Find, rows: &[Row]) -> bool
    ensures { result ≡ is_back (input_of sought.now) find.now rows.now }
{
    match input_of(sought) {
        None => false,
        Some(_) => is_visible(find.item.fate) && has_been_past(find, rows),
    }
}

fn commits_at(offset: u64, value: &Option<Bytes>) -> bool
    ensures { result ≡ commits_at offset value.now }
{
    match value {
        None => false,
        Some(value) => match view_value(value.as_slice()) {
            Ok(committed) => committed >= 0 && committed.unsigned_abs() == offset,
            Err(_) => false,
        },
    }
}

fn is_by_writer(place: Option<&Place>, writer: Option<(i64, i16)>, row: &Row) -> bool
    ensures { result ≡ is_by_writer (option_copied place.entry) writer row.now }
{
    match row {
        Row::Record { find: output, .. } => {
            is_there(place, &output.partition, output.item.offset)
                && is_same_writer(output.item.writer, writer)
        }
        _ => false,
    }
}

fn has_writer(place: Option<&Place>, writer: Option<(i64, i16)>, rows: &[Row]) -> bool
    ensures { result ≡ list_any (is_by_writer (option_copied place.entry) writer) rows.now }
{
    for row in rows {
        if is_by_writer(place, writer, row) {
            return true;
        }
    }
    false
}

/// Whether this is a commit of exactly the input's offset, in the transaction of the output at the fault's place.
pub(crate) fn is_last_for_next(
    place: Option<&Place>,
    sought: &Sought,
    find: &Find,
    rows: &[Row],
) -> bool
    ensures { result ≡ is_last_for_next (option_copied place.entry) (input_of sought.now) find.now rows.now }
{
    match input_of(sought) {
        None => false,
        Some(input) => commits_at(input.offset, &find.item.value)
            && has_writer(place, find.item.writer, rows),
    }
}

// ---- commits that are owed

fn is_decided_by(producer: i64, epoch: i16, sought: &Sought) -> bool
    ensures { result ≡ is_decided_by producer epoch sought.now }
{
    match sought {
        Sought::Deciding {
            producer: of,
            epoch: at,
        } => *of == producer && *at == epoch,
        _ => false,
    }
}

fn decides_in(
    alloc: Global,
    producer: i64,
    epoch: i16,
    name: &PartitionName,
    row: &Row,
) -> Result<bool, AllocError>
    ensures { IfOk result (λ is. is ≡ decides_in producer epoch name.now row.now) }
{
    match row {
        Row::Record { sought, find, .. } => {
            if !is_decided_by(producer, epoch, sought) {
                return Ok(false);
            }
            lists(alloc, find, name)
        }
        _ => Ok(false),
    }
}

/// Whether the decision whose markers have this producer id and epoch lists a partition.
fn is_decided_in(
    alloc: Global,
    producer: i64,
    epoch: i16,
    name: &PartitionName,
    rows: &[Row],
) -> Result<bool, AllocError>
    ensures { IfOk result (λ is. is ≡ list_any (decides_in producer epoch name.now) rows.now) }
{
    for row in rows {
        if decides_in(alloc, producer, epoch, name, row)? {
            return Ok(true);
        }
    }
    Ok(false)
}

/// Whether this is the offsets log, and the transaction of the record at the fault's place the one whose decision lists this partition.
fn is_owed_by(
    alloc: Global,
    told: &Told<'_>,
    name: &PartitionName,
    producer: i64,
    epoch: i16,
) -> Result<bool, AllocError>
    ensures { IfOk result (λ is. is ≡ is_owed_by (option_copied told.now.place) told.now.rows.now name.now producer epoch) }
{
    if !is_of_offsets(name) || !has_writer(told.place, Some((producer, epoch)), told.rows) {
        return Ok(false);
    }
    let is = is_decided_in(alloc, producer, epoch_after(epoch), name, told.rows)?;
    Ok(is)
}

/// Whether the data that is wanted is a commit of the transaction of the record at the fault's place, whose decision lists this
/// partition.
pub(crate) fn is_owed(
    alloc: Global,
    told: &Told<'_>,
    name: &PartitionName,
    wanted: Wanted,
) -> Result<bool, AllocError>
    ensures { IfOk result (λ is. is ≡ is_owed (option_copied told.now.place) told.now.rows.now name.now wanted) }
{
    match wanted {
        Wanted::Data { producer, epoch } => {
            let is = is_owed_by(alloc, told, name, producer, epoch)?;
            Ok(is)
        }
        _ => Ok(false),
    }
}
