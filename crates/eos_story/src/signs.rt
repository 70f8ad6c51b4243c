//! What the rows of a story show together.

ghost use Rattle.std.specs.Prelude.{◌≡◌, IfOk, None};
ghost use Rattle.std.specs.List.{list_any};
ghost use Rattle.std.specs.Option.{option_copied};
ghost use Rattle.eos_story.specs.GroupCommits.{is_passed, lacks_passing};
ghost use Rattle.eos_story.specs.Signs.{is_twin, is_of_layout, is_of_none, lacks_producer, by_record, says_complete, is_due, is_lost, by_first, is_touch, ends_older, is_behind_older, is_behind, by_batch, is_segment, is_segment_below, by_segment, by_end, bears, bearer_in, bearer};

use crate::moves::{is_back, is_last_for_next, is_owed, is_passing};
use crate::names::is_there;
use crate::twins::{completes, is_twin_of};
use crate::{Row, epoch_after};
use eos_base::PartitionName;
use eos_batch::BatchHead;
use eos_claims::Place;
use eos_sought::{Find, Placed, Sought, Wanted};
use eos_text::Sign;
use std::alloc::{AllocError, Global};

/// The place of a fault, and the rows that are told of it.
#[derive(Clone, Copy)]
pub struct Told<'a> {
    pub place: Option<&'a Place>,
    pub rows: &'a [Row],
}

// ---- records

fn is_twin(alloc: Global, find: &Find, row: &Row) -> Result<bool, AllocError>
    ensures { IfOk result (λ is. is ≡ is_twin find.now row.now) }
{
    match row {
        Row::Record { find: other, .. } => is_twin_of(alloc, find, other),
        _ => Ok(false),
    }
}

fn has_twin(alloc: Global, find: &Find, rows: &[Row]) -> Result<bool, AllocError>
    ensures { IfOk result (λ has. has ≡ list_any (is_twin find.now) rows.now) }
{
    for row in rows {
        if is_twin(alloc, find, row)? {
            return Ok(true);
        }
    }
    Ok(false)
}

fn is_passed(sought: &Sought) -> bool
    ensures { result ≡ is_passed sought.now }
{
    matches!(sought, Sought::Passed(_))
}

fn is_of_layout(sought: &Sought) -> bool
    ensures { result ≡ is_of_layout sought.now }
{
    matches!(sought, Sought::Alike { .. })
}

fn lacks_passing(row: &Row) -> bool
    ensures { result ≡ lacks_passing row.now }
{
    match row {
        Row::NoRecord { sought } => is_passing(sought),
        _ => false,
    }
}

/// Whether a row says that no commit of the group goes past the input.
fn has_none_passing(rows: &[Row]) -> bool
    ensures { result ≡ list_any lacks_passing rows.now }
{
    for row in rows {
        if lacks_passing(row) {
            return true;
        }
    }
    false
}

fn is_of_none(writer: Option<(i64, i16)>) -> bool
    ensures { result ≡ is_of_none writer }
{
    match writer {
        None => true,
        Some(_) => false,
    }
}

fn lacks_producer(spot: Option<Placed>) -> bool
    ensures { result ≡ lacks_producer spot }
{
    match spot {
        None => false,
        Some(placed) => placed.standing.head.producer < 0,
    }
}

fn by_record(
    alloc: Global,
    told: &Told<'_>,
    sign: Sign,
    sought: &Sought,
    found: (&Find, Option<Placed>),
) -> Result<bool, AllocError>
    ensures { IfOk result (λ is. is ≡ by_record sign (option_copied told.now.place) told.now.rows.now sought.now found.entry.0.now found.entry.1) }
{
    let (find, spot) = found;
    let there = is_there(told.place, &find.partition, find.item.offset);
    match sign {
        Sign::OneTransaction => {
            if !there {
                return Ok(false);
            }
            has_twin(alloc, find, told.rows)
        }
        Sign::OutsideTransactions => Ok(there && is_of_none(find.item.writer)),
        Sign::NoProducer => Ok(there && lacks_producer(spot)),
        Sign::OtherGroup => Ok(is_passed(sought) && has_none_passing(told.rows)),
        Sign::MovedBack => Ok(is_back(sought, find, told.rows)),
        Sign::LastForNext => Ok(is_last_for_next(told.place, sought, find, told.rows)),
        Sign::PlainCommit => Ok(is_passing(sought) && is_of_none(find.item.writer)),
        Sign::OtherLayout => Ok(is_of_layout(sought)),
        _ => Ok(false),
    }
}

// ---- end markers

fn says_complete(alloc: Global, producer: i64, epoch: i16, row: &Row) -> Result<bool, AllocError>
    ensures { IfOk result (λ is. is ≡ says_complete producer epoch row.now) }
{
    match row {
        Row::Record { find, .. } => completes(alloc, producer, epoch, find),
        _ => Ok(false),
    }
}

fn is_said_complete(
    alloc: Global,
    producer: i64,
    epoch: i16,
    rows: &[Row],
) -> Result<bool, AllocError>
    ensures { IfOk result (λ is. is ≡ list_any (says_complete producer epoch) rows.now) }
{
    for row in rows {
        if says_complete(alloc, producer, epoch, row)? {
            return Ok(true);
        }
    }
    Ok(false)
}

fn is_due(alloc: Global, wanted: Wanted, rows: &[Row]) -> Result<bool, AllocError>
    ensures { IfOk result (λ is. is ≡ is_due wanted rows.now) }
{
    match wanted {
        Wanted::Marking { producer, epoch } => is_said_complete(alloc, producer, epoch, rows),
        _ => Ok(false),
    }
}

fn is_lost(
    alloc: Global,
    told: &Told<'_>,
    sign: Sign,
    name: &PartitionName,
    wanted: Wanted,
) -> Result<bool, AllocError>
    ensures { IfOk result (λ is. is ≡ is_lost sign (option_copied told.now.place) told.now.rows.now name.now wanted) }
{
    match sign {
        Sign::LostCommit => is_owed(alloc, told, name, wanted),
        Sign::LostMarker => is_due(alloc, wanted, told.rows),
        _ => Ok(false),
    }
}

fn by_first(
    alloc: Global,
    told: &Told<'_>,
    sign: Sign,
    name: &PartitionName,
    first: (Wanted, Option<Placed>),
) -> Result<bool, AllocError>
    ensures { IfOk result (λ is. is ≡ by_first sign (option_copied told.now.place) told.now.rows.now name.now first.0 first.1) }
{
    let (wanted, placed) = first;
    match placed {
        None => is_lost(alloc, told, sign, name, wanted),
        Some(_) => Ok(false),
    }
}

fn is_touch(wanted: Wanted) -> bool
    ensures { result ≡ is_touch wanted }
{
    matches!(wanted, Wanted::Of { .. })
}

fn ends_older(older: BatchHead, marker: BatchHead) -> bool
    ensures { result ≡ ends_older older marker }
{
    older.is_transactional
        && !older.is_control
        && marker.is_control
        && epoch_after(older.epoch) < marker.epoch
}

fn is_behind_older(before: &Row, marker: BatchHead) -> bool
    ensures { result ≡ is_behind_older before.now marker }
{
    match before {
        Row::Batch { wanted, placed, .. } => {
            is_touch(*wanted) && ends_older(placed.standing.head, marker)
        }
        _ => false,
    }
}

fn is_behind(before: Option<&Row>, marker: BatchHead) -> bool
    ensures { result ≡ is_behind (option_copied before.entry) marker }
{
    match before {
        None => false,
        Some(row) => is_behind_older(row, marker),
    }
}

fn by_batch(sign: Sign, before: Option<&Row>, wanted: Wanted, placed: Placed) -> bool
    ensures { result ≡ by_batch sign (option_copied before.entry) wanted placed }
{
    match sign {
        Sign::AnothersMarker => is_touch(wanted) && is_behind(before, placed.standing.head),
        _ => false,
    }
}

// ---- segments and ends

fn is_segment(row: &Row) -> bool
    ensures { result ≡ is_segment row.now }
{
    matches!(row, Row::Segment { .. })
}

fn has_segment(rows: &[Row]) -> bool
    ensures { result ≡ list_any is_segment rows.now }
{
    for row in rows {
        if is_segment(row) {
            return true;
        }
    }
    false
}

fn is_segment_below(offset: u64, row: &Row) -> bool
    ensures { result ≡ is_segment_below offset row.now }
{
    match row {
        Row::Segment { base, .. } => *base < offset,
        _ => false,
    }
}

fn has_segment_below(offset: u64, rows: &[Row]) -> bool
    ensures { result ≡ list_any (is_segment_below offset) rows.now }
{
    for row in rows {
        if is_segment_below(offset, row) {
            return true;
        }
    }
    false
}

fn by_segment(told: &Told<'_>, sign: Sign, base: u64, size: u64) -> bool
    ensures { result ≡ by_segment sign (option_copied told.now.place) told.now.rows.now base size }
{
    let Some(place) = told.place else {
        return false;
    };
    match sign {
        Sign::Renamed => base == place.offset && size > 0,
        Sign::BeginsLater => {
            place.offset == 0 && base > 0 && !has_segment_below(base, told.rows)
        }
        _ => false,
    }
}

fn by_end(told: &Told<'_>, sign: Sign, end: i64) -> bool
    ensures { result ≡ by_end sign (option_copied told.now.place) told.now.rows.now end }
{
    let Some(place) = told.place else {
        return false;
    };
    match sign {
        Sign::EndsLater => end < 0 || end.unsigned_abs() < place.offset,
        Sign::EndsEarlier => end > 0 && end.unsigned_abs() > place.offset,
        Sign::NoSegment => !has_segment(told.rows),
        _ => false,
    }
}

// ---- all

fn bears(
    alloc: Global,
    told: &Told<'_>,
    sign: Sign,
    before: Option<&Row>,
    row: &Row,
) -> Result<bool, AllocError>
    ensures { IfOk result (λ is. is ≡ bears sign (option_copied told.now.place) told.now.rows.now (option_copied before.entry) row.now) }
{
    match row {
        Row::Record { sought, find, spot } => by_record(alloc, told, sign, sought, (find, *spot)),
        Row::Batch { wanted, placed, .. } => Ok(by_batch(sign, before, *wanted, *placed)),
        Row::First {
            partition,
            wanted,
            placed,
        } => by_first(alloc, told, sign, partition, (*wanted, *placed)),
        Row::Segment { base, size, .. } => Ok(by_segment(told, sign, *base, *size)),
        Row::End { end, .. } => Ok(by_end(told, sign, *end)),
        _ => Ok(false),
    }
}

/// The first of these rows that bears a sign.
fn bearer_in<'a>(
    alloc: Global,
    sign: Sign,
    told: &Told<'_>,
    rows: &'a [Row],
) -> Result<Option<&'a Row>, AllocError>
    ensures { IfOk result (λ found. option_copied found ≡ bearer_in sign (option_copied told.now.place) told.now.rows.now None rows.now) }
{
    let mut before = None;
    for row in rows {
        if bears(alloc, told, sign, before, row)? {
            return Ok(Some(row));
        }
        before = Some(row);
    }
    Ok(None)
}

/// The row that shows a sign, if one does.
pub fn bearer<'a>(alloc: Global, sign: Sign, told: &Told<'a>) -> Result<Option<&'a Row>, AllocError>
    ensures { IfOk result (λ found. option_copied found ≡ bearer sign (option_copied told.now.place) told.now.rows.now) }
{
    bearer_in(alloc, sign, told, told.rows)
}
