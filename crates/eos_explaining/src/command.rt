//! The command to run next: the dump of the place that a story rests on, or of a segment, or the listing of a folder.

ghost use Rattle.std.specs.Prelude.{◌≡◌, OnOk, string_bytes};
ghost use Rattle.std.specs.Option.{option_copied};
ghost use Rattle.eos_text.specs.Adding.{Adds};
ghost use Rattle.eos_explaining.specs.Commands.{offset_after, span_text, place_command, spot_command, first_command, segment_command, folder_command, row_command, is_spotted, is_fault_row, spotted, fault_row, is_end_row, ended, command_of, known_command, fault_command, command_line};

use crate::paths::{push_partition_path, push_path};
use eos_base::PartitionName;
use eos_claims::Place;
use eos_sought::Placed;
use eos_story::{Row, Told, is_there};
use eos_text::{push_text, push_value};
use std::alloc::{AllocError, Global};

fn offset_after(offset: u64) -> u64
    ensures { result ≡ offset_after offset }
{
    offset.saturating_add(1)
}

fn push_span(out: &mut String, from: &u64, to: &u64) -> Result<(), AllocError>
    ensures { OnOk result (Adds (string_bytes out.old) (string_bytes out.new) (span_text from.now to.now)) }
{
    push_value(out, "Run: eoscheck dump --decode --from ", from)?;
    push_value(out, " --to ", to)?;
    push_text(out, " ")
}

/// Adds the dump of the record at an offset of a partition, which stands in this segment.
#[tactic(auto, unfolding(crate::specs::Commands::place_command))]
fn push_place_command(
    alloc: Global,
    out: &mut String,
    folder: &str,
    at: (&PartitionName, u64),
    segment: i64,
) -> Result<(), AllocError>
    ensures { OnOk result (Adds (string_bytes out.old) (string_bytes out.new) (place_command folder.now at.entry.0.now at.entry.1 segment)) }
{
    let (name, offset) = at;
    push_span(out, &offset, &offset_after(offset))?;
    push_path(alloc, out, folder, name, segment.unsigned_abs())?;
    push_text(out, "\n")?;
    Ok(())
}

fn push_spot_command(
    alloc: Global,
    out: &mut String,
    folder: &str,
    at: (&PartitionName, u64),
    spot: Option<Placed>,
) -> Result<(), AllocError>
    ensures { OnOk result (Adds (string_bytes out.old) (string_bytes out.new) (spot_command folder.now at.entry.0.now at.entry.1 spot)) }
{
    match spot {
        None => push_text(out, ""),
        Some(placed) => push_place_command(alloc, out, folder, at, placed.segment),
    }
}

fn push_first_command(
    alloc: Global,
    out: &mut String,
    folder: &str,
    name: &PartitionName,
    placed: Option<Placed>,
) -> Result<(), AllocError>
    ensures { OnOk result (Adds (string_bytes out.old) (string_bytes out.new) (first_command folder.now name.now placed)) }
{
    match placed {
        None => push_text(out, ""),
        Some(placed) => {
            let at = (name, placed.standing.head.offset);
            push_place_command(alloc, out, folder, at, placed.segment)
        }
    }
}

/// Adds the dump of a whole segment.
fn push_segment_command(
    alloc: Global,
    out: &mut String,
    folder: &str,
    name: &PartitionName,
    base: u64,
) -> Result<(), AllocError>
    ensures { OnOk result (Adds (string_bytes out.old) (string_bytes out.new) (segment_command folder.now name.now base)) }
{
    push_text(out, "Run: eoscheck dump ")?;
    push_path(alloc, out, folder, name, base)?;
    push_text(out, "\n")
}

/// Adds the listing of a partition's folder.
fn push_folder_command(
    alloc: Global,
    out: &mut String,
    folder: &str,
    name: &PartitionName,
) -> Result<(), AllocError>
    ensures { OnOk result (Adds (string_bytes out.old) (string_bytes out.new) (folder_command folder.now name.now)) }
{
    push_text(out, "Run: ls -l ")?;
    push_partition_path(alloc, out, folder, name)?;
    push_text(out, "\n")
}

/// Whether the segment is known that holds what a row is of.
fn is_spotted(row: &Row) -> bool
    ensures { result ≡ is_spotted row.now }
{
    match row {
        Row::Record { spot, .. } => spot.is_some(),
        Row::Batch { .. } => true,
        Row::First { placed, .. } => placed.is_some(),
        Row::Segment { .. } => true,
        _ => false,
    }
}

fn is_fault_row(place: Option<&Place>, row: &Row) -> bool
    ensures { result ≡ is_fault_row (option_copied place.entry) row.now }
{
    match row {
        Row::Record { find, spot, .. } => {
            spot.is_some() && is_there(place, &find.partition, find.item.offset)
        }
        Row::Batch {
            partition,
            placed,
            ..
        } => is_there(place, partition, placed.standing.head.offset),
        _ => false,
    }
}

/// The first row of which it is known.
fn spotted<'a>(rows: &'a [Row]) -> Option<&'a Row>
    ensures { option_copied result ≡ spotted rows.now }
{
    for row in rows {
        if is_spotted(row) {
            return Some(row);
        }
    }
    None
}

/// The first row of the fault's place of which it is known.
fn fault_row<'a>(place: Option<&Place>, rows: &'a [Row]) -> Option<&'a Row>
    ensures { option_copied result ≡ fault_row (option_copied place.entry) rows.now }
{
    for row in rows {
        if is_fault_row(place, row) {
            return Some(row);
        }
    }
    None
}

fn is_end_row(row: &Row) -> bool
    ensures { result ≡ is_end_row row.now }
{
    matches!(row, Row::End { .. })
}

/// The first end of a partition.
fn ended<'a>(rows: &'a [Row]) -> Option<&'a Row>
    ensures { option_copied result ≡ ended rows.now }
{
    for row in rows {
        if is_end_row(row) {
            return Some(row);
        }
    }
    None
}

fn push_row_command(
    alloc: Global,
    out: &mut String,
    folder: &str,
    row: &Row,
) -> Result<(), AllocError>
    ensures { OnOk result (Adds (string_bytes out.old) (string_bytes out.new) (row_command folder.now row.now)) }
{
    match row {
        Row::Record { find, spot, .. } => {
            let at = (&find.partition, find.item.offset);
            push_spot_command(alloc, out, folder, at, *spot)
        }
        Row::Batch {
            partition,
            placed,
            ..
        } => {
            let at = (partition, placed.standing.head.offset);
            push_place_command(alloc, out, folder, at, placed.segment)
        }
        Row::First {
            partition,
            placed,
            ..
        } => push_first_command(alloc, out, folder, partition, *placed),
        Row::Segment {
            partition,
            base,
            ..
        } => push_segment_command(alloc, out, folder, partition, *base),
        Row::End { partition, .. } => push_folder_command(alloc, out, folder, partition),
        _ => push_text(out, ""),
    }
}

fn push_command_of(
    alloc: Global,
    out: &mut String,
    folder: &str,
    row: Option<&Row>,
) -> Result<(), AllocError>
    ensures { OnOk result (Adds (string_bytes out.old) (string_bytes out.new) (command_of folder.now (option_copied row.entry))) }
{
    match row {
        None => push_text(out, ""),
        Some(row) => push_row_command(alloc, out, folder, row),
    }
}

/// Adds the dump of the row that shows the case, where its place is known, or else what the fault's place gives.
pub(crate) fn push_command(
    alloc: Global,
    out: &mut String,
    folder: &str,
    told: &Told<'_>,
    shown: Option<&Row>,
) -> Result<(), AllocError>
    ensures { OnOk result (Adds (string_bytes out.old) (string_bytes out.new) (command_line folder.now (option_copied told.now.place) told.now.rows.now (option_copied shown.entry))) }
{
    match shown {
        None => push_fault_command(alloc, out, folder, told),
        Some(row) => {
            if is_spotted(row) {
                push_row_command(alloc, out, folder, row)
            } else {
                push_fault_command(alloc, out, folder, told)
            }
        }
    }
}

/// Adds what the first place gives that is known, or else the end of a partition of which none is.
fn push_known_command(
    alloc: Global,
    out: &mut String,
    folder: &str,
    rows: &[Row],
) -> Result<(), AllocError>
    ensures { OnOk result (Adds (string_bytes out.old) (string_bytes out.new) (known_command folder.now (spotted rows.now) rows.now)) }
{
    match spotted(rows) {
        Some(row) => push_row_command(alloc, out, folder, row),
        None => push_command_of(alloc, out, folder, ended(rows)),
    }
}

/// Adds the dump of the fault's place, or else what is known.
fn push_fault_command(
    alloc: Global,
    out: &mut String,
    folder: &str,
    told: &Told<'_>,
) -> Result<(), AllocError>
    ensures { OnOk result (Adds (string_bytes out.old) (string_bytes out.new) (fault_command folder.now (option_copied told.now.place) told.now.rows.now)) }
{
    match fault_row(told.place, told.rows) {
        Some(row) => push_row_command(alloc, out, folder, row),
        None => push_known_command(alloc, out, folder, told.rows),
    }
}
