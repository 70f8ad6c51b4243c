//! The rows of a picture: what its transactions did in a partition.

ghost use Rattle.std.specs.Prelude.{◌++◌, IfOk, OnOk};
ghost use Rattle.eos_base.specs.Members.{Has};
ghost use Rattle.eos_fold.specs.declared.item.Item.{Item};
ghost use Rattle.eos_picture.specs.Marks.{AreTrue, IsTrueRow, HasTrueRows};
ghost use Rattle.eos_picture.specs.Signs.{IsOf};
ghost use Rattle.eos_picture.specs.Whole.{ShowsRecord, IsWhole, IsCovered, HasWholeRows};
ghost use Rattle.eos_picture.specs.steps.Kept.{Keeps};

use crate::acts::push_acts;
use crate::growing::put;
use crate::mark::{Mark, Row, Sign};
use crate::marks::{Scene, push_mark, push_spots};
use crate::passes::commit_of;
use crate::spots::name_of;
use crate::window::column_of;
use bytes::Bytes;
use eos_base::PartitionName;
use eos_kept::{ItemRef, Part};
use eos_sought::is_of_offsets_log;
use eos_table::is_of_transaction_log;
use std::alloc::{AllocError, Global};

// ---- the signs

/// What a data record is, in a partition of the offsets log or not.
fn sign_of(alloc: Global, of_offsets_log: bool, item: &ItemRef<'_>) -> Result<Sign, AllocError>
    ensures { IfOk result (IsOf item.now) }
{
    let offset = item.offset();
    let fate = item.fate();
    if !of_offsets_log {
        return Ok(Sign::Record { offset, fate });
    }
    match commit_of(item) {
        None => Ok(Sign::Record { offset, fate }),
        Some((key, committed)) => Ok(Sign::Commit {
            offset,
            fate,
            source: PartitionName {
                topic: Bytes::copy_from_slice(alloc, key.topic)?,
                partition: key.partition,
            },
            committed,
        }),
    }
}

fn push_record(
    alloc: Global,
    marks: &mut Vec<Mark>,
    scene: Scene<'_>,
    part: &Part,
    item: &ItemRef<'_>,
) -> Result<(), AllocError>
    requires { Has part.now.items item.now }
    ensures so { AreTrue part.now scene.entry.columns.now marks.old.items → OnOk result (AreTrue part.now scene.entry.columns.now marks.new.items) }
    ensures keeps { OnOk result (Keeps marks.old.items marks.new.items) }
    ensures shows { OnOk result (ShowsRecord scene.entry.columns.now marks.new.items item.now) }
{
    let Some(writer) = item.writer() else {
        return Ok(());
    };
    let Some(column) = column_of(scene.columns, writer) else {
        return Ok(());
    };
    let sign = sign_of(alloc, is_of_offsets_log(part), item)?;
    push_mark(marks, scene, part, column, sign)
}

fn push_records(
    alloc: Global,
    marks: &mut Vec<Mark>,
    scene: Scene<'_>,
    part: &Part,
) -> Result<(), AllocError>
    ensures so { AreTrue part.now scene.entry.columns.now marks.old.items → OnOk result (AreTrue part.now scene.entry.columns.now marks.new.items) }
    ensures keeps { OnOk result (Keeps marks.old.items marks.new.items) }
    ensures shows { OnOk result ((x : Item) → Has part.now.items x → ShowsRecord scene.entry.columns.now marks.new.items x) }
{
    let mut items = part.items().cursor();
    while let Some(item) = items.next() {
        push_record(alloc, marks, scene, part, &item)?;
    }
    Ok(())
}

fn push_passes(marks: &mut Vec<Mark>, scene: Scene<'_>, part: &Part) -> Result<(), AllocError>
    ensures so { AreTrue part.now scene.entry.columns.now marks.old.items → OnOk result (AreTrue part.now scene.entry.columns.now marks.new.items) }
    ensures keeps { OnOk result (Keeps marks.old.items marks.new.items) }
{
    for pass in scene.passes {
        if part.topic().as_slice() == pass.topic && part.partition() == pass.partition {
            let sign = Sign::Passed {
                fate: pass.fate,
                from: pass.from,
                to: pass.to,
            };
            push_mark(marks, scene, part, pass.column, sign)?;
        }
    }
    Ok(())
}

// ---- rows

fn row_of(alloc: Global, scene: Scene<'_>, part: &Part) -> Result<Row, AllocError>
    ensures so { IfOk result (IsTrueRow part.now scene.entry.columns.now) }
    ensures whole { IfOk result (λ row. IsWhole part.now scene.entry.columns.now row.marks.items) }
{
    let mut marks = Vec::new(alloc);
    push_records(alloc, &mut marks, scene, part)?;
    push_passes(&mut marks, scene, part)?;
    push_acts(&mut marks, scene, part)?;
    push_spots(&mut marks, scene, part)?;
    Ok(Row {
        name: name_of(part)?,
        marks,
    })
}

fn is_internal(part: &Part) -> bool {
    is_of_offsets_log(part) || is_of_transaction_log(part)
}

/// Puts the row of a partition at the end, if it has a mark.
fn push_row(
    alloc: Global,
    rows: &mut Vec<Row>,
    scene: Scene<'_>,
    part: &Part,
) -> Result<(), AllocError>
    requires { Has scene.logs.now part.now }
    ensures so { HasTrueRows scene.entry.logs.now scene.entry.columns.now rows.old.items → OnOk result (HasTrueRows scene.entry.logs.now scene.entry.columns.now rows.new.items) }
    ensures keeps { OnOk result (Keeps rows.old.items rows.new.items) }
    ensures whole { OnOk result (IsCovered scene.entry.columns.now rows.new.items part.now) }
{
    let row = row_of(alloc, scene, part)?;
    if row.marks.is_empty() {
        drop(row);
        return Ok(());
    }
    put(rows, row)
}

/// Puts the row of a partition behind those of Kafka's internal topics, if it is one of these, or else behind the others.
fn push_row_to(
    alloc: Global,
    rows: &mut Vec<Row>,
    internal: &mut Vec<Row>,
    scene: Scene<'_>,
    part: &Part,
) -> Result<(), AllocError>
    requires { Has scene.logs.now part.now }
    ensures so { HasTrueRows scene.entry.logs.now scene.entry.columns.now rows.old.items → OnOk result (HasTrueRows scene.entry.logs.now scene.entry.columns.now rows.new.items) }
    ensures so_internal { HasTrueRows scene.entry.logs.now scene.entry.columns.now internal.old.items → OnOk result (HasTrueRows scene.entry.logs.now scene.entry.columns.now internal.new.items) }
    ensures keeps { OnOk result (Keeps rows.old.items rows.new.items) }
    ensures keeps_internal { OnOk result (Keeps internal.old.items internal.new.items) }
    ensures whole { OnOk result (IsCovered scene.entry.columns.now (rows.new.items ++ internal.new.items) part.now) }
{
    if is_internal(part) {
        push_row(alloc, internal, scene, part)?;
        return Ok(());
    }
    push_row(alloc, rows, scene, part)?;
    Ok(())
}

/// A row for each partition in which one of the transactions did something or the fault has a place: those of Kafka's internal
/// topics last, and else by name.
///
/// # Errors
/// Only want of memory.
pub(crate) fn rows_of(alloc: Global, scene: Scene<'_>) -> Result<Vec<Row>, AllocError>
    ensures so { IfOk result (λ rows. HasTrueRows scene.entry.logs.now scene.entry.columns.now rows.items) }
    ensures whole { IfOk result (λ rows. HasWholeRows scene.entry.logs.now scene.entry.columns.now rows.items) }
{
    let mut rows = Vec::new(alloc);
    let mut internal = Vec::new(alloc);
    for part in scene.logs {
        push_row_to(alloc, &mut rows, &mut internal, scene, part)?;
    }
    rows.append(&mut internal)?;
    Ok(rows)
}
