//! Rows of a partition's end: where it was declared to end, and its segments, by their folds.

ghost use Rattle.std.specs.Prelude.{◌≡◌, ◌≢◌, ◌≤◌, ◌<◌, ◌-◌, ◌∷◌, [], OnOk, All, length};
ghost use Rattle.eos_base.specs.Members.{Has};
ghost use Rattle.eos_sought.specs.Folded.{IsNamedBy};
ghost use Rattle.eos_sought.specs.Partitions.{partition_named};
ghost use Rattle.eos_sought.specs.declared.wanted.Wanted.TheVariants.{Holding};
ghost use Rattle.eos_story.specs.Answers.{StandInOrder, IsFirstShown, AreSegmentsShown};
ghost use Rattle.eos_story.specs.declared.row.Row.TheVariants.{Segment as SegmentRow, MoreSegments, End as EndRow};
ghost use Rattle.eos_story.specs.Questions.{Ends};
ghost use Rattle.eos_story.specs.steps.Ends.{begin_of, folds_begun, IsFoldRow, AreFoldsAround};
ghost use Rattle.eos_story.specs.steps.Seen.{OfAllSeen};
ghost use Rattle.eos_story.specs.steps.Telling.{Tells, TellsEach, IsNext};

use crate::batches::push_first;
use crate::copies::copy_name;
use crate::row::{Row, add_row};
use crate::scene::Scene;
use crate::slices::around;
use eos_base::PartitionName;
use eos_fold_file::FoldFile;
use eos_sought::{Folded, Wanted, folded_named};
use std::alloc::AllocError;

/// Where the segment of a fold begins, which is its name.
fn begin_of(fold: &FoldFile) -> u64
    ensures { result ≡ begin_of fold.now }
{
    fold.base.unsigned_abs()
}

/// How many of these segments begin at an offset or before it.
fn count_begun(folds: &[FoldFile], offset: u64) -> usize
    ensures count { result ≡ folds_begun offset folds.now }
    ensures within { result ≤ length folds.now }
{
    let mut count = 0usize;
    for fold in folds {
        if begin_of(fold) <= offset {
            count += 1;
        }
    }
    count
}

fn push_segment(
    scene: &Scene<'_>,
    rows: &mut Vec<Row>,
    name: &PartitionName,
    partition: &Folded,
    fold: &FoldFile,
) -> Result<(), AllocError>
    requires named { OfAllSeen scene.now (λ ps. IsNamedBy ps name.now partition.now) }
    requires has { Has partition.now.folds.items fold.now }
    ensures { OnOk result (Tells scene.now rows.old.items rows.new.items (IsNext rows.old.items (SegmentRow name.now (begin_of fold.now) fold.now.bytes))) }
{
    let base = begin_of(fold);
    let size = fold.bytes;
    let partition = copy_name(name)?;
    add_row(
        scene,
        rows,
        Row::Segment {
            partition,
            base,
            size,
        },
    )?;
    Ok(())
}

/// These of its segments.
fn push_each(
    scene: &Scene<'_>,
    rows: &mut Vec<Row>,
    name: &PartitionName,
    partition: &Folded,
    folds: &[FoldFile],
) -> Result<(), AllocError>
    requires named { OfAllSeen scene.now (λ ps. IsNamedBy ps name.now partition.now) }
    requires have { All (Has partition.now.folds.items) folds.now }
    ensures { OnOk result (Tells scene.now rows.old.items rows.new.items (StandInOrder (IsFoldRow name.now) folds.now)) }
{
    for fold in folds {
        push_segment(scene, rows, name, partition, fold)?;
    }
    Ok(())
}

/// How many segments a partition has, where there are more than are shown.
fn push_more(
    scene: &Scene<'_>,
    rows: &mut Vec<Row>,
    name: &PartitionName,
    partition: &Folded,
    shown: usize,
) -> Result<(), AllocError>
    requires { OfAllSeen scene.now (λ ps. IsNamedBy ps name.now partition.now) }
    ensures { OnOk result (Tells scene.now rows.old.items rows.new.items (λ told. shown < length partition.now.folds.items
        → Has told (MoreSegments name.now shown (length partition.now.folds.items)))) }
{
    let all = partition.folds.as_slice().len();
    if shown < all {
        let partition = copy_name(name)?;
        add_row(
            scene,
            rows,
            Row::MoreSegments {
                partition,
                shown: shown as u64,
                all: all as u64,
            },
        )?;
    }
    Ok(())
}

/// The segments around an offset: the last that begins there or before, the one before it, and the next; and how many more there
/// are.
fn push_segments(
    scene: &Scene<'_>,
    rows: &mut Vec<Row>,
    name: &PartitionName,
    partition: &Folded,
    offset: u64,
) -> Result<(), AllocError>
    requires { OfAllSeen scene.now (λ ps. IsNamedBy ps name.now partition.now) }
    ensures { OnOk result (Tells scene.now rows.old.items rows.new.items (AreFoldsAround name.now offset partition.now.folds.items)) }
{
    let folds = partition.folds.as_slice();
    let begun = count_begun(folds, offset);
    let shown = around(folds, begun, 2, 1);
    push_each(scene, rows, name, partition, shown)?;
    push_more(scene, rows, name, partition, shown.len())?;
    Ok(())
}

fn push_end(
    scene: &Scene<'_>,
    rows: &mut Vec<Row>,
    name: &PartitionName,
    partition: &Folded,
) -> Result<(), AllocError>
    requires { OfAllSeen scene.now (λ ps. IsNamedBy ps name.now partition.now) }
    ensures { OnOk result (Tells scene.now rows.old.items rows.new.items (λ told. Has told (EndRow name.now partition.now.end.end))) }
{
    let end = partition.end.end;
    let partition = copy_name(name)?;
    add_row(scene, rows, Row::End { partition, end })?;
    Ok(())
}

/// The batch that holds the record before an offset.
fn push_last(
    scene: &Scene<'_>,
    rows: &mut Vec<Row>,
    name: &PartitionName,
    offset: u64,
) -> Result<(), AllocError>
    ensures { OnOk result (Tells scene.now rows.old.items rows.new.items (λ told. offset ≢ 0 → IsFirstShown name.now (Holding (offset - 1)) told)) }
{
    if offset == 0 {
        return Ok(());
    }
    let wanted = Wanted::Holding { offset: offset - 1 };
    push_first(scene, rows, name, wanted)?;
    Ok(())
}

/// Where the partition is declared to end, and its segments around an offset; nothing where there is no such partition.
fn push_rest(
    scene: &Scene<'_>,
    rows: &mut Vec<Row>,
    name: &PartitionName,
    offset: u64,
) -> Result<(), AllocError>
    ensures { OnOk result (Tells scene.now rows.old.items rows.new.items (λ told. OfAllSeen scene.now (λ ps. AreSegmentsShown name.now offset (partition_named name.now ps) told))) }
{
    match folded_named(scene.partitions, name) {
        None => Ok(()),
        Some(partition) => {
            push_end(scene, rows, name, partition)?;
            push_segments(scene, rows, name, partition, offset)?;
            Ok(())
        }
    }
}

/// Adds the last batch before an offset of a partition, where the partition is declared to end, and its segments around there.
pub(crate) fn push_place(
    scene: &Scene<'_>,
    rows: &mut Vec<Row>,
    name: &PartitionName,
    offset: u64,
) -> Result<(), AllocError>
    ensures { OnOk result (TellsEach scene.now rows.old.items rows.new.items (Ends name.now offset ∷ [])) }
{
    push_last(scene, rows, name, offset)?;
    push_rest(scene, rows, name, offset)?;
    Ok(())
}
