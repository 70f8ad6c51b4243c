//! Rows of batches.

ghost use Rattle.std.specs.Prelude.{◌≡◌, ◌≤◌, ◌-◌, ◌∷◌, [], List, IfOk, OnOk, All, length, slice_get};
ghost use Rattle.eos_base.specs.Members.{Has};
ghost use Rattle.eos_sought.specs.declared.partition.Placed.{Placed as Batch};
ghost use Rattle.eos_sought.specs.declared.wanted.Wanted.TheVariants.{Of};
ghost use Rattle.eos_sought.specs.Partitions.{AreBatchesOf};
ghost use Rattle.eos_story.specs.Answers.{StandInOrder, IsBatchRow, count_below};
ghost use Rattle.eos_story.specs.declared.row.Row.TheVariants.{Batch as BatchRow, First as FirstRow};
ghost use Rattle.eos_story.specs.Questions.{Around, Batches, FirstBatch};
ghost use Rattle.eos_story.specs.steps.Batches.{AreFound, AreMoreTold};
ghost use Rattle.eos_story.specs.steps.Seen.{OfAllSeen};
ghost use Rattle.eos_story.specs.steps.Telling.{Tells, TellsEach, IsNext};

use crate::copies::copy_name;
use crate::records::first_of;
use crate::row::{Row, add_row};
use crate::scene::Scene;
use crate::slices::around;
use eos_base::PartitionName;
use eos_sought::{Placed, Wanted, batches_of};
use std::alloc::AllocError;

/// How many touches of a producer id are shown before a place, and how many from it on.
const BEFORE: usize = 2;

const AFTER: usize = 3;

/// The batches of a partition that are wanted.
#[derive(Clone, Copy)]
pub(crate) struct Found<'a> {
    name: &'a PartitionName,
    wanted: Wanted,
    batches: &'a [Placed],
}

/// Adds the first batch of a partition that is wanted, and gives it.
pub(crate) fn push_first(
    scene: &Scene<'_>,
    rows: &mut Vec<Row>,
    name: &PartitionName,
    wanted: Wanted,
) -> Result<Option<Placed>, AllocError>
    ensures { IfOk result (λ placed. Tells scene.now rows.old.items rows.new.items (λ told. Has told (FirstRow name.now wanted placed))) }
{
    let found = batches_of(scene.alloc, scene.partitions, name, wanted)?;
    let placed = first_of(found.as_slice());
    let partition = copy_name(name)?;
    add_row(
        scene,
        rows,
        Row::First {
            partition,
            wanted,
            placed,
        },
    )?;
    Ok(placed)
}

/// Adds the first batch of a partition that is wanted.
pub(crate) fn push_one(
    scene: &Scene<'_>,
    rows: &mut Vec<Row>,
    name: &PartitionName,
    wanted: Wanted,
) -> Result<(), AllocError>
    ensures { OnOk result (TellsEach scene.now rows.old.items rows.new.items (FirstBatch name.now wanted ∷ [])) }
{
    push_first(scene, rows, name, wanted)?;
    Ok(())
}

fn push_batch(
    scene: &Scene<'_>,
    rows: &mut Vec<Row>,
    found: &Found<'_>,
    placed: Placed,
) -> Result<(), AllocError>
    requires found { AreFound scene.now found.now }
    requires has { Has found.now.batches.now placed }
    ensures { OnOk result (Tells scene.now rows.old.items rows.new.items (IsNext rows.old.items (BatchRow found.now.name.now found.now.wanted placed))) }
{
    let partition = copy_name(found.name)?;
    let wanted = found.wanted;
    add_row(
        scene,
        rows,
        Row::Batch {
            partition,
            wanted,
            placed,
        },
    )?;
    Ok(())
}

/// Those of them that are to be shown.
fn push_each(
    scene: &Scene<'_>,
    rows: &mut Vec<Row>,
    found: &Found<'_>,
    shown: &[Placed],
) -> Result<(), AllocError>
    requires found { AreFound scene.now found.now }
    requires have { All (Has found.now.batches.now) shown.now }
    ensures { OnOk result (Tells scene.now rows.old.items rows.new.items (StandInOrder (IsBatchRow found.now.name.now found.now.wanted) shown.now)) }
{
    for placed in shown {
        push_batch(scene, rows, found, *placed)?;
    }
    Ok(())
}

/// How many of these begin below an offset.
fn count_below(batches: &[Placed], offset: u64) -> usize
    ensures count { result ≡ count_below offset batches.now }
    ensures within { result ≤ length batches.now }
{
    let mut count = 0usize;
    for placed in batches {
        if placed.standing.head.offset < offset {
            count += 1;
        }
    }
    count
}

/// The last batch before a place of the list, or the first of all.
fn batch_before(batches: &[Placed], at: usize) -> Option<Placed>
    requires { at ≤ length batches.now }
    ensures { result ≡ slice_get batches.now (at - 1) }
{
    let before = at.saturating_sub(1);
    if before < batches.len() {
        return Some(batches[before]);
    }
    None
}

/// Adds the touches of a producer id around an offset of a partition, and how many more there are; and gives the last one before
/// the offset, or the first of all.
pub(crate) fn push_touches(
    scene: &Scene<'_>,
    rows: &mut Vec<Row>,
    name: &PartitionName,
    producer: i64,
    offset: u64,
) -> Result<Option<Placed>, AllocError>
    ensures { IfOk result (λ before. (found : List Batch) × OfAllSeen scene.now (λ ps. AreBatchesOf ps name.now (Of producer) found)
        × (before ≡ slice_get found (count_below offset found - 1)) × TellsEach scene.now rows.old.items rows.new.items (Around name.now (Of producer) offset ∷ [])) }
{
    let wanted = Wanted::Of { producer };
    let all = batches_of(scene.alloc, scene.partitions, name, wanted)?;
    let batches = all.as_slice();
    let found = Found {
        name,
        wanted,
        batches,
    };
    let at = count_below(batches, offset);
    let shown = around(batches, at, BEFORE, AFTER);
    push_each(scene, rows, &found, shown)?;
    push_more(scene, rows, &found, shown.len())?;
    Ok(batch_before(batches, at))
}

fn push_more(
    scene: &Scene<'_>,
    rows: &mut Vec<Row>,
    found: &Found<'_>,
    most: usize,
) -> Result<(), AllocError>
    requires { AreFound scene.now found.now }
    ensures { OnOk result (Tells scene.now rows.old.items rows.new.items (AreMoreTold found.now most)) }
{
    let all = found.batches.len();
    if most < all {
        let partition = copy_name(found.name)?;
        let wanted = found.wanted;
        add_row(
            scene,
            rows,
            Row::MoreBatches {
                partition,
                wanted,
                shown: most as u64,
                all: all as u64,
            },
        )?;
    }
    Ok(())
}

/// Adds the first batches of a partition that are wanted, so many at most, and how many more there are.
pub(crate) fn push_some(
    scene: &Scene<'_>,
    rows: &mut Vec<Row>,
    name: &PartitionName,
    wanted: Wanted,
    most: usize,
) -> Result<(), AllocError>
    ensures { OnOk result (TellsEach scene.now rows.old.items rows.new.items (Batches name.now wanted most ∷ [])) }
{
    let found = batches_of(scene.alloc, scene.partitions, name, wanted)?;
    let batches = found.as_slice();
    let found = Found {
        name,
        wanted,
        batches,
    };
    let shown = &batches[..most.min(batches.len())];
    push_each(scene, rows, &found, shown)?;
    push_more(scene, rows, &found, most)?;
    Ok(())
}
