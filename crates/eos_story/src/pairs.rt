//! Which rows the fault of one partition's log has.

ghost use Rattle.std.specs.Prelude.{◌≡◌, OnOk};
ghost use Rattle.eos_story.specs.Questions.{ending, ending_epoch, between, of_open};
ghost use Rattle.eos_story.specs.Wholeness.{IsPairTold, IsOpenTold, IsPartitionTold, last_end};
ghost use Rattle.eos_story.specs.steps.Seen.{OfAllSeen};
ghost use Rattle.eos_story.specs.steps.Telling.{Tells, TellsEach};
ghost use Rattle.eos_sought.specs.declared.wanted.Wanted.TheVariants.{Ending};
ghost use Rattle.eos_sought.specs.declared.partition.Placed.{Placed as Batch};
ghost use Rattle.eos_sought.specs.Partitions.{AreBatchesOf};
ghost use Rattle.std.specs.Prelude.{IfOk, List};

use crate::batches::{push_first, push_some, push_touches};
use crate::decisions::{epoch_after, push_listing, push_markers};
use crate::ends::push_place;
use crate::row::Row;
use crate::scene::Scene;
use crate::states::{push_last, push_near};
use eos_base::PartitionName;
use eos_batch::BatchHead;
use eos_sought::{Placed, Wanted, batches_of};
use eos_touch::{PartitionFault, PartitionFaultKind};
use std::alloc::AllocError;

fn ending_epoch(head: BatchHead) -> i16
    ensures { result ≡ ending_epoch head }
{
    if head.is_control {
        head.epoch
    } else {
        epoch_after(head.epoch)
    }
}

/// The decision that ended, or has to end, the transaction of a batch.
fn push_ending(
    scene: &Scene<'_>,
    rows: &mut Vec<Row>,
    producer: i64,
    batch: Option<Placed>,
) -> Result<(), AllocError>
    ensures { OnOk result (TellsEach scene.now rows.old.items rows.new.items (ending scene.now.logs.now producer batch)) }
{
    let Some(batch) = batch else {
        return Ok(());
    };
    let head = batch.standing.head;
    if !head.is_transactional {
        return Ok(());
    }
    push_listing(scene, rows, producer, ending_epoch(head))?;
    Ok(())
}

fn push_between(
    scene: &Scene<'_>,
    rows: &mut Vec<Row>,
    name: &PartitionName,
    before: Option<Placed>,
    offset: u64,
) -> Result<(), AllocError>
    ensures { OnOk result (TellsEach scene.now rows.old.items rows.new.items (between name.now offset before)) }
{
    let Some(before) = before else {
        return Ok(());
    };
    let head = before.standing.head;
    let wanted = Wanted::Between {
        from: head.offset.saturating_add(1),
        to: offset,
    };
    push_some(scene, rows, name, wanted, 2)
}

fn pair_rows(
    scene: &Scene<'_>,
    rows: &mut Vec<Row>,
    name: &PartitionName,
    producer: i64,
    offset: u64,
) -> Result<(), AllocError>
    ensures { OnOk result (Tells scene.now rows.old.items rows.new.items (λ told. OfAllSeen scene.now (λ ps. IsPairTold ps scene.now.logs.now name.now producer offset told))) }
{
    let before = push_touches(scene, rows, name, producer, offset)?;
    push_ending(scene, rows, producer, before)?;
    push_between(scene, rows, name, before, offset)?;
    push_near(scene, rows, producer, before)?;
    Ok(())
}

/// The offset of the last end marker of a producer id in a partition; 0 where there is none.
fn last_end(scene: &Scene<'_>, name: &PartitionName, producer: i64) -> Result<u64, AllocError>
    ensures { IfOk result (λ end. (markers : List Batch) × OfAllSeen scene.now (λ ps. AreBatchesOf ps name.now (Ending producer 0) markers) × (end ≡ last_end markers)) }
{
    let wanted = Wanted::Ending { producer, from: 0 };
    let markers = batches_of(scene.alloc, scene.partitions, name, wanted)?;
    let markers = markers.as_slice();
    let last = markers.len().saturating_sub(1);
    if last < markers.len() {
        return Ok(markers[last].standing.head.offset);
    }
    Ok(0)
}

/// The decision of an open transaction, which of its partitions have their markers, and the last states of its producer id.
fn push_open(
    scene: &Scene<'_>,
    rows: &mut Vec<Row>,
    producer: i64,
    first: Option<Placed>,
) -> Result<(), AllocError>
    ensures { OnOk result (TellsEach scene.now rows.old.items rows.new.items (of_open scene.now.logs.now producer first)) }
{
    let Some(batch) = first else {
        return push_last(scene, rows, producer);
    };
    let epoch = epoch_after(batch.standing.head.epoch);
    push_markers(scene, rows, producer, epoch)?;
    push_last(scene, rows, producer)?;
    Ok(())
}

fn open_rows(
    scene: &Scene<'_>,
    rows: &mut Vec<Row>,
    name: &PartitionName,
    producer: i64,
) -> Result<(), AllocError>
    ensures { OnOk result (Tells scene.now rows.old.items rows.new.items (λ told. OfAllSeen scene.now (λ ps. IsOpenTold ps scene.now.logs.now name.now producer told))) }
{
    let from = last_end(scene, name, producer)?;
    let first = push_first(scene, rows, name, Wanted::Open { producer, from })?;
    push_open(scene, rows, producer, first)?;
    Ok(())
}

/// Adds the rows of a fault of one partition's log.
pub(crate) fn partition_rows(
    scene: &Scene<'_>,
    rows: &mut Vec<Row>,
    fault: &PartitionFault,
) -> Result<(), AllocError>
    ensures { OnOk result (Tells scene.now rows.old.items rows.new.items (λ told. OfAllSeen scene.now (λ ps. IsPartitionTold ps scene.now.logs.now
        (record { topic = fault.now.topic; partition = fault.now.partition }) fault.now.offset told fault.now.kind))) }
{
    let name = PartitionName {
        topic: fault.topic.clone()?,
        partition: fault.partition,
    };
    match fault.kind {
        PartitionFaultKind::BadBatch { .. }
        | PartitionFaultKind::Gap { .. }
        | PartitionFaultKind::End { .. } => {
            push_place(scene, rows, &name, fault.offset)?;
            Ok(())
        }
        PartitionFaultKind::Pair { producer, .. } => {
            pair_rows(scene, rows, &name, producer, fault.offset)
        }
        PartitionFaultKind::OpenAtEnd { producer } => open_rows(scene, rows, &name, producer),
    }
}
