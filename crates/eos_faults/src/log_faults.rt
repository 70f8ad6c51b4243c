//! All faults of a partition's log by itself, as one list.

ghost use Rattle.std.specs.Prelude.{◌≡◌, IfOk, map};
ghost use Rattle.eos_evidence.specs.declared.partition.Partition.{Partition as Log};
ghost use Rattle.eos_sought.specs.Folded.{IsFolded};
ghost use Rattle.eos_faults.specs.PartitionPlaces.{named};
ghost use Rattle.eos_faults.specs.PartitionLists.{AreFaultsOf};

use crate::segments::walk_along;
use crate::shown_by_log::Shown;
use crate::stops::found_of;
use bytes::Bytes;
use eos_base::distinct_in_order;
use eos_fold::is_checked;
use eos_sought::Folded;
use eos_touch::PartitionFault;
use std::alloc::{AllocError, Global};

/// The same of this partition.
fn of_partition(
    alloc: Global,
    topic: &Bytes,
    partition: i32,
    shown: Vec<Shown>,
) -> Result<Vec<PartitionFault>, AllocError>
    ensures { IfOk result (λ faults. faults.items ≡ map (named topic.now partition) shown.items) }
{
    let mut faults = Vec::new(alloc);
    for it in shown {
        faults.push(PartitionFault {
            topic: topic.clone()?,
            partition,
            offset: it.offset,
            kind: it.kind,
        })?;
    }
    Ok(faults)
}

/// Every fault that stands in the log of a partition by itself, in the order in which the least of them counts, each once: where
/// several kinds stand at one batch, each of them, and of each producer id that is left open at the end its own. None where
/// the log keeps its rules.
///
/// They are found by the folds of its segments. The work is a step for each batch by the number of producer ids, and a sort of
/// the faults; the memory is by the number of producer ids and of faults.
///
/// # Errors
/// Only want of memory.
pub fn faults_of_partition(
    alloc: Global,
    folded: &Folded,
) -> Result<Vec<PartitionFault>, AllocError>
    ensures { (partition : Log) → IsFolded partition folded.now → IfOk result (λ faults. AreFaultsOf partition faults.items) }
{
    let end = &folded.end;
    let is_sequenced = is_checked(end.topic.as_slice());
    let (walk, stop) = walk_along(alloc, is_sequenced, folded.folds.as_slice())?;
    let shown = distinct_in_order(found_of(walk, stop, end.end)?);
    let faults = of_partition(alloc, &end.topic, end.partition, shown)?;
    Ok(faults)
}
