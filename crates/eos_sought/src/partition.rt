//! The batches of a partition.

ghost use Rattle.std.specs.Prelude.{◌≡◌, ◌++◌, map, List, None, IfOk, IfSome, IfNone, OnOk};
ghost use Rattle.eos_evidence.specs.declared.partition.Partition.{Partition as Log};
ghost use Rattle.eos_sought.specs.Partitions.{names, is_named, partition_named, AreBatchesOf};
ghost use Rattle.eos_sought.specs.Folded.{AreFolded, IsNamedBy};
ghost use Rattle.eos_sought.specs.steps.Placing.{placed_at, wanted_of};

use crate::folded::Folded;
use crate::walk::batches_in;
use crate::wanted::{Standing, Wanted};
use eos_base::PartitionName;
use eos_evidence::{End, Partition};
use eos_fold_file::FoldFile;
use std::alloc::{AllocError, Global};

/// A batch of a partition: the name of its segment, and where it stands there.
#[derive(Clone, Copy)]
pub struct Placed {
    pub segment: i64,
    pub standing: Standing,
}

fn push_placed(all: &mut Vec<Placed>, segment: i64, found: &[Standing]) -> Result<(), AllocError>
    ensures { OnOk result (all.new.items ≡ all.old.items ++ map (placed_at segment) found.now) }
{
    for standing in found {
        all.push(Placed {
            segment,
            standing: *standing,
        })?;
    }
    Ok(())
}

/// The batches of these segments that are wanted, one segment after the other.
fn placed_of(alloc: Global, folds: &[FoldFile], wanted: Wanted) -> Result<Vec<Placed>, AllocError>
    ensures { IfOk result (λ all. all.items ≡ wanted_of folds.now wanted) }
{
    let mut all = Vec::new(alloc);
    for fold in folds {
        let found = batches_in(alloc, fold, wanted)?;
        push_placed(&mut all, fold.base, found.as_slice())?;
    }
    Ok(all)
}

/// Whether the partition that is declared to end so has this name.
fn names(end: &End, name: &PartitionName) -> bool
    ensures { result ≡ names name.now end.now }
{
    end.topic.as_slice().cmp(name.topic.as_slice()).is_eq() && end.partition == name.partition
}

/// Whether this is the partition's name.
pub fn is_named(partition: &Partition, name: &PartitionName) -> bool
    ensures { result ≡ is_named name.now partition.now }
{
    names(&partition.end, name)
}

/// The partition of this name, if there is one.
pub fn folded_named<'a>(folded: &'a [Folded], name: &PartitionName) -> Option<&'a Folded>
    ensures none { IfNone result ((ps : List Log) → AreFolded ps folded.now → partition_named name.now ps ≡ None) }
    ensures some { IfSome result (λ f. (ps : List Log) → AreFolded ps folded.now → IsNamedBy ps name.now f.now) }
{
    for one in folded {
        if names(&one.end, name) {
            return Some(one);
        }
    }
    None
}

/// The batches of the partition of this name that are wanted, by segment and byte; none where there is no such partition.
///
/// # Errors
/// Want of memory. A byte or an offset past 64 bits, which no segment has, counts as one.
pub fn batches_of(
    alloc: Global,
    folded: &[Folded],
    name: &PartitionName,
    wanted: Wanted,
) -> Result<Vec<Placed>, AllocError>
    ensures { IfOk result (λ all. (ps : List Log) → AreFolded ps folded.now → AreBatchesOf ps name.now wanted all.items) }
{
    let Some(one) = folded_named(folded, name) else {
        return Ok(Vec::new(alloc));
    };
    let all = placed_of(alloc, one.folds.as_slice(), wanted)?;
    Ok(all)
}
