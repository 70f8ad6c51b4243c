//! All faults, of the first phase that has one.

ghost use Rattle.std.specs.Prelude.{◌≡◌, length, map, take, slice_get, IfOk, IfErr, OnOk};
ghost use Rattle.eos_verdict.specs.declared.verdict.Fault.TheVariants.{Partition as InPartition};
ghost use Rattle.eos_kept.specs.Faults.{first_of};
ghost use Rattle.eos_source.specs.Said.{known_by};
ghost use Rattle.eos_faults.specs.Sinks.{TakesList};
ghost use Rattle.eos_source_check.specs.Listed.{IsListOf, BeginsAsFound};
ghost use Rattle.eos_source_check.specs.Refusals.{IsNoLog, IsEarned};
ghost use Rattle.eos_source_check.specs.steps.FaultsAgain.{AreListedAgain};

use crate::again::faults_if_found;
use crate::fault::Unlisted;
use crate::later::later_faults;
use crate::pieces::Pieces;
use eos_check::Fault;
use eos_evidence::Evidence;
use eos_faults::{Crew, FaultSink};
use eos_kept::Logs;
use eos_source::Source;
use eos_touch::PartitionFault;
use std::alloc::{AllocError, Global};
use std::marker::Send;
use std::thread::Threads;

/// All faults of the partitions by themselves, of which one was found in these.
fn partition_faults<S: Source>(
    alloc: Global,
    source: &S,
    shape: &Evidence,
    found: &[Option<PartitionFault>],
) -> Result<Vec<PartitionFault>, Unlisted<S::Fault>>
    ensures ok { IfOk result (λ list. AreListedAgain (known_by (S.said source.now) (S.is_log source.now)) shape.now.partitions found.now list.items) }
    ensures first { IfOk result (λ list. slice_get list.items 0 ≡ first_of (take (length shape.now.partitions) found.now)) }
    ensures fold { IfErr result (λ why. IsNoLog (S.is_log source.now) why) }
    ensures earned { IfErr result (IsEarned (known_by (S.said source.now) (S.is_log source.now)) (S.outcomes source.now) shape.now.partitions found.now) }
{
    let partitions = shape.partitions();
    let mut list = Vec::new(alloc);
    let mut first = 0u64;
    for i in 0..partitions.len() {
        let partition = &partitions[i];
        let mut more = faults_if_found(alloc, source, partition, first, found.get(i))?;
        list.append(&mut more)?;
        first += partition.segments.len() as u64;
    }
    Ok(list)
}

fn take_partitions<T: FaultSink>(
    faults: Vec<PartitionFault>,
    sink: &mut T,
) -> Result<(), AllocError>
    ensures { OnOk result (T.takes sink.old (map InPartition faults.items) sink.new) }
{
    for fault in faults {
        sink.take(Fault::Partition(fault))?;
    }
    Ok(())
}

/// Hands to a sink every fault of the evidence of this shape of whose logs these are kept, as `judge_source` keeps them, in the
/// verdict's order, each once; but of the outputs that one input lacks the first alone. Where a partition has a fault by itself, these
/// are of the partitions, and each one that has is read again from the source: it is true of an evidence that has these partitions as
/// they were read again. Since a fault of a phase counts only where none of the phases before stands, they are of one phase.
///
/// Beside what is kept, memory is that of the folds of one such partition, or of the faults of a phase, but for those of outputs: of
/// these all claims of one application are put in order.
///
/// # Errors
/// Of a partition that is read again: a piece that isn't there or is a fold, or that its least fault is another than the one that was
/// found; or want of memory. The sink may have taken some.
pub fn all_faults<S: Source, R: Threads + Sync, T: FaultSink + Send>(
    crew: &Crew<'_, R>,
    pieces: &Pieces<'_, S>,
    logs: &Logs,
    sink: &mut T,
) -> Result<(), Unlisted<S::Fault>>
    ensures ok { OnOk result (TakesList T.takes sink.old (λ list. IsListOf (known_by (S.said pieces.now.source.now) (S.is_log pieces.now.source.now)) pieces.now.shape.now logs.now list
        × BeginsAsFound pieces.now.shape.now logs.now list) sink.new) }
    ensures fold { IfErr result (λ why. IsNoLog (S.is_log pieces.now.source.now) why) }
    ensures earned { IfErr result (IsEarned (known_by (S.said pieces.now.source.now) (S.is_log pieces.now.source.now)) (S.outcomes pieces.now.source.now) pieces.now.shape.now.partitions logs.now.faults.items) }
{
    let source = pieces.source;
    let shape = pieces.shape;
    let spec = shape.spec();
    if let Some(_fault) = logs.first_fault() {
        let faults = partition_faults(crew.alloc, source, shape, logs.faults.as_slice())?;
        take_partitions(faults, sink)?;
        return Ok(());
    }
    later_faults(crew, spec, logs, sink)?;
    Ok(())
}

/// The same, as a list.
///
/// # Errors
/// Those of `all_faults`.
pub fn all_source_faults<S: Source, R: Threads + Sync>(
    crew: &Crew<'_, R>,
    pieces: &Pieces<'_, S>,
    logs: &Logs,
) -> Result<Vec<Fault>, Unlisted<S::Fault>>
    ensures ok { IfOk result (λ faults. IsListOf (known_by (S.said pieces.now.source.now) (S.is_log pieces.now.source.now)) pieces.now.shape.now logs.now faults.items) }
    ensures first { IfOk result (λ faults. BeginsAsFound pieces.now.shape.now logs.now faults.items) }
    ensures fold { IfErr result (λ why. IsNoLog (S.is_log pieces.now.source.now) why) }
    ensures earned { IfErr result (IsEarned (known_by (S.said pieces.now.source.now) (S.is_log pieces.now.source.now)) (S.outcomes pieces.now.source.now) pieces.now.shape.now.partitions logs.now.faults.items) }
{
    let mut list = Vec::new(crew.alloc);
    all_faults(crew, pieces, logs, &mut list)?;
    Ok(list)
}
