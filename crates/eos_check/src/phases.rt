//! The phases of the check over the logs, one after the other.

ghost use Rattle.std.specs.Prelude.{◌≡◌, IfOk};
ghost use Rattle.eos_check.specs.steps.Phases.{IsLogAnswer, IsMatched, IsTransacted};
ghost use Rattle.eos_commits.specs.Faults.{AreInOrder};
ghost use Rattle.eos_table.specs.Wanted.{IsWantedOf};

use crate::shards::least_fault;
use eos_base::Workers;
use eos_fold::PartitionFault;
use eos_kept::Part;
use eos_table::{LogFault, WantedTable, txn_log};
use eos_verdict::Fault;
use std::alloc::{AllocError, Global};
use std::thread::Threads;

/// An equal fault, which shares the bytes.
pub(crate) fn copied(fault: &PartitionFault) -> Result<PartitionFault, AllocError>
    ensures { IfOk result (λ copy. copy ≡ fault.now) }
{
    Ok(PartitionFault {
        topic: fault.topic.clone()?,
        partition: fault.partition,
        offset: fault.offset,
        kind: fault.kind,
    })
}

/// What the transaction log answers: its decisions, with what they want of the logs, or its least fault.
pub(crate) type LogAnswer = Result<WantedTable, LogFault>;

/// What the transaction log of these logs answers.
pub(crate) fn log_answer(alloc: Global, parts: &[Part]) -> Result<LogAnswer, AllocError>
    ensures { IfOk result (IsLogAnswer parts.now) }
{
    match txn_log(alloc, parts)? {
        Err(fault) => Ok(Err(fault)),
        Ok(decisions) => Ok(Ok(WantedTable::of(alloc, decisions, parts)?)),
    }
}

/// The number of decisions, or the least fault between them and the logs.
fn matched<R: Threads + Sync>(
    alloc: Global,
    rt: &R,
    wanted: &WantedTable,
    parts: &[Part],
    workers: Workers,
) -> Result<Result<u64, Fault>, AllocError>
    requires { IsWantedOf parts.now wanted.now }
    ensures { IfOk result (IsMatched wanted.now.0 parts.now) }
{
    match least_fault(alloc, rt, wanted, parts, workers)? {
        None => Ok(Ok(wanted.table().decisions().len() as u64)),
        Some(fault) => Ok(Err(Fault::Match(fault))),
    }
}

/// The number of transactions, or the least fault of the transaction log and the matching, by what the transaction log answers. The
/// matching runs in as many shards as there are workers.
pub(crate) fn decided<R: Threads + Sync>(
    alloc: Global,
    rt: &R,
    log: LogAnswer,
    parts: &[Part],
    workers: Workers,
) -> Result<Result<u64, Fault>, AllocError>
    requires { IsLogAnswer parts.now log }
    ensures { AreInOrder parts.now → IfOk result (IsTransacted parts.now) }
{
    match log {
        Err(fault) => Ok(Err(Fault::Log(fault))),
        Ok(wanted) => matched(alloc, rt, &wanted, parts, workers),
    }
}
