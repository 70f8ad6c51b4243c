//! The matching of the decisions with the logs, in shards of the producer ids, each of which a thread may take.

ghost use Rattle.std.specs.Prelude.{◌≡◌, IfOk};
ghost use Rattle.eos_base.specs.Least.{IsLeastOrNone};
ghost use Rattle.eos_table.specs.MatchFaults.{fault_cmp, Stands};
ghost use Rattle.eos_table.specs.Wanted.{IsWantedOf};
ghost use Rattle.eos_check.specs.steps.Shards.{lesser_answer, AreSettled};

use eos_base::{Workers, lesser};
use eos_kept::Part;
use eos_table::{MatchFault, TxnTable, WantedTable, are_matched, match_shard};
use std::alloc::{AllocError, Global};
use std::thread;
use std::thread::Threads;

/// The least fault so far, with a shard's.
fn with(best: Option<MatchFault>, answer: Option<MatchFault>) -> Option<MatchFault>
    ensures { result ≡ lesser_answer best answer }
{
    match answer {
        None => best,
        Some(fault) => lesser(best, fault),
    }
}

/// The least fault that one of the shards answered, or want of memory where one did.
fn least_of(
    answers: Vec<Result<Option<MatchFault>, AllocError>>,
) -> Result<Option<MatchFault>, AllocError>
    ensures { IfOk result (AreSettled answers.items) }
{
    let mut best = None;
    for answer in answers {
        best = with(best, answer?);
    }
    Ok(best)
}

/// The least fault between the decisions and the partitions' logs, or none, in as many shards as there are workers. Each shard may
/// have a thread of its own; with one no thread is started.
fn least_of_shards<R: Threads + Sync>(
    alloc: Global,
    rt: &R,
    table: &TxnTable,
    parts: &[Part],
    workers: Workers,
) -> Result<Option<MatchFault>, AllocError>
    ensures { IfOk result (IsLeastOrNone fault_cmp (Stands table.now parts.now)) }
{
    let shards = workers.get() as u32;
    let answers = thread::map_indices(
        rt,
        alloc,
        shards as usize,
        &|shard| { match_shard(alloc, table, parts, shard as u32, shards) },
    )?;
    least_of(answers)
}

/// The same; where the quick walk finds that all agree, no shard is looked at.
pub(crate) fn least_fault<R: Threads + Sync>(
    alloc: Global,
    rt: &R,
    wanted: &WantedTable,
    parts: &[Part],
    workers: Workers,
) -> Result<Option<MatchFault>, AllocError>
    requires { IsWantedOf parts.now wanted.now }
    ensures { IfOk result (IsLeastOrNone fault_cmp (Stands wanted.now.0 parts.now)) }
{
    let matched = are_matched(alloc, rt, workers, wanted, parts)?;
    if matched {
        return Ok(None);
    }
    least_of_shards(alloc, rt, wanted.table(), parts, workers)
}
