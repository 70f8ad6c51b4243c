//! The check of an evidence that is held in memory, by one thread.

ghost use Rattle.std.specs.Prelude.{◌≡◌, IfOk};
ghost use Rattle.eos_check.specs.Verdicts.{IsVerdict};
ghost use Rattle.eos_check.specs.KeptLogs.{AreKeptOf};

use crate::judging::judge;
use eos_base::Workers;
use eos_commits::source_topics;
use eos_evidence::Evidence;
use eos_kept::{Asked, Logs, told_in};
use eos_reading::Wants;
use eos_verdict::Verdict;
use std::alloc::{AllocError, Global};
use std::thread::Threads;

/// What the evidence's applications want of the logs of its partitions, in order, each with its least fault beside it.
fn kept_logs(alloc: Global, evidence: &Evidence) -> Result<Logs, AllocError>
    ensures { IfOk result (λ logs. AreKeptOf evidence.now.spec.apps evidence.now.partitions logs.parts.items logs.faults.items) }
{
    let apps = evidence.spec().apps().as_slice();
    let wants = Wants::of(alloc, apps)?;
    let topics = source_topics(alloc, apps)?;
    let mut parts = Vec::new(alloc);
    let mut faults = Vec::new(alloc);
    let partitions = evidence.partitions();
    for i in 0..partitions.len() {
        let partition = &partitions[i];
        let topic = partition.end.topic.as_slice();
        let asked = Asked {
            wanted: wants.of_topic(topic),
            topics: topics.as_slice(),
        };
        let told = told_in(alloc, asked, partition)?;
        parts.push(told.part)?;
        faults.push(told.fault)?;
    }
    Ok(Logs { parts, faults })
}

/// The verdict of an evidence: yes with three counts exactly where each log is whole and fenced, no sequence is repeated or
/// missing in a producer epoch, every transaction is committed in all its partitions or aborted in all, and the visible
/// outputs are, for each input below its group's committed offset, its numbered outputs or one note, each once, from
/// transactions that committed past it, and nothing else; otherwise no with the first fault.
///
/// It starts no thread.
///
/// # Errors
/// Only want of memory.
pub fn check_one<R: Threads + Sync>(
    alloc: Global,
    rt: &R,
    evidence: &Evidence,
) -> Result<Verdict, AllocError>
    ensures { IfOk result (IsVerdict evidence.now) }
{
    let logs = kept_logs(alloc, evidence)?;
    judge(alloc, rt, evidence.spec(), &logs, Workers::one())
}
