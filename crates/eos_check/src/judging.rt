//! The verdict over logs, by their phases, one after the other.

ghost use Rattle.std.specs.Prelude.{◌≡◌, ◌+◌, List, IfOk, IfSome, Ok};
ghost use Rattle.std.specs.Thread.{IsSync};
ghost use Rattle.eos_check.specs.Judged.{IsJudged, IsVerdictOver};
ghost use Rattle.eos_check.specs.steps.Phases.{IsLogAnswer, IsTransacted};
ghost use Rattle.eos_commits.specs.Faults.{AreInOrder};
ghost use Rattle.eos_evidence.specs.declared.application.App.{App};
ghost use Rattle.eos_fold.specs.Parts.{PartLog};
ghost use Rattle.eos_lineage.specs.Faults.{IsAnswer};
ghost use Rattle.eos_kept.specs.Faults.{first_of};
ghost use Rattle.eos_verdict.specs.declared.verdict.Fault.TheVariants.{Partition};
ghost use Rattle.eos_verdict.specs.declared.verdict.Verdict.TheVariants.{No};

use crate::phases::{LogAnswer, copied, decided, log_answer};
use eos_base::Workers;
use eos_evidence::Spec;
use eos_fold::PartitionFault;
use eos_kept::{Logs, Part};
use eos_lineage::{LineageCounts, LineageFault, check_lineage_by};
use eos_table::is_of_transaction_log;
use eos_verdict::{Counts, Fault, Verdict};
use std::alloc::{AllocError, Global};
use std::thread::{Threads, join};

/// So many times as long as a record of another log keeps the lineage, one of the transaction log keeps its reading, about.
const LONGER: u64 = 4;

/// Logs of an evidence with this manifest, and at most how many threads judge them.
#[derive(Clone, Copy)]
pub struct Judging<'a> {
    pub spec: &'a Spec,
    pub logs: &'a Logs,
    pub workers: Workers,
}

/// Logs of an evidence with this manifest, in which no partition has a fault.
#[derive(Clone, Copy)]
struct Sound<'a> {
    spec: &'a Spec,
    parts: &'a [Part],
}

/// Which of two takes longer.
#[derive(Clone, Copy)]
enum Longer {
    TransactionLog,
    Lineage,
}

/// What the lineage answers.
type Lined = Result<Result<LineageCounts, LineageFault>, AllocError>;

/// How many records the transaction log has, and how many all logs.
fn counts_of(parts: &[Part]) -> (u64, u64) {
    let mut log = 0u64;
    let mut all = 0u64;
    for part in parts {
        let len = part.items().len() as u64;
        if is_of_transaction_log(part) {
            log = log.saturating_add(len);
        }
        all = all.saturating_add(len);
    }
    (log, all)
}

/// All workers but one, where the lineage by these beside the reading of the transaction log takes less time than by all of them after
/// it, by the numbers of their records.
fn others_of(counts: (u64, u64), workers: Workers) -> Option<Workers>
    ensures { IfSome result (λ others. others + 1 ≡ workers) }
{
    let others = Workers::new(workers.get() - 1)?;
    let (log, all) = counts;
    if log.saturating_mul(LONGER * workers.get() * others.get()) < all {
        return None;
    }
    Some(others)
}

/// Which takes longer where one worker reads the transaction log and the others look at the lineage, of which one goes over the commits.
fn longer_of(counts: (u64, u64), workers: Workers) -> Longer {
    let (log, all) = counts;
    if log.saturating_mul(workers.get()) < all {
        Longer::Lineage
    } else {
        Longer::TransactionLog
    }
}

/// What another thread answers, which then does this work, and what the caller's thread answers meanwhile.
fn beside<
    R: Threads + Sync,
    A: Send + Drop,
    B: Drop,
    T: Send + Drop,
    F: FnOnce() -> A + Send,
    W: FnOnce() -> T + Send,
    G: FnOnce() -> B,
>(rt: &R, other: F, work: W, own: G) -> ((A, T), B)
    requires other { F.pre other }
    requires work { W.pre work }
    requires own { G.pre own }
    ensures other { F.post other result.0.0 }
    ensures work { W.post work result.0.1 }
    ensures own { G.post own result.1 }
{
    join(
        rt,
        move || -> (A, T)
            requires other { F.pre other }
            requires work { W.pre work }
            ensures other { F.post other result.0 }
            ensures work { W.post work result.1 }
        {
            let answer = other();
            (answer, work())
        },
        own,
    )
}

/// The verdict of logs in which no partition, no transaction log and none of so many transactions has a fault, by what the lineage
/// answers.
fn of_lineage(transactions: u64, lineage: Result<LineageCounts, LineageFault>) -> Verdict
    ensures { (apps : List App) (logs : List PartLog) → IsTransacted logs (Ok transactions) → IsAnswer apps logs lineage → IsVerdictOver apps logs result }
{
    match lineage {
        Err(fault) => Verdict::No(Fault::Lineage(fault)),
        Ok(counts) => Verdict::Yes(Counts {
            transactions,
            inputs: counts.inputs,
            outputs: counts.outputs,
        }),
    }
}

/// The verdict of logs in which no partition has a fault, by what the transactions and the lineage answer.
fn of_both(
    sound: Sound<'_>,
    transacted: Result<u64, Fault>,
    lineage: Lined,
) -> Result<Verdict, AllocError>
    requires transactions { AreInOrder sound.parts.now → IsTransacted sound.parts.now transacted }
    requires lineage { AreInOrder sound.parts.now → IfOk lineage (IsAnswer sound.spec.now.apps sound.parts.now) }
    ensures { IfOk result (λ verdict. AreInOrder sound.entry.parts.now → IsVerdictOver sound.entry.spec.now.apps sound.entry.parts.now verdict) }
{
    match transacted {
        Err(least) => Ok(Verdict::No(least)),
        Ok(transactions) => Ok(of_lineage(transactions, lineage?)),
    }
}

/// The verdict of logs in which no partition has a fault, by what the transaction log and the lineage answer.
fn judge_both<R: Threads + Sync>(
    alloc: Global,
    rt: &R,
    sound: Sound<'_>,
    workers: Workers,
    answers: (Result<LogAnswer, AllocError>, Lined),
) -> Result<Verdict, AllocError>
    requires log { IfOk answers.0 (IsLogAnswer sound.parts.now) }
    requires lineage { AreInOrder sound.parts.now → IfOk answers.1 (IsAnswer sound.spec.now.apps sound.parts.now) }
    ensures { IfOk result (λ verdict. AreInOrder sound.entry.parts.now → IsVerdictOver sound.entry.spec.now.apps sound.entry.parts.now verdict) }
{
    let (log, lineage) = answers;
    let transacted = decided(alloc, rt, log?, sound.parts, workers)?;
    of_both(sound, transacted, lineage)
}

/// The same, by the transactions and then the lineage.
fn judge_in_turn<R: Threads + Sync>(
    alloc: Global,
    rt: &R,
    sound: Sound<'_>,
    workers: Workers,
) -> Result<Verdict, AllocError>
    ensures { IfOk result (λ verdict. AreInOrder sound.entry.parts.now → IsVerdictOver sound.entry.spec.now.apps sound.entry.parts.now verdict) }
{
    let log = log_answer(alloc, sound.parts)?;
    match decided(alloc, rt, log, sound.parts, workers)? {
        Err(fault) => Ok(Verdict::No(fault)),
        transacted => {
            let lineage = check_lineage_by(alloc, rt, workers, sound.spec, sound.parts);
            of_both(sound, transacted, lineage)
        }
    }
}

/// A no for the fault of a partition.
fn no_of(fault: &PartitionFault) -> Result<Verdict, AllocError>
    ensures { IfOk result (λ verdict. verdict ≡ No (Partition fault.now)) }
{
    Ok(Verdict::No(Fault::Partition(copied(fault)?)))
}

/// The verdict of logs in which no partition has a fault, and what this work does.
fn judge_sound<R: Threads + Sync, T: Send + Drop, W: FnOnce() -> T + Send>(
    alloc: Global,
    rt: &R,
    sound: Sound<'_>,
    workers: Workers,
    work: W,
) -> (Result<Verdict, AllocError>, T)
    requires { W.pre work }
    ensures verdict { IfOk result.0 (λ verdict. AreInOrder sound.entry.parts.now → IsVerdictOver sound.entry.spec.now.apps sound.entry.parts.now verdict) }
    ensures work { W.post work result.1 }
{
    let counts = counts_of(sound.parts);
    let Some(others) = others_of(counts, workers) else {
        let verdict = judge_in_turn(alloc, rt, sound, workers);
        return (verdict, work());
    };
    let Sound { spec, parts } = sound;
    let log = || -> Result<LogAnswer, AllocError>
        ensures { IfOk result (IsLogAnswer parts.entry.now) }
    { log_answer(alloc, parts) };
    let lineage = || -> Lined
        requires sync { IsSync R.row }
        ensures { AreInOrder parts.entry.now → IfOk result (IsAnswer spec.entry.now.apps parts.entry.now) }
    { check_lineage_by(alloc, rt, others, spec, parts) };
    let (answers, worked) = match longer_of(counts, workers) {
        Longer::TransactionLog => {
            let ((lineage, worked), log) = beside(rt, lineage, work, log);
            ((log, lineage), worked)
        }
        Longer::Lineage => {
            let ((log, worked), lineage) = beside(rt, log, work, lineage);
            ((log, lineage), worked)
        }
    };
    let verdict = judge_both(alloc, rt, sound, workers, answers);
    (verdict, worked)
}

/// The verdict over these logs, as `judge` gives it, and what this work answers. Where the transaction log is long a thread that has
/// looked at the lineage does the work meanwhile, where it is short one that has read it, and else the caller's does it last.
///
/// # Errors
/// Only want of memory.
pub fn judge_with<R: Threads + Sync, T: Send + Drop, W: FnOnce() -> T + Send>(
    alloc: Global,
    rt: &R,
    judging: Judging<'_>,
    work: W,
) -> (Result<Verdict, AllocError>, T)
    requires { W.pre work }
    ensures verdict { IfOk result.0 (IsJudged judging.entry.spec.now.apps judging.entry.logs.now.parts.items (first_of judging.entry.logs.now.faults.items)) }
    ensures work { W.post work result.1 }
{
    let Judging {
        spec,
        logs,
        workers,
    } = judging;
    if let Some(fault) = logs.first_fault() {
        return (no_of(fault), work());
    }
    let sound = Sound {
        spec,
        parts: logs.parts.as_slice(),
    };
    judge_sound(alloc, rt, sound, workers, work)
}

/// The verdict over these logs of an evidence of this spec: the first of the faults that stand beside them, or
/// else what the other phases answer over the logs. At most so many threads work at a time: they match the transactions and look at
/// the lineage, the latter while one of them reads the transaction log, where that is long.
///
/// # Errors
/// Only want of memory.
pub fn judge<R: Threads + Sync>(
    alloc: Global,
    rt: &R,
    spec: &Spec,
    logs: &Logs,
    workers: Workers,
) -> Result<Verdict, AllocError>
    ensures { IfOk result (IsJudged spec.now.apps logs.now.parts.items (first_of logs.now.faults.items)) }
{
    let judging = Judging {
        spec,
        logs,
        workers,
    };
    let (verdict, _nothing) = judge_with(alloc, rt, judging, || {});
    verdict
}
