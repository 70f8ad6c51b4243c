//! The decisions of the transaction log, and where it breaks its own rule.

ghost use Rattle.std.specs.Prelude.{◌≡◌, fold, IfOk, IfSome, MatchResult};
ghost use Rattle.eos_base.specs.AllOf.{IsAllOf};
ghost use Rattle.eos_base.specs.Least.{NoneStands, IsLeast};
ghost use Rattle.eos_table.specs.TransactionLog.{transaction_parts, AreInOrder, decisions_of};
ghost use Rattle.eos_table.specs.LogFaults.{log_cmp, Stands as StandsInLog};
ghost use Rattle.eos_table.specs.steps.LogCandidates.{taken, none_found};
ghost use Rattle.eos_table.specs.steps.Doubled.{gathered};

use crate::doubled::push_doubled;
use crate::held::Holding;
use crate::log_faults::LogFaults;
use crate::log_reading::{LogReading, read_log};
use crate::shared::SharedDecision;
use eos_base::distinct_in_order;
use eos_kept::Part;
use eos_verdict::LogFault;
use std::alloc::{AllocError, Global};

/// What the log decided, and the faults that its records show, by themselves and against each other.
type Judged = (Vec<SharedDecision>, LogFaults);

/// What a reading is asked for, without what it held.
fn judged_by(reading: LogReading) -> Judged
    ensures decisions { result.0.items ≡ reading.decisions.items }
    ensures faults { result.1 ≡ reading.faults }
{
    let LogReading {
        decisions,
        faults,
        ..
    } = reading;
    (decisions, faults)
}

/// What the log decided, also where it breaks its own rule.
pub(crate) fn decisions_in(alloc: Global, parts: &[Part]) -> Result<Vec<SharedDecision>, AllocError>
    ensures { IfOk result (λ ds. ds.items ≡ decisions_of (transaction_parts parts.now)) }
{
    let (decisions, faults) = judged_by(read_log(alloc, parts, Holding::Nothing, false)?);
    drop(faults);
    Ok(decisions)
}

/// What the log decided, and its faults, where its unskipped records stand apart and none is left unfinished. None says nothing.
fn judge_apart(alloc: Global, parts: &[Part], keeps_all: bool) -> Result<Option<Judged>, AllocError>
    ensures decisions { IfOk result (λ o. IfSome o (λ judged. judged.0.items ≡ decisions_of (transaction_parts parts.now))) }
    ensures faults { IfOk result (λ o. IfSome o (λ judged. judged.1 ≡ fold taken (none_found keeps_all) (gathered (transaction_parts parts.now)))) }
{
    let reading = read_log(alloc, parts, Holding::Apart, keeps_all)?;
    match reading.held.holding {
        Holding::Apart => Ok(Some(judged_by(reading))),
        Holding::Each | Holding::Nothing => {
            drop(reading);
            Ok(None)
        }
    }
}

/// What the log decided, and its faults, of which all are kept or the least. A log that keeps its rule is read once, and of its records
/// next to nothing is held; of another one, each unskipped record is held against those before it.
fn judge_log(alloc: Global, parts: &[Part], keeps_all: bool) -> Result<Judged, AllocError>
    ensures decisions { IfOk result (λ judged. judged.0.items ≡ decisions_of (transaction_parts parts.now)) }
    ensures faults { IfOk result (λ judged. judged.1 ≡ fold taken (none_found keeps_all) (gathered (transaction_parts parts.now))) }
{
    if let Some(judged) = judge_apart(alloc, parts, keeps_all)? {
        return Ok(judged);
    }
    let mut reading = read_log(alloc, parts, Holding::Each, keeps_all)?;
    match push_doubled(alloc, &mut reading.faults, reading.held.marks.as_slice()) {
        Ok(()) => Ok(judged_by(reading)),
        Err(why) => {
            drop(reading);
            Err(why)
        }
    }
}

/// What the transaction log decided, in its order: the Prepare records among the unskipped ones of the partitions of
/// `__transaction_state`, with the epoch of the record of their id before them. Where the log breaks its own rule, the
/// least of its faults instead.
///
/// The parts are those of all topics, without a fault of their own, ordered by name.
///
/// # Errors
/// Only want of memory.
pub fn txn_log(
    alloc: Global,
    parts: &[Part],
) -> Result<Result<Vec<SharedDecision>, LogFault>, AllocError>
    ensures { let log = transaction_parts parts.now in AreInOrder log → IfOk result (λ answer. MatchResult answer
        (λ ds. NoneStands (StandsInLog log) × (ds.items ≡ decisions_of log)) (IsLeast log_cmp (StandsInLog log))) }
{
    let (decisions, faults) = judge_log(alloc, parts, false)?;
    match faults.into_least() {
        None => Ok(Ok(decisions)),
        Some(fault) => Ok(Err(fault)),
    }
}

/// Every fault of the transaction log that stands, in the order in which the least of them counts, each once: where an id
/// has a record in a lesser partition, each of its records in this one has a fault, and so on for each kind and place.
/// None where the log keeps its rule; else the first is that of `txn_log`.
///
/// The parts are those of all topics, without a fault of their own, ordered by name. The work is that of `txn_log` and a
/// sort of the faults; the memory is that of `txn_log` and of the faults.
///
/// # Errors
/// Only want of memory.
pub fn all_log_faults(alloc: Global, parts: &[Part]) -> Result<Vec<LogFault>, AllocError>
    ensures { let log = transaction_parts parts.now in AreInOrder log → IfOk result (λ faults. IsAllOf log_cmp (StandsInLog log) faults.items) }
{
    let (_, faults) = judge_log(alloc, parts, true)?;
    Ok(distinct_in_order(faults.into_all()))
}
