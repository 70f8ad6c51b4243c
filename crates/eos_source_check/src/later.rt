//! All faults of the phases behind the first, over logs: those of the first of these phases that has one.

ghost use Rattle.std.specs.Prelude.{OnOk, map};
ghost use Rattle.eos_base.specs.Least.{NoneStands};
ghost use Rattle.eos_commits.specs.Faults.{AreInOrder};
ghost use Rattle.eos_verdict.specs.declared.lineage_fault.LineageFault.TheVariants.{Record};
ghost use Rattle.eos_verdict.specs.declared.verdict.Fault.TheVariants.{Log, Match, Lineage};
ghost use Rattle.eos_check.specs.Verdicts.{StandsInLog, StandsInMatching};
ghost use Rattle.eos_faults.specs.Sinks.{TakesList};
ghost use Rattle.eos_source_check.specs.LaterFaults.{AreLaterFaults};

use eos_check::Fault;
use eos_commits::{VisibleFault, all_record_faults};
use eos_evidence::Spec;
use eos_faults::{Crew, FaultSink, output_faults};
use eos_kept::{Logs, Part};
use eos_lineage::LineageFault;
use eos_table::{LogFault, MatchFault, all_log_faults, all_match_faults};
use std::alloc::AllocError;
use std::marker::Send;
use std::thread::Threads;

fn take_log<S: FaultSink>(faults: Vec<LogFault>, sink: &mut S) -> Result<(), AllocError>
    ensures { OnOk result (S.takes sink.old (map Log faults.items) sink.new) }
{
    for fault in faults {
        sink.take(Fault::Log(fault))?;
    }
    Ok(())
}

fn take_matching<S: FaultSink>(faults: Vec<MatchFault>, sink: &mut S) -> Result<(), AllocError>
    ensures { OnOk result (S.takes sink.old (map Match faults.items) sink.new) }
{
    for fault in faults {
        sink.take(Fault::Match(fault))?;
    }
    Ok(())
}

fn take_records<S: FaultSink>(faults: Vec<VisibleFault>, sink: &mut S) -> Result<(), AllocError>
    ensures { OnOk result (S.takes sink.old (map Lineage (map Record faults.items)) sink.new) }
{
    for fault in faults {
        sink.take(Fault::Lineage(LineageFault::Record(fault)))?;
    }
    Ok(())
}

/// Where neither the transaction log nor the matching has a fault: those of the fourth phase, or else of the fifth.
fn after_matching<R: Threads + Sync, S: FaultSink + Send>(
    crew: &Crew<'_, R>,
    spec: &Spec,
    logs: &[Part],
    sink: &mut S,
) -> Result<(), AllocError>
    ensures { OnOk result (TakesList S.takes sink.old (λ list. AreInOrder logs.now → NoneStands (StandsInLog logs.now) → NoneStands (StandsInMatching logs.now)
        → AreLaterFaults spec.now.apps logs.now list) sink.new) }
{
    let faults = all_record_faults(crew.alloc, spec.apps().as_slice(), logs)?;
    if faults.is_empty() {
        return output_faults(crew, spec, logs, sink);
    }
    take_records(faults, sink)
}

/// Where the transaction log has no fault.
fn after_log<R: Threads + Sync, S: FaultSink + Send>(
    crew: &Crew<'_, R>,
    spec: &Spec,
    logs: &[Part],
    sink: &mut S,
) -> Result<(), AllocError>
    ensures { OnOk result (TakesList S.takes sink.old (λ list. AreInOrder logs.now → NoneStands (StandsInLog logs.now) → AreLaterFaults spec.now.apps logs.now list) sink.new) }
{
    let faults = all_match_faults(crew.alloc, logs)?;
    if faults.is_empty() {
        return after_matching(crew, spec, logs, sink);
    }
    take_matching(faults, sink)
}

/// Hands to a sink every fault of the phases behind the first that stands in these logs, as if none had a fault by
/// itself: in the verdict's order, each once, and of the outputs that one input lacks the first alone. They are of the first of these
/// phases that has one. Where no partition of an evidence has a fault by itself, they are all faults of the evidence, over its logs or
/// over what is kept of them (`laws::later`).
///
/// The work is that of the check by one thread, and a sort of what is found, but for the faults of outputs, which threads look for; the
/// memory is that of the check, and of the faults of one phase, but for those of outputs, which are handed on as they are found.
///
/// # Errors
/// Only want of memory, here or in the sink, which may have taken some.
pub fn later_faults<R: Threads + Sync, S: FaultSink + Send>(
    crew: &Crew<'_, R>,
    spec: &Spec,
    logs: &Logs,
    sink: &mut S,
) -> Result<(), AllocError>
    ensures { OnOk result (TakesList S.takes sink.old (λ list. AreInOrder logs.now.parts.items → AreLaterFaults spec.now.apps logs.now.parts.items list) sink.new) }
{
    let logs = logs.parts.as_slice();
    let faults = all_log_faults(crew.alloc, logs)?;
    if faults.is_empty() {
        return after_log(crew, spec, logs, sink);
    }
    take_log(faults, sink)
}
