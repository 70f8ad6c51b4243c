//! What a simulated cluster leaves behind, and what is said of it.

ghost use Rattle.std.specs.Prelude.{◌≡◌, true, false, Err, IfOk, OnErr, string_bytes};
ghost use Rattle.std.specs.Io.KnownBytes.{Appends, Keeps};
ghost use Rattle.eos_text.specs.Writing.{WritesFront};
ghost use Rattle.eos_machine.specs.Elections.{LosesNothing};
ghost use Rattle.eos_machine.specs.Evidences.{IsEvidenceOf};
ghost use Rattle.eos_machine.specs.Schedules.{IsOfSchedule};
ghost use Rattle.eos_simulate.specs.Schedules.{HasRightLogs, HasNoFaultInLogs};
ghost use Rattle.eos_simulate.specs.Histories.{new_course};
ghost use Rattle.eos_simulate.specs.Simulated.{wrote_line};
ghost use Rattle.eos_segment.specs.Running.{IsOfReading};
ghost use Rattle.eos_simulate.specs.declared.making.SimulationFault.TheVariants.{OutOfMemory};

use eos_cluster::{Cluster, EvidenceRefusal, NewFault};
use eos_drive::Mishap;
use eos_evidence::Evidence;
use eos_machine::Config;
use eos_segment::RunFault;
use eos_text::{finish, push_text, push_value};
use std::alloc::{AllocError, AllocFailed, Global};
use std::io::Write;

/// Why a simulated cluster leaves no evidence.
#[derive(Clone, Copy)]
pub enum SimulationFault {
    /// A transaction is open or still ending.
    NotAtRest,
    /// Its logs may have more segments than evidence may have.
    Limit,
    /// Two options don't fit each other: what doesn't, and why.
    Unfit(&'static str, &'static str),
    /// A growth of memory was refused.
    OutOfMemory,
}

impl From<AllocError> for SimulationFault {
    ghost from_gives = { λ _ e. e ≡ OutOfMemory };

    fn from(_e: AllocError) -> SimulationFault {
        SimulationFault::OutOfMemory
    }
}

impl<T: Drop> From<AllocFailed<T>> for SimulationFault {
    ghost from_gives = { λ _ e. e ≡ OutOfMemory };

    fn from(_e: AllocFailed<T>) -> SimulationFault {
        SimulationFault::OutOfMemory
    }
}

/// A cluster of these sizes before any event.
pub(crate) fn new_cluster(alloc: Global, config: Config) -> Result<Cluster, SimulationFault>
    ensures { IfOk result (λ cluster. cluster ≡ new_course config) }
{
    match Cluster::new(alloc, config) {
        Ok(cluster) => Ok(cluster),
        Err(NewFault::Range) => Err(SimulationFault::Limit),
        Err(NewFault::OutOfMemory) => Err(SimulationFault::OutOfMemory),
    }
}

/// Refuses a mishap that didn't happen.
pub(crate) fn none_unmet(unmet: Option<Mishap>) -> Result<(), SimulationFault> {
    match unmet {
        None => Ok(()),
        Some(mishap) => Err(SimulationFault::Unfit(mishap.name(), "no input suits this mishap")),
    }
}

/// The cluster's logs: as they are where its run stops, else at rest.
pub(crate) fn evidence_of(cluster: &Cluster, stops: bool) -> Result<Evidence, SimulationFault>
    ensures evidence { IfOk result (IsEvidenceOf cluster.now.config cluster.now.world) }
    ensures schedule { stops ≡ false → cluster.now.honest ≡ true → LosesNothing cluster.now.world → IfOk result IsOfSchedule }
    ensures right { stops ≡ false → cluster.now.honest ≡ true → LosesNothing cluster.now.world → IfOk result HasRightLogs }
    ensures faultless { stops ≡ false → cluster.now.honest ≡ true → LosesNothing cluster.now.world → IfOk result HasNoFaultInLogs }
{
    if !cluster.has_room() {
        return Err(SimulationFault::Limit);
    }
    if stops {
        return Ok(cluster.evidence_anywhere()?);
    }
    match crate::evidence::evidence_of(cluster) {
        Ok(evidence) => Ok(evidence),
        Err(EvidenceRefusal::NotAtRest) => Err(SimulationFault::NotAtRest),
        Err(EvidenceRefusal::OutOfMemory) => Err(SimulationFault::OutOfMemory),
    }
}

/// Writes how many partitions an evidence has, as a line of text. The status is 0.
///
/// # Errors
/// At `Write` a front of the line was written, at `OutOfMemory` nothing. There is no other refusal.
pub fn told_to<W: Write>(alloc: Global, evidence: &Evidence, writer: &mut W) -> Result<u8, RunFault>
    ensures ok { IfOk result (λ status. (status ≡ 0) × Appends (W.contents writer.old) (W.contents writer.new) (wrote_line evidence.now)) }
    ensures write { result ≡ Err RunFault.Write → WritesFront (W.contents writer.old) (W.contents writer.new) (wrote_line evidence.now) }
    ensures memory { result ≡ Err RunFault.OutOfMemory → Keeps (W.contents writer.old) (W.contents writer.new) }
    ensures only { OnErr result (IsOfReading result → ⊥) }
{
    let line = line_of(alloc, evidence)?;
    finish(writer, line.as_bytes())?;
    Ok(0)
}

fn line_of(alloc: Global, evidence: &Evidence) -> Result<String, AllocError>
    ensures { IfOk result (λ line. string_bytes line ≡ wrote_line evidence.now) }
{
    let mut line = String::new(alloc);
    push_value(&mut line, "wrote partitions=", &evidence.partitions().len())?;
    push_text(&mut line, "\n")?;
    Ok(line)
}
